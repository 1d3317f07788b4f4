ghost use Rattle.std.specs.Prelude.{◌≡◌, ◌∷◌, IfOk, option_map};
ghost use Rattle.std.specs.List.{list_any};
ghost use Rattle.std.specs.Result.{result_map_both};
ghost use Rattle.query_form.specs.Pairs.{is_named, pair_of, pairs_of, single, text_of, value_of, values_named};

use crate::fault::QueryFault;
use form_urlencoded::{decode, raw_pairs};
use otp_base::{Memory, Text};
use std::alloc::Global;

/// A parameter as it stands in a query, decoded.
#[derive(Debug, Drop)]
pub struct Pair {
    pub name: Text,
    pub value: Text,
}

impl Pair {
    fn is_named(&self, name: &str) -> bool
        ensures { result ≡ is_named name.now self.now }
    {
        self.name.is(name)
    }
}

/// The pairs of a query.
pub fn pairs_of(alloc: Global, query: &str) -> Result<Vec<Pair>, Memory>
    ensures { IfOk result (λ pairs. pairs.items ≡ pairs_of query.now) }
{
    let mut pairs = Vec::new(alloc);
    for (name, value) in raw_pairs(query.as_bytes()) {
        let pair = Pair {
            name: decoded(alloc, name)?,
            value: decoded(alloc, value)?,
        };
        pairs.push(pair)?;
    }
    Ok(pairs)
}

/// The text that the bytes of a name or a value stand for.
fn decoded(alloc: Global, bytes: &[u8]) -> Result<Text, Memory>
    ensures { IfOk result (λ text. text ≡ text_of bytes.now) }
{
    let text = decode(alloc, bytes)?.into_owned(alloc)?;
    Ok(Text::from_string(text))
}

/// The value under a name, if there is one; a fault where there are two.
pub fn value_of<'a>(pairs: &'a [Pair], name: &str) -> Result<Option<&'a str>, QueryFault>
    ensures { result_map_both (λ value. option_map (λ s. s.now) value) (λ e. e) result ≡ value_of pairs.now name.now }
{
    let mut left = pairs;
    while let Some((pair, rest)) = left.split_first() {
        if pair.is_named(name) {
            return only_value(pair, rest, name);
        }
        left = rest;
    }
    Ok(None)
}

/// The value of a pair, unless another has its name.
fn only_value<'a>(
    pair: &'a Pair,
    others: &[Pair],
    name: &str,
) -> Result<Option<&'a str>, QueryFault>
    ensures { result_map_both (λ value. option_map (λ s. s.now) value) (λ e. e) result ≡ single (pair.now.value ∷ values_named name.now others.now) }
{
    if has_named(others, name) {
        return Err(QueryFault::Twice);
    }
    Ok(Some(pair.value.as_str()))
}

fn has_named(pairs: &[Pair], name: &str) -> bool
    ensures { result ≡ list_any (is_named name.now) pairs.now }
{
    pairs.iter().any(|pair| pair.is_named(name))
}
