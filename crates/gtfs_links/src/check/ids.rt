ghost use Rattle.std.specs.Prelude.{◌≡◌, map};
ghost use Rattle.gtfs_links.specs.Index.{IsIndexOf};
ghost use Rattle.gtfs_links.specs.Rules.{id_rule, repeat_wrong};

use super::rows::Rule;
use super::wrong::{Column, Wrong};
use crate::identified::Identified;
use name_index::Names;
use std::marker::PhantomData;

/// Each record is to have an id of its own, in this column. The names begin with those of the file.
#[derive(Drop)]
pub struct IdRule<'a, R: Identified> {
    names: &'a Names<'a>,
    column: Column,
    rows: PhantomData<R>,
}

impl<'a, R: Identified> IdRule<'a, R> {
    pub fn new(names: &'a Names<'a>, column: Column) -> IdRule<'a, R>
        ensures names { result.names.now ≡ names.now }
        ensures column { result.column ≡ column }
    {
        IdRule {
            names,
            column,
            rows: PhantomData,
        }
    }
}

impl<'a, R: Identified> Rule for IdRule<'a, R> {
    type Row = R;

    ghost rule = { λ it. id_rule R.id_of it.column };

    ghost knows = { λ it rows. IsIndexOf (map R.id_of rows) it.names.now };

    fn judge(&self, rows: &[R], place: usize) -> Option<Wrong> {
        let repeated = self.names.place(rows[place].id()) < place;
        wrong_if(repeated, self.column)
    }
}

/// The column is that of a key, and an earlier row may have it.
pub fn wrong_if(repeated: bool, column: Column) -> Option<Wrong>
    ensures { result ≡ repeat_wrong column repeated }
{
    if repeated {
        return Some(Wrong::duplicate(column));
    }
    None
}
