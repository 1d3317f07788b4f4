ghost use Rattle.std.specs.Prelude.{◌≡◌, ◌↔◌, ◌<◌, IsTrue, IfOk, take, length, option_map};
ghost use Rattle.std.specs.Option.{option_copied};
ghost use Rattle.otp_model.specs.Whole.{is_after};
ghost use Rattle.paging.specs.Slice.{cursor_at, entries_above};

use otp_base::{List, Memory};
use otp_model::{Found, Value};
use std::alloc::Global;

/// The first `n` entries of a list above a value, or of all where there is none, and whether more follow.
pub fn page(
    alloc: Global,
    list: Vec<Found>,
    after: Option<&Value>,
    n: u32,
) -> Result<(List<Found>, bool), Memory>
    ensures found { IfOk result (λ page. page.0 ≡ take n (entries_above (option_copied after.entry) list.items)) }
    ensures more { IfOk result (λ page. IsTrue page.1 ↔ (n < length (entries_above (option_copied after.entry) list.items))) }
{
    let mut above = entries_above(alloc, list, after)?;
    let more = above.len() > n as usize;
    above.truncate(n as usize);
    Ok((List::from_vec(above), more))
}

fn entries_above(
    alloc: Global,
    list: Vec<Found>,
    after: Option<&Value>,
) -> Result<Vec<Found>, Memory>
    ensures { IfOk result (λ above. above.items ≡ entries_above (option_copied after.entry) list.items) }
{
    let above = list
        .into_iter()
        .filter(|found| is_above(after, &found.value))
        .collect(alloc)?;
    Ok(above)
}

/// Whether a value is above another, if there is one.
fn is_above(after: Option<&Value>, value: &Value) -> bool
    ensures { result ≡ is_after (option_map cursor_at (option_copied after.entry)) value.now }
{
    match after {
        None => true,
        Some(after) => after < value,
    }
}
