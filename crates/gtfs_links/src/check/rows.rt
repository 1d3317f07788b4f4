ghost use Rattle.std.specs.Prelude.{ℕ, List, [], ◌<◌, length, Option};
ghost use Rattle.gtfs_links.specs.Faults.{Finds, Judges, first_wrong};
ghost use Rattle.gtfs_links.specs.declared.check.wrong.Wrong.{Wrong as WrongValue};

use super::wrong::Wrong;
use otp_model::{FeedFault, FeedFile};
use std::alloc::Global;

/// What may be wrong with a file's rows, each beside the rows before it.
pub trait Rule {
    type Row;

    /// The rule, on the rows before and the row.
    ghost rule: { Self → List Self.Row → Self.Row → Option WrongValue };

    /// What has to be known of the file's rows.
    ghost knows: { Self → List Self.Row → Type 0 };

    /// What is wrong with the row at a place, where nothing is with those before it.
    fn judge(&self, rows: &[Self::Row], place: usize) -> Option<Wrong>
        requires rows { knows self.now rows.now }
        requires place { place < length rows.now }
        ensures { Judges (rule self.now) rows.now place result };
}

/// Looks for the first row of a file with which something is wrong.
pub fn check_rows<C: Rule>(
    alloc: Global,
    file: FeedFile,
    rule: &C,
    rows: &[C::Row],
) -> Result<(), FeedFault>
    requires { C.knows rule.now rows.now }
    ensures { Finds result (first_wrong file (C.rule rule.now) [] rows.now) }
{
    for place in 0..rows.len() {
        if let Some(wrong) = rule.judge(rows, place) {
            return Err(wrong.at(alloc, file, place as u64 + 1));
        }
    }
    Ok(())
}
