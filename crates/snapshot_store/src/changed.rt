ghost use Rattle.std.specs.Prelude.{◌≡◌, ◌<◌, IfOk};
ghost use Rattle.std.specs.List.{AllPairs};
ghost use Rattle.snapshot_store.specs.Changing.{IsChangeBelow, has_change};
ghost use Rattle.snapshot_store.specs.Marks.{AreMarked, mark_of};

use otp_base::Memory;
use otp_model::{Change, RunName, TripName};
use std::alloc::Global;
use std::marker::Model;

/// How many marks there are.
const MARKS: usize = 65_536;

/// Changes that rise by their names, with marks for their trips: of a name without a mark it is known at once that no change
/// has it.
#[derive(Drop)]
pub struct Changed<'a> {
    changes: &'a [Change],
    marks: Vec<bool>,
}

impl<'a> Model for Changed<'a> {
    ghost use Rattle.std.specs.Prelude.{List};
    ghost use Rattle.otp_model.specs.declared.change.Change.{Change as ChangeOf};
    ghost use Rattle.snapshot_store.specs.Marks.{IsKept};

    ghost Value = { List ChangeOf };

    ghost view = { λ changed. changed.changes.now };

    ghost invariant = { λ changed. IsKept changed.changes.now changed.marks.items };
}

impl<'a> Changed<'a> {
    pub fn of(alloc: Global, changes: &'a [Change]) -> Result<Changed<'a>, Memory>
        requires { AllPairs IsChangeBelow changes.now }
        ensures { IfOk result (λ changed. changed ≡ changes.now) }
    {
        let marks = marks_of(alloc, changes)?;
        Ok(Changed { changes, marks })
    }

    /// Whether one of the changes has this name.
    pub fn has(&self, name: &RunName) -> bool
        ensures { result ≡ has_change self.now name.now }
    {
        if !self.marks[mark_of(name)] {
            return false;
        }
        is_changed(self.changes, name)
    }
}

/// The marks of all changes.
fn marks_of(alloc: Global, changes: &[Change]) -> Result<Vec<bool>, Memory>
    ensures { IfOk result (λ marks. AreMarked changes.now marks.items) }
{
    let mut marks = vec![in alloc; false; MARKS]?;
    for change in changes {
        marks[mark_of(&change.name)] = true;
    }
    Ok(marks)
}

/// The place of a name's mark.
fn mark_of(name: &RunName) -> usize
    ensures place { result ≡ mark_of name.now }
    ensures within { result < 65536 }
{
    match &name.trip {
        TripName::Planned(trip) => *trip as usize % MARKS,
        TripName::Added(_) => 0,
    }
}

fn is_changed(changes: &[Change], name: &RunName) -> bool
    requires { AllPairs IsChangeBelow changes.now }
    ensures { result ≡ has_change changes.now name.now }
{
    changes
        .binary_search_by(|change| change.name.compare(name))
        .is_ok()
}
