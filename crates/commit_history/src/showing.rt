//! How the writer shows a cell.
ghost use Rattle.std.specs.Prelude.{◌≡◌, [], ◌∷◌, drop, Some, MatchResult};
ghost use Rattle.commit_history.specs.Rules.{IsLike, MayFollow, name_of, next_of};
ghost use Rattle.commit_history.specs.Views.{known_by};

use crate::cell::Cell;
use crate::rule::{CellRule, Knowledge, Publishes};
use left_right::writer::Writer;
use std::alloc::AllocError;
use std::sync::Wait;

/// The writer of the cell.
pub type CellWriter = Writer<Cell, Cell, Knowledge, CellRule>;

/// What the cell's writer knows, the cell that it shows, and those that it is still to show.
pub trait Showing {
    ghost use Rattle.std.specs.Prelude.{List};
    ghost use Rattle.commit_history.specs.Rules.{Cell as CellIn};
    ghost use Rattle.commit_history.specs.declared.rule.Knowledge.{Knowledge as KnowledgeOf};

    ghost knowledge: { Self → KnowledgeOf };

    ghost shown: { Self → CellIn };

    ghost pending: { Self → List CellIn };
}

impl Showing for CellWriter {
    ghost knowledge = { λ writer. known_by writer.desk.place };

    ghost shown = { λ writer. writer.desk.shown.value };

    ghost pending = { λ writer. drop writer.behind writer.log.items };
}

/// Shows the cell that was appended.
pub fn show<R: Wait>(writer: CellWriter, rt: &R) -> (CellWriter, Result<(), AllocError>)
    requires pending { let cells = drop writer.behind writer.log.items in cells ≡ next_of writer.desk.shown.value cells ∷ [] }
    requires may { MayFollow writer.desk.shown.value (next_of writer.desk.shown.value (drop writer.behind writer.log.items)) }
    ensures { MatchResult result.1
        (λ _. IsLike result.0.desk.shown.value (next_of writer.desk.shown.value (drop writer.behind writer.log.items)) × ((known_by result.0.desk.place).name ≡ Some (name_of result.0.desk.shown.value)) × (drop result.0.behind result.0.log.items ≡ []))
        (λ _. (result.0.desk.shown.value ≡ writer.desk.shown.value) × (drop result.0.behind result.0.log.items ≡ drop writer.behind writer.log.items)) }
{
    writer.publish_as::<Publishes, R>(rt)
}

/// Appends a cell. It waits for memory.
fn append<R: Wait>(writer: &mut CellWriter, rt: &R, cell: Cell)
    requires { drop writer.old.behind writer.old.log.items ≡ [] }
    ensures pending { drop writer.new.behind writer.new.log.items ≡ cell ∷ [] }
    ensures desk { writer.new.desk ≡ writer.old.desk }
{
    let mut next = cell;
    for _ in rt.forever() {
        match writer.append(next) {
            Ok(()) => return,
            Err(back) => next = back,
        }
    }
    unreachable!()
}

/// Shows the cell that was appended. It waits for readers, and until it can be shown.
pub fn show_pending<R: Wait>(writer: &mut CellWriter, rt: &R)
    requires pending { let cells = drop writer.old.behind writer.old.log.items in cells ≡ next_of writer.old.desk.shown.value cells ∷ [] }
    requires may { MayFollow writer.old.desk.shown.value (next_of writer.old.desk.shown.value (drop writer.old.behind writer.old.log.items)) }
    ensures pending { drop writer.new.behind writer.new.log.items ≡ [] }
    ensures shown { IsLike writer.new.desk.shown.value (next_of writer.old.desk.shown.value (drop writer.old.behind writer.old.log.items)) }
    ensures name { (known_by writer.new.desk.place).name ≡ Some (name_of writer.new.desk.shown.value) }
{
    for _ in rt.forever() {
        if core::mem::replace_with(&mut *writer, rt, show::<R>).is_ok() {
            return;
        }
    }
    unreachable!()
}

/// Shows a cell to the readers. It waits for readers, and if need be for memory.
pub fn show_cell<R: Wait>(writer: &mut CellWriter, rt: &R, cell: Cell)
    requires pending { drop writer.old.behind writer.old.log.items ≡ [] }
    requires may { MayFollow writer.old.desk.shown.value cell }
    ensures pending { drop writer.new.behind writer.new.log.items ≡ [] }
    ensures shown { IsLike writer.new.desk.shown.value cell }
    ensures name { (known_by writer.new.desk.place).name ≡ Some (name_of writer.new.desk.shown.value) }
{
    append(writer, rt, cell);
    show_pending(writer, rt);
}
