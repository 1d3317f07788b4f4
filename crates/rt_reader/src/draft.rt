ghost use Rattle.std.specs.Prelude.{◌≡◌, ◌≤◌, ℕ, Bool, List, length};
ghost use Rattle.pb_wire.specs.Wire.{LiesWithin};
ghost use Rattle.pb_wire.specs.declared.field.Field.{Field};
ghost use Rattle.rt_reader.specs.Faults.{Reads};
ghost use Rattle.rt_reader.specs.Fields.{Part, Reading};
ghost use Rattle.rt_reader.specs.Walk.{wrong_field, part_wrong, part_value};

use crate::fault::MessageFault;
use pb_wire::{Field, fields_at};
use std::alloc::Global;

/// A message that is read field by field: how each field is read, which fields were seen, and what a
/// field adds.
pub trait Draft: Drop {
    ghost table: { ℕ → Reading };

    ghost seen: { Self → ℕ → Bool };

    ghost add: { List ℕ → Self → Field → Self };

    ghost blank: { Self };

    fn empty(alloc: Global) -> Self
        ensures { result ≡ blank };

    /// Takes in a field of the body.
    fn put(&mut self, alloc: Global, body: &[u8], field: &Field) -> Result<(), MessageFault>
        requires { LiesWithin 0 (length body.now) field.now }
        ensures { Reads result (wrong_field table seen body.now self.old field.now) (λ _. self.new ≡ add body.now self.old field.now) };
}

/// The message that lies in the body from `from` to `to`.
pub fn read_part<D: Draft>(
    alloc: Global,
    body: &[u8],
    from: usize,
    to: usize,
) -> Result<D, MessageFault>
    requires ordered { from ≤ to }
    requires within { to ≤ length body.now }
    ensures { let p : Part = record { from = from; to = to } in Reads result (part_wrong D.table D.seen D.add D.blank body.now p) (λ x. x ≡ part_value D.add D.blank body.now p) }
{
    let fields = fields_at(alloc, from, &body[from..to])?;
    let mut draft = D::empty(alloc);
    for field in &fields {
        draft.put(alloc, body, field)?;
    }
    Ok(draft)
}
