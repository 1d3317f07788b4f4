ghost use Rattle.std.specs.Prelude.{◌≡◌, ℕ, Bool, List, length, option_map, is_some, unwrap_or, Some};
ghost use Rattle.pb_wire.specs.Wire.{LiesWithin};
ghost use Rattle.rt_reader.specs.Faults.{Reads};
ghost use Rattle.rt_reader.specs.Fields.{bytes_in, number_of, part_of, later, not_zero, wrong_number, wrong_words, wrong_one, wrong_many};
ghost use Rattle.rt_reader.specs.Walk.{part_wrong, part_value};
ghost use Rattle.rt_reader.specs.Events.{signed};

use crate::draft::{Draft, read_part};
use crate::fault::MessageFault;
use otp_base::Text;
use pb_wire::{Field, FieldValue};
use std::alloc::Global;

/// The number of a varint.
pub fn number(field: &Field) -> Result<u64, MessageFault>
    ensures { Reads result (wrong_number field.now.at field.now.value) (λ n. number_of field.now.value ≡ Some n) }
{
    match field.value {
        FieldValue::Varint(number) => Ok(number),
        _ => Err(MessageFault::WrongType { at: field.at }),
    }
}

/// The text of a field.
pub fn text(alloc: Global, body: &[u8], field: &Field) -> Result<Text, MessageFault>
    requires { LiesWithin 0 (length body.now) field.now }
    ensures { Reads result (wrong_words body.now field.now.at field.now.value) (λ t. option_map (bytes_in body.now) (part_of field.now.value) ≡ Some t) }
{
    let at = field.at;
    let FieldValue::Bytes { from, to } = field.value else {
        return Err(MessageFault::WrongType { at });
    };
    match str::from_utf8(&body[from..to]) {
        Ok(text) => Ok(Text::from_str(alloc, text)?),
        Err(_) => Err(MessageFault::NotText { at }),
    }
}

/// The message of a field that stands at most once; `again` says that it was seen before.
pub fn only_part<D: Draft>(
    alloc: Global,
    body: &[u8],
    field: &Field,
    again: bool,
) -> Result<D, MessageFault>
    requires { LiesWithin 0 (length body.now) field.now }
    ensures { Reads result (wrong_one (part_wrong D.table D.seen D.add D.blank) body.now again field.now.at field.now.value) (λ x. option_map (part_value D.add D.blank body.now) (part_of field.now.value) ≡ Some x) }
{
    let at = field.at;
    let FieldValue::Bytes { from, to } = field.value else {
        return Err(MessageFault::WrongType { at });
    };
    if again {
        return Err(MessageFault::Repeated { at });
    }
    read_part::<D>(alloc, body, from, to)
}

/// The message of a field that may stand many times.
pub fn next_part<D: Draft>(alloc: Global, body: &[u8], field: &Field) -> Result<D, MessageFault>
    requires { LiesWithin 0 (length body.now) field.now }
    ensures { Reads result (wrong_many (part_wrong D.table D.seen D.add D.blank) body.now field.now.at field.now.value) (λ x. option_map (part_value D.add D.blank body.now) (part_of field.now.value) ≡ Some x) }
{
    let FieldValue::Bytes { from, to } = field.value else {
        return Err(MessageFault::WrongType { at: field.at });
    };
    read_part::<D>(alloc, body, from, to)
}
