ghost use Rattle.std.specs.Prelude.{◌≡◌, ◌↔◌, ℕ, ◌+◌, ◌<◌, ◌≤◌, ◌^◌, List, length, IfOk, IfErr, Ok, Err};
ghost use Rattle.pb_wire.specs.Wire.{Spells, IsFirstFault, LiesWithin};
ghost use Rattle.std.specs.List.{All};
ghost use Rattle.otp_base.specs.Answers.{Gives, OrMemory};
ghost use Rattle.pb_wire.specs.Cutting.{Is, told_of, varint_at, eight_at, four_at, part_at, value_at, field_at, cut};
ghost use Rattle.pb_wire.specs.declared.field.Field.{Field};
ghost use Rattle.pb_wire.specs.declared.field.WireFault.{WireFault};

use crate::field::{Field, FieldValue, WireFault};
use std::alloc::Global;

/// The varint at the front and the bytes after it, for the field whose tag stands at `at`. Bits above the
/// 64th are dropped.
fn varint(at: usize, bytes: &[u8]) -> Result<(u64, &[u8]), WireFault>
    ensures { Is (λ x. (x.0, x.1.now)) result (varint_at at bytes.now) }
{
    let mut number: u64 = 0;
    let mut place: u64 = 1;
    let mut rest = bytes;
    for _ in 0..10usize {
        let Some((byte, after)) = rest.split_first() else {
            return Err(WireFault::Cut { at });
        };
        let byte = *byte;
        if byte < 128 {
            let last = number.wrapping_add(place.wrapping_mul(u64::from(byte)));
            return Ok((last, after));
        }
        number = number.wrapping_add(place.wrapping_mul(u64::from(byte - 128)));
        place = place.wrapping_mul(128);
        rest = after;
    }
    Err(WireFault::LongVarint { at })
}

#[tactic(auto, unfolding(crate::specs::Cutting::eight_at))]
fn eight(at: usize, bytes: &[u8]) -> Result<(FieldValue, &[u8]), WireFault>
    ensures { Is (λ x. (x.0, x.1.now)) result (eight_at at bytes.now) }
{
    if bytes.len() < 8 {
        return Err(WireFault::Cut { at });
    }
    let (front, rest) = bytes.split_at(8);
    let number = u64::from_le_bytes([
        front[0], front[1], front[2], front[3], front[4], front[5], front[6], front[7],
    ]);
    Ok((FieldValue::Eight(number), rest))
}

#[tactic(auto, unfolding(crate::specs::Cutting::four_at))]
fn four(at: usize, bytes: &[u8]) -> Result<(FieldValue, &[u8]), WireFault>
    ensures { Is (λ x. (x.0, x.1.now)) result (four_at at bytes.now) }
{
    if bytes.len() < 4 {
        return Err(WireFault::Cut { at });
    }
    let (front, rest) = bytes.split_at(4);
    let number = u32::from_le_bytes([front[0], front[1], front[2], front[3]]);
    Ok((FieldValue::Four(number), rest))
}

/// A length and that many bytes; `here` is the offset of the length.
#[tactic(auto, unfolding(crate::specs::Cutting::part_at))]
fn part(at: usize, here: usize, bytes: &[u8]) -> Result<(FieldValue, &[u8]), WireFault>
    requires { here + length bytes.now < 2 ^ 64 }
    ensures { Is (λ x. (x.0, x.1.now)) result (part_at at here bytes.now) }
{
    let (len, rest) = varint(at, bytes)?;
    if (rest.len() as u64) < len {
        return Err(WireFault::Cut { at });
    }
    let len = len as usize;
    let from = here + (bytes.len() - rest.len());
    let to = from + len;
    Ok((FieldValue::Bytes { from, to }, &rest[len..]))
}

#[tactic(auto, unfolding(crate::specs::Cutting::value_at))]
fn value(kind: u64, at: usize, here: usize, bytes: &[u8]) -> Result<(FieldValue, &[u8]), WireFault>
    requires { here + length bytes.now < 2 ^ 64 }
    ensures { Is (λ x. (x.0, x.1.now)) result (value_at kind at here bytes.now) }
{
    if kind == 0 {
        let (number, rest) = varint(at, bytes)?;
        return Ok((FieldValue::Varint(number), rest));
    }
    if kind == 1 {
        return eight(at, bytes);
    }
    if kind == 2 {
        return part(at, here, bytes);
    }
    if kind == 5 {
        return four(at, bytes);
    }
    Err(WireFault::Group { at })
}

/// The field at the front of bytes that stand at the offset `at`, and the bytes after it.
#[tactic(auto, unfolding(crate::specs::Cutting::field_at))]
fn field(at: usize, bytes: &[u8]) -> Result<(Field, &[u8]), WireFault>
    requires { at + length bytes.now < 2 ^ 64 }
    ensures { Is (λ x. (x.0, x.1.now)) result (field_at at bytes.now) }
{
    let (key, rest) = varint(at, bytes)?;
    let number = key / 8;
    if number == 0 {
        return Err(WireFault::ZeroField { at });
    }
    let here = at + (bytes.len() - rest.len());
    let (value, rest) = value(key % 8, at, here, rest)?;
    Ok((Field { number, at, value }, rest))
}

fn all(alloc: Global, at: usize, bytes: &[u8]) -> Result<Vec<Field>, WireFault>
    requires { at + length bytes.now < 2 ^ 64 }
    ensures { Gives (λ v. v.items) told_of result (cut at bytes.now) }
{
    let mut found = Vec::new(alloc);
    let mut rest = bytes;
    while !rest.is_empty() {
        let here = at + (bytes.len() - rest.len());
        let (field, after) = field(here, rest)?;
        found.push(field)?;
        rest = after;
    }
    Ok(found)
}

/// The fields of bytes that stand at the offset `at` of a whole: all offsets are those in the whole.
pub fn fields_at(alloc: Global, at: usize, bytes: &[u8]) -> Result<Vec<Field>, WireFault>
    requires { at + length bytes.now < 2 ^ 64 }
    // What is found spells the bytes.
    ensures found { IfOk result (λ v. Spells at v.items bytes.now) }
    // What spells the bytes is found, unless memory runs out.
    ensures only { (fs : List Field) → Spells at fs bytes.now → Gives (λ v. v.items) told_of result (Ok fs) }
    // A fault is the first one.
    ensures fault { IfErr result (OrMemory told_of (IsFirstFault at bytes.now)) }
    // The first fault is answered, unless memory runs out.
    ensures first { (e : WireFault) → IsFirstFault at bytes.now e → Gives (λ v. v.items) told_of result (Err e) }
    // Ranges lie within the bytes.
    ensures within { IfOk result (λ v. All (LiesWithin at (at + length bytes.now)) v.items) }
    // The same by the function that cuts lists.
    ensures exact { Gives (λ v. v.items) told_of result (cut at bytes.now) }
{
    all(alloc, at, bytes)
}

/// The fields that spell the bytes, or the first fault.
pub fn fields(alloc: Global, bytes: &[u8]) -> Result<Vec<Field>, WireFault>
    // What is found spells the bytes.
    ensures found { IfOk result (λ v. Spells 0 v.items bytes.now) }
    // What spells the bytes is found, unless memory runs out.
    ensures only { (fs : List Field) → Spells 0 fs bytes.now → Gives (λ v. v.items) told_of result (Ok fs) }
    // A fault is the first one.
    ensures fault { IfErr result (OrMemory told_of (IsFirstFault 0 bytes.now)) }
    // The first fault is answered, unless memory runs out.
    ensures first { (e : WireFault) → IsFirstFault 0 bytes.now e → Gives (λ v. v.items) told_of result (Err e) }
{
    fields_at(alloc, 0, bytes)
}

/// A law about the definitions: cutting a list of bytes gives exactly the fields that spell it, and else
/// exactly its first fault. So bytes are spelt by at most one list of fields, and have a fault exactly
/// where they are spelt by none.
pub fn cut_is_spelling()
    ensures found { (at : ℕ) (bytes : List ℕ) (fs : List Field) → (cut at bytes ≡ Ok fs) ↔ Spells at fs bytes }
    ensures fault { (at : ℕ) (bytes : List ℕ) (e : WireFault) → (cut at bytes ≡ Err e) ↔ IsFirstFault at bytes e }
{}
