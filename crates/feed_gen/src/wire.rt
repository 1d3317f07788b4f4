//! The wire format of Protocol Buffers.
ghost use Rattle.std.specs.Prelude.{◌≡◌, ◌<◌, ◌++◌, IfOk, OnOk};
ghost use Rattle.feed_gen.specs.Wire.{bytes_field, number_field, varint};

use otp_base::Memory;
use std::alloc::Global;

/// A field that is a number.
pub fn number_field(alloc: Global, field: u8, number: u64) -> Result<Vec<u8>, Memory>
    requires { field < 16 }
    ensures { IfOk result (λ bytes. bytes.items ≡ number_field field number) }
{
    let mut bytes = Vec::new(alloc);
    bytes.push(8 * field)?;
    push_varint(&mut bytes, number)?;
    Ok(bytes)
}

/// A field that is text, bytes or a message.
pub fn bytes_field(alloc: Global, field: u8, content: &[u8]) -> Result<Vec<u8>, Memory>
    requires { field < 16 }
    ensures { IfOk result (λ bytes. bytes.items ≡ bytes_field field content.now) }
{
    let mut bytes = Vec::new(alloc);
    bytes.push(8 * field + 2)?;
    push_varint(&mut bytes, content.len() as u64)?;
    bytes.extend_from_slice(content)?;
    Ok(bytes)
}

/// Two lists of bytes, one behind the other.
pub fn in_order(alloc: Global, front: &[u8], back: &[u8]) -> Result<Vec<u8>, Memory>
    ensures { IfOk result (λ bytes. bytes.items ≡ front.now ++ back.now) }
{
    let mut bytes = Vec::from_slice(alloc, front)?;
    bytes.extend_from_slice(back)?;
    Ok(bytes)
}

/// Adds the shortest varint of a number.
#[tactic(auto, unfolding(crate::specs::Wire::varint_in))]
fn push_varint(bytes: &mut Vec<u8>, number: u64) -> Result<(), Memory>
    ensures { OnOk result (bytes.new.items ≡ bytes.old.items ++ varint number) }
{
    let mut left = number;
    while left >= 128 {
        bytes.push((left % 128 + 128) as u8)?;
        left /= 128;
    }
    bytes.push(left as u8)?;
    Ok(())
}
