ghost use Rattle.std.specs.Prelude.{◌≡◌, ◌↔◌, ℕ, List, None};
ghost use Rattle.otp_model.specs.declared.message.Message.{Message};
ghost use Rattle.rt_reader.specs.Faults.{Reads};
ghost use Rattle.rt_reader.specs.Feeds.{message_wrong, message_value};
ghost use Rattle.rt_reader.specs.Spelling.{SpellsMessage};
ghost use Rattle.rt_reader.specs.Tables.{first_fault};

use crate::draft::read_part;
use crate::fault::MessageFault;
use crate::feed::Feed;
use otp_model::Message;
use pb_wire::cut_is_spelling;
use std::alloc::Global;

fn message(alloc: Global, bytes: &[u8]) -> Result<Message, MessageFault>
    ensures { Reads result (message_wrong bytes.now) (λ m. m ≡ message_value bytes.now) }
{
    let feed = read_part::<Feed>(alloc, bytes, 0, bytes.len())?;
    let Feed { header, entities } = feed;
    let Some(header) = header else {
        return Err(MessageFault::NoHeader);
    };
    if header.incrementality == Some(1) {
        return Err(MessageFault::Differential);
    }
    Ok(Message {
        timestamp: header.timestamp,
        entities,
    })
}

/// The message that the bytes spell, or the first fault. Fields that are not read are skipped.
pub fn read_message(alloc: Global, bytes: &[u8]) -> Result<Message, MessageFault>
    // A message is read only where there is no fault, and the bytes spell it; a fault is the first one.
    ensures exact { Reads result (first_fault bytes.now) (SpellsMessage bytes.now) }
    // A message that the bytes spell is read, unless memory runs out.
    ensures only { (m : Message) → SpellsMessage bytes.now m → Reads result None (λ x. x ≡ m) }
{
    cut_is_spelling();
    message(alloc, bytes)
}

/// A law about the definitions: bytes have a first fault exactly where they spell no message, and they
/// spell at most one.
pub fn one_message()
    ensures spelt { (body : List ℕ) → (first_fault body ≡ None) ↔ ((m : Message) × SpellsMessage body m) }
    ensures one { (body : List ℕ) (a b : Message) → SpellsMessage body a → SpellsMessage body b → a ≡ b }
{
    cut_is_spelling();
}
