//! The wire format of Protocol Buffers (Encoding, "Message Structure"): bytes cut into fields, or the first
//! fault with its offset.
#![tactic(auto)]

mod field;
mod reading;

pub use field::{Field, FieldValue, WireFault};
pub use reading::{cut_is_spelling, fields, fields_at};
