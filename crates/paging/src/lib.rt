//! Pages of a whole list of journeys: the slice above a value, and the texts of cursors, which say where
//! a page ended.
#![tactic(auto)]

mod cursor;
mod slice;

pub use cursor::{cursor_text, fits_text, read_cursor};
pub use slice::page;
