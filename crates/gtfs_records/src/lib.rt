//! A feed's files as records of text: comma-separated records under a header (GTFS Schedule reference,
//! "File Requirements"; RFC 4180), where the columns stand in it, and the cells of a record through the
//! reader of each kind of field ("Field Types").
//!
//! `Records` gives the records of a file's bytes one after the other, `column_of` finds a column in the
//! header, and `RowCells`, a record with the places of its columns, reads its cells. Every fault names its
//! cause, its row and its column.
#![tactic(auto)]

mod cells;
mod fault;
mod fields;
mod header;
mod records;
mod row_cells;

pub use fault::{Fault, TableFault};
pub use fields::degrees;
pub use header::column_of;
pub use records::Records;
pub use row_cells::RowCells;
