//! A feed whose records name one another (GTFS Schedule reference): ids become numbers in row order.
//!
//! `link` looks for a key that stands twice, a reference to a record that isn't there and an agency of
//! another time zone, and gives the first such fault over the files. Where there is none it gives the stops,
//! the trips kept, their calls, the transfers and the headways, all by number.
//!
//! # Choices
//!
//! Each id is looked up once: `numbers` has what the rows of the long files name, and both phases, `check` and
//! `linking`, go by it. Rows of a trip stand together in most feeds, so a row's trip is looked up only where
//! the row before has another. And where the sequences of each trip rise from row to row, as they mostly do,
//! no two calls are the same, and no set of keys is made.
#![tactic(auto)]

mod check;
mod feed;
mod identified;
mod indexes;
mod linking;
mod numbers;

pub use feed::{HeadwayRow, Linked, link};
pub use otp_model::{TimeRow, TransferRow};
