//! Runs of one pattern and day, kept in lanes: in no column of a lane does a later row stand before an earlier one, so that
//! the first row which is still to depart is as good as any later one.
#![tactic(auto)]

mod blocks;
mod builder;
mod columns;
mod first_fit;
mod fitting;
mod lane;
mod least;
mod row;
mod shape;
mod span;
mod spot;
mod timetable;

pub use blocks::{are_of_one_block, is_of_block};
pub use builder::LaneBuilder;
pub use first_fit::lanes_of;
pub use lane::Lane;
pub use shape::{Shape, fits_its_shape};
pub use span::{Span, span_of};
pub use spot::Spot;
pub use timetable::{BlockStop, Timetable};
