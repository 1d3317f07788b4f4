ghost use Rattle.std.specs.Prelude.{◌≡◌, ◌≢◌, ◌≤◌, ◌<◌, ◌^◌, ◌≤ℤ◌, [], pos, neg_ℤ, Some, IfOk, IfSome};
ghost use Rattle.otp_base.specs.Answers.{Gives};
ghost use Rattle.otp_model.specs.Clock.{clock_of};
ghost use Rattle.otp_model.specs.Limits.{clock_end};
ghost use Rattle.gtfs_records.specs.Faults.{told_fault};
ghost use Rattle.gtfs_records.specs.Fields.{any_of, choice_of, clock_or_none_of, code_of, coordinate_of, count_of, count_or_none_of, filled_of, headway_of};
ghost use Rattle.gtfs_records.specs.Table.{accepted, cells, read_of, text_at};

use crate::fault::{Fault, TableFault};
use crate::fields;
use crate::row_cells::RowCells;
use otp_base::Text;
use otp_model::{FeedCause, parse_clock};
use std::alloc::Global;

impl RowCells {
    /// A fault of this cause at a column of the record.
    fn fault(&self, cause: FeedCause, column: usize) -> TableFault
        ensures { result ≡ TableFault.Fault (record { cause = cause; row = self.now.row; column = column }) }
    {
        TableFault::Fault(Fault {
            cause,
            row: self.row,
            column,
        })
    }

    /// What a reader read in the cell of a column, if it accepted it.
    pub fn accepted<X>(&self, column: usize, read: Option<X>) -> Result<X, TableFault>
        ensures value { Gives (λ x. x) told_fault result (accepted self.now.row column read) }
        ensures same { IfOk result (λ x. read ≡ Some x) }
    {
        match read {
            Some(value) => Ok(value),
            None => Err(self.fault(FeedCause::BadField, column)),
        }
    }

    /// The cell of a column as text.
    pub fn text(&self, column: usize) -> Result<&str, TableFault>
        ensures { Gives (λ text. text.now) told_fault result (text_at self.now.row (cells self.now) column) }
    {
        match str::from_utf8(self.cell(column)) {
            Ok(text) => Ok(text),
            Err(_) => Err(self.fault(FeedCause::NotUtf8, column)),
        }
    }

    /// Some text.
    pub fn filled(&self, alloc: Global, column: usize) -> Result<Text, TableFault>
        ensures text { Gives (λ x. x) told_fault result (read_of filled_of self.now column) }
        ensures some { IfOk result (λ text. text ≢ []) }
    {
        let text = self.text(column)?;
        if text.is_empty() {
            return Err(self.fault(FeedCause::BadField, column));
        }
        Ok(Text::from_str(alloc, text)?)
    }

    /// Any text.
    pub fn any(&self, alloc: Global, column: usize) -> Result<Text, TableFault>
        ensures { Gives (λ x. x) told_fault result (read_of any_of self.now column) }
    {
        Ok(Text::from_str(alloc, self.text(column)?)?)
    }

    /// A time of day.
    pub fn clock(&self, column: usize) -> Result<u32, TableFault>
        ensures time { Gives (λ x. x) told_fault result (read_of clock_of self.now column) }
        ensures small { IfOk result (λ seconds. seconds < clock_end) }
    {
        self.accepted(column, parse_clock(self.text(column)?.as_bytes()))
    }

    /// A time of day, or none.
    pub fn clock_or_none(&self, column: usize) -> Result<Option<u32>, TableFault>
        ensures time { Gives (λ x. x) told_fault result (read_of clock_or_none_of self.now column) }
        ensures small { IfOk result (λ time. IfSome time (λ seconds. seconds < clock_end)) }
    {
        self.accepted(column, fields::clock_or_none(self.text(column)?.as_bytes()))
    }

    /// A number of 1 to 9 digits.
    pub fn count(&self, column: usize) -> Result<u32, TableFault>
        ensures count { Gives (λ x. x) told_fault result (read_of count_of self.now column) }
        ensures small { IfOk result (λ n. n < 10 ^ 9) }
    {
        self.accepted(column, fields::count(self.text(column)?.as_bytes()))
    }

    /// A number of 1 to 9 digits; empty is 0.
    pub fn count_or_none(&self, column: usize) -> Result<u32, TableFault>
        ensures count { Gives (λ x. x) told_fault result (read_of count_or_none_of self.now column) }
        ensures small { IfOk result (λ n. n < 10 ^ 9) }
    {
        self.accepted(column, fields::count_or_none(self.text(column)?.as_bytes()))
    }

    /// A number of seconds of 1 to 6 digits, at least 1.
    pub fn headway(&self, column: usize) -> Result<u32, TableFault>
        ensures seconds { Gives (λ x. x) told_fault result (read_of headway_of self.now column) }
        ensures range { IfOk result (λ n. (1 ≤ n) × (n < 10 ^ 6)) }
    {
        self.accepted(column, fields::headway(self.text(column)?.as_bytes()))
    }

    /// A digit up to `highest`; empty is 0.
    pub fn choice(&self, highest: u8, column: usize) -> Result<u32, TableFault>
        requires { highest ≤ 9 }
        ensures code { Gives (λ x. x) told_fault result (read_of (choice_of highest) self.now column) }
        ensures small { IfOk result (λ n. n ≤ highest) }
    {
        self.accepted(
            column,
            fields::choice(highest, self.text(column)?.as_bytes()),
        )
    }

    /// A digit from `lowest` to `highest`.
    pub fn code(&self, lowest: u8, highest: u8, column: usize) -> Result<u32, TableFault>
        requires { highest ≤ 9 }
        ensures code { Gives (λ x. x) told_fault result (read_of (code_of lowest highest) self.now column) }
        ensures small { IfOk result (λ n. (lowest ≤ n) × (n ≤ highest)) }
    {
        self.accepted(
            column,
            fields::code(lowest, highest, self.text(column)?.as_bytes()),
        )
    }

    /// A coordinate up to `limit` millionths either way, by the cell of the location type.
    pub fn degrees(&self, limit: u32, location: usize, column: usize) -> Result<i64, TableFault>
        ensures place { Gives (λ x. x) told_fault result (read_of (coordinate_of limit (cells self.now location)) self.now column) }
        ensures within { IfOk result (λ z. (neg_ℤ (pos limit) ≤ℤ z) × (z ≤ℤ pos limit)) }
    {
        let text = self.text(column)?;
        self.accepted(
            column,
            fields::coordinate(limit, self.cell(location), text.as_bytes()),
        )
    }
}
