ghost use Rattle.gtfs_tables.specs.Rows.{frequency_kind};
ghost use Rattle.otp_model.specs.Rows.{IsFrequencyRow};

use crate::table::TableRow;
use gtfs_records::{RowCells, TableFault};
use otp_model::{FeedFile, FrequencyRow};
use std::alloc::Global;

/// The records of `frequencies.txt`.
impl TableRow for FrequencyRow {
    ghost kind = { frequency_kind };

    ghost is_read = { IsFrequencyRow };

    fn file() -> FeedFile {
        FeedFile::Frequencies
    }

    fn columns() -> &'static [&'static str] {
        &[
            "trip_id",
            "start_time",
            "end_time",
            "headway_secs",
            "exact_times",
        ]
    }

    fn needed_columns() -> usize {
        4
    }

    #[tactic(auto, unfolding(crate::specs::Rows::frequency_at))]
    fn read(alloc: Global, cells: &RowCells) -> Result<FrequencyRow, TableFault> {
        let trip_id = cells.filled(alloc, 0)?;
        let start_time = cells.clock(1)?;
        let end_time = cells.clock(2)?;
        let headway_secs = cells.headway(3)?;
        let exact_times = cells.choice(1, 4)?;
        Ok(FrequencyRow {
            trip_id,
            start_time,
            end_time,
            headway_secs,
            exact_times,
        })
    }
}
