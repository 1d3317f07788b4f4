ghost use Rattle.gtfs_tables.specs.Rows.{agency_kind};
ghost use Rattle.otp_model.specs.Rows.{IsAgencyRow};

use crate::table::TableRow;
use gtfs_records::{RowCells, TableFault};
use otp_model::{AgencyRow, FeedFile};
use std::alloc::Global;

/// The records of `agency.txt`.
impl TableRow for AgencyRow {
    ghost kind = { agency_kind };

    ghost is_read = { IsAgencyRow };

    fn file() -> FeedFile {
        FeedFile::Agency
    }

    fn columns() -> &'static [&'static str] {
        &["agency_timezone"]
    }

    fn needed_columns() -> usize {
        1
    }

    #[tactic(auto, unfolding(crate::specs::Rows::agency_at))]
    fn read(alloc: Global, cells: &RowCells) -> Result<AgencyRow, TableFault> {
        let agency_timezone = cells.filled(alloc, 0)?;
        Ok(AgencyRow { agency_timezone })
    }
}
