ghost use Rattle.std.specs.Prelude.{◌≡◌};
ghost use Rattle.otp_model.specs.Sights.{has_name};
ghost use Rattle.gtfs_links.specs.Rules.{transfer_rule, transfer_wrong};

use super::rows::Rule;
use super::stops::is_unknown;
use super::wrong::{Column, Wrong};
use name_index::Names;
use otp_model::TransferLine;

/// Each stop that a transfer names is to be there.
#[derive(Drop)]
pub struct TransferRule<'a> {
    pub stops: &'a Names<'a>,
}

impl<'a> Rule for TransferRule<'a> {
    type Row = TransferLine;

    ghost rule = { λ it. transfer_rule (has_name it.stops.now) };

    ghost knows = { λ it rows. Unit {0} };

    fn judge(&self, rows: &[TransferLine], place: usize) -> Option<Wrong> {
        wrong_transfer(self.stops, &rows[place])
    }
}

fn wrong_transfer(stops: &Names, row: &TransferLine) -> Option<Wrong>
    ensures { result ≡ transfer_wrong (has_name stops.now) row.now }
{
    if is_unknown(stops, &row.from_stop_id) {
        return Some(Wrong::unknown(Column::FromStopId));
    }
    if is_unknown(stops, &row.to_stop_id) {
        return Some(Wrong::unknown(Column::ToStopId));
    }
    None
}
