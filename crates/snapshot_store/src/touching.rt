ghost use Rattle.std.specs.Prelude.{◌≡◌};
ghost use Rattle.std.specs.List.{list_any};
ghost use Rattle.otp_model.specs.Patterns.{is_changed as has_changed_name};
ghost use Rattle.trip_patterns.specs.FirstFit.{rows_of};
ghost use Rattle.snapshot_store.specs.Changing.{is_opened};

use crate::changed::Changed;
use otp_model::Run;
use trip_patterns::Lane;

/// Whether a block is made anew: some run is put into it, or a row has a changed name.
pub fn is_opened(changes: &Changed<'_>, own: &[Run], lanes: &[Lane]) -> bool
    ensures { result ≡ is_opened changes.now own.now lanes.now }
{
    own.len() != 0 || has_changed_row(lanes, changes)
}

fn has_changed_row(lanes: &[Lane], changes: &Changed<'_>) -> bool
    ensures { result ≡ list_any (has_changed_name changes.now) (rows_of lanes.now) }
{
    for lane in lanes {
        if is_changed_in(lane, changes) {
            return true;
        }
    }
    false
}

fn is_changed_in(lane: &Lane, changes: &Changed<'_>) -> bool
    ensures { result ≡ list_any (has_changed_name changes.now) lane.now.runs }
{
    for row in 0..lane.rows() {
        if changes.has(lane.name(row)) {
            return true;
        }
    }
    false
}
