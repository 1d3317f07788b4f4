ghost use Rattle.std.specs.Prelude.{◌≡◌, ◌↔◌, Err, IfOk, IsOk, IsSome, None};
ghost use Rattle.jiff.specs.Placed.{IsPosixZone};
ghost use Rattle.jiff.specs.ZoneView.{plain_zone};
ghost use Rattle.jiff_tz.specs.PosixReader.{read_whole};

use jiff::tz::TimeZone;
use otp_model::Zone;

/// Why a text gave no zone.
#[derive(Clone, Copy, Debug, PartialEq, Eq)]
pub enum ZoneFault {
    /// The text is no rule.
    BadZone,
    /// Memory ran out.
    Memory,
}

/// The zone of a rule as `CET-1CEST,M3.5.0,M10.5.0/3` (POSIX.1, "TZ", with the times of RFC 9636, from -167
/// to 167 hours). It answers `BadZone` exactly where the text is no such rule; it takes no memory.
pub fn zone_of(rule: &str) -> Result<Zone, ZoneFault>
    ensures accepts { IsOk result ↔ IsSome (read_whole rule.now) }
    ensures zone { IfOk result (λ zone. IsPosixZone rule.now (plain_zone zone.rule)) }
    ensures refuses { (result ≡ Err ZoneFault.BadZone) ↔ (read_whole rule.now ≡ None) }
{
    match TimeZone::posix(rule) {
        Ok(rule) => Ok(Zone { rule }),
        Err(_) => Err(ZoneFault::BadZone),
    }
}
