ghost use Rattle.std.specs.Prelude.{◌≡◌, ℕ, List, Bool, ◌↔◌, ◌<◌, ◌^◌, ◌++◌, length, map, slice_index, IfOk, IsTrue, OnOk};
ghost use Rattle.std.specs.List.{All, Contains, filter};
ghost use Rattle.std.specs.List.Sorted.{IsStrictlyIncreasing};
ghost use Rattle.jiff_core.specs.Calendar.{IsEpochDay, weekday_number};
ghost use Rattle.jiff_core.specs.Weekday.{monday_zero};
ghost use Rattle.otp_model.specs.Rows.{AreTables};
ghost use Rattle.otp_model.specs.Services.{services_of};
ghost use Rattle.otp_model.specs.Sights.{first_sights};
ghost use Rattle.otp_model.specs.declared.tables.CalendarRow.{CalendarRow};
ghost use Rattle.otp_model.specs.declared.tables.DateRow.{DateRow};
ghost use Rattle.service_days.specs.Active.{NumbersActive, active_services, excepts, is_active, passing, runs_by, schedules, schedules_by, weekday_flags};

use jiff_core::civil::{Date, Weekday};
use name_index::Names;
use otp_base::{List, Memory};
use otp_model::{CalendarRow, DateRow, DayNo, Tables};
use std::alloc::Global;
use std::marker::Model;

/// The `exception_type` of a row that adds a service.
const ADDED: u32 = 1;

/// The `exception_type` of a row that removes a service.
const REMOVED: u32 = 2;

/// The row's flag of a weekday.
fn flag(row: &CalendarRow, weekday: Weekday) -> u32
    ensures { result ≡ slice_index (weekday_flags row.now) (monday_zero weekday) }
{
    match weekday {
        Weekday::Monday => row.monday,
        Weekday::Tuesday => row.tuesday,
        Weekday::Wednesday => row.wednesday,
        Weekday::Thursday => row.thursday,
        Weekday::Friday => row.friday,
        Weekday::Saturday => row.saturday,
        Weekday::Sunday => row.sunday,
    }
}

/// A row that names a service.
trait ServiceRow {
    ghost service_of: { Self → List ℕ };

    fn service(&self) -> &str
        ensures { result.now ≡ service_of self.now };
}

impl ServiceRow for CalendarRow {
    ghost service_of = { λ row. row.service_id };

    fn service(&self) -> &str {
        self.service_id.as_str()
    }
}

impl ServiceRow for DateRow {
    ghost service_of = { λ row. row.service_id };

    fn service(&self) -> &str {
        self.service_id.as_str()
    }
}

/// A rule that picks rows of a file.
trait Rule {
    type Row: ServiceRow;

    ghost picks: { Self → Self.Row → Bool };

    fn picks(&self, row: &Self::Row) -> bool
        ensures { result ≡ picks self.now row.now };
}

/// The rows of `calendar.txt` that schedule their service on a day, which has this weekday.
#[derive(Clone, Copy)]
struct SchedulesOn {
    day: DayNo,
    weekday: Weekday,
}

impl Rule for SchedulesOn {
    type Row = CalendarRow;

    ghost picks = { λ rule row. schedules_by (monday_zero rule.weekday) rule.day row };

    fn picks(&self, row: &CalendarRow) -> bool {
        flag(row, self.weekday) == 1 && row.start_date <= self.day && self.day <= row.end_date
    }
}

/// The rows of `calendar_dates.txt` that except a service on a day, by their `exception_type`.
#[derive(Clone, Copy)]
struct ExceptsOn {
    kind: u32,
    day: DayNo,
}

impl Rule for ExceptsOn {
    type Row = DateRow;

    ghost picks = { λ rule row. excepts rule.kind rule.day row };

    fn picks(&self, row: &DateRow) -> bool {
        row.date == self.day && row.exception_type == self.kind
    }
}

fn weekday_of(day: DayNo) -> Weekday
    requires { IsEpochDay day }
    ensures { monday_zero result ≡ weekday_number day }
{
    Date::from_unix_epoch_day(i64::from(day)).unwrap().weekday()
}

/// The services of the rows that a rule picks.
#[tactic(auto, using(name_index::proofs::SightFacts::starts_noting), unfolding(name_index::proofs::SightFacts::noted_all))]
fn picked<'a, R: Rule>(alloc: Global, rule: &R, rows: &'a [R::Row]) -> Result<Names<'a>, Memory>
    ensures { IfOk result (λ names. names ≡ first_sights (map R.Row.service_of (filter (R.picks rule.now) rows.now))) }
{
    let mut names = Names::new(alloc);
    let mut left = rows;
    while let [row, rest @ ..] = left {
        if rule.picks(row) {
            names.note(row.service())?;
        }
        left = rest;
    }
    Ok(names)
}

/// The services that rows of `calendar.txt` schedule on the day.
fn scheduled<'a>(alloc: Global, rows: &'a [CalendarRow], day: DayNo) -> Result<Names<'a>, Memory>
    requires { IsEpochDay day }
    ensures { IfOk result (λ names. names ≡ first_sights (map (λ (row : CalendarRow). row.service_id) (filter (schedules day) rows.now))) }
{
    let weekday = weekday_of(day);
    let rule = SchedulesOn { day, weekday };
    picked(alloc, &rule, rows)
}

/// The services that rows of `calendar_dates.txt` with this `exception_type` name on the day.
fn excepted<'a>(
    alloc: Global,
    rows: &'a [DateRow],
    kind: u32,
    day: DayNo,
) -> Result<Names<'a>, Memory>
    ensures { IfOk result (λ names. names ≡ first_sights (map (λ (row : DateRow). row.service_id) (filter (excepts kind day) rows.now))) }
{
    let rule = ExceptsOn { kind, day };
    picked(alloc, &rule, rows)
}

/// Notes the services of a file's rows.
fn note_services<'a, R: ServiceRow>(names: &mut Names<'a>, rows: &'a [R]) -> Result<(), Memory>
    ensures { OnOk result ((seen : List (List ℕ)) → names.old ≡ first_sights seen
        → names.new ≡ first_sights (seen ++ map R.service_of rows.now)) }
{
    let mut left = rows;
    while let [row, rest @ ..] = left {
        names.note(row.service())?;
        left = rest;
    }
    Ok(())
}

/// Whether a service runs on a day that has these services added, removed and scheduled.
fn runs(added: &Names, removed: &Names, scheduled: &Names, id: &str) -> bool
    ensures { result ≡ runs_by added.now removed.now scheduled.now id.now }
{
    added.has(id) || scheduled.has(id) && !removed.has(id)
}

/// The numbers of the services that run on such a day.
fn numbers(
    alloc: Global,
    services: &Names,
    added: &Names,
    removed: &Names,
    scheduled: &Names,
) -> Result<List<u32>, Memory>
    requires { length services.now < 2 ^ 32 }
    ensures { IfOk result (λ numbers. numbers ≡ passing (runs_by added.now removed.now scheduled.now) services.now) }
{
    let count = services.len();
    let mut numbers = List::new(alloc);
    for number in 0..count {
        let Some(id) = services.get(number) else {
            return Ok(numbers);
        };
        if runs(added, removed, scheduled, id) {
            numbers.push(number as u32)?;
        }
    }
    Ok(numbers)
}

/// The services of a feed by number, to be asked for day after day.
#[derive(Drop)]
pub struct Services<'a> {
    tables: &'a Tables,
    names: Names<'a>,
}

impl<'a> Model for Services<'a> {
    ghost use Rattle.std.specs.Prelude.{◌≡◌};
    ghost use Rattle.otp_model.specs.Rows.{AreTables};
    ghost use Rattle.otp_model.specs.Services.{services_of};
    ghost use Rattle.otp_model.specs.declared.tables.Tables.{Tables};

    ghost Value = { Tables };

    ghost view = { λ services. services.tables.now };

    ghost invariant = { λ services. AreTables services.tables.now × (services.names ≡ services_of services.tables.now) };
}

impl<'a> Services<'a> {
    /// The services of `calendar.txt` and then those of `calendar_dates.txt`.
    pub fn of(alloc: Global, tables: &'a Tables) -> Result<Services<'a>, Memory>
        requires { AreTables tables.now }
        ensures { IfOk result (λ services. services ≡ tables.now) }
    {
        let mut names = Names::new(alloc);
        note_services(&mut names, tables.calendars.as_slice())?;
        note_services(&mut names, tables.dates.as_slice())?;
        Ok(Services { tables, names })
    }

    /// The services that run on a day, by number and rising: those that `calendar_dates.txt` adds on it, and those
    /// that `calendar.txt` schedules on it by their weekday and their dates, without those that
    /// `calendar_dates.txt` removes.
    pub fn on(&self, alloc: Global, day: DayNo) -> Result<List<u32>, Memory>
        requires { IsEpochDay day }
        ensures whole { IfOk result (λ numbers. numbers ≡ active_services self.now day) }
        ensures member { IfOk result (λ numbers. (n : ℕ) → Contains numbers n ↔ IsTrue (is_active self.now day n)) }
        ensures named { IfOk result (λ numbers. (n : ℕ) → Contains numbers n ↔ NumbersActive self.now day n) }
        ensures rises { IfOk result IsStrictlyIncreasing }
        ensures below { IfOk result (λ numbers. All (λ n. n < length (services_of self.now)) numbers) }
    {
        let dates = self.tables.dates.as_slice();
        let added = excepted(alloc, dates, ADDED, day)?;
        let removed = excepted(alloc, dates, REMOVED, day)?;
        let scheduled = scheduled(alloc, self.tables.calendars.as_slice(), day)?;
        numbers(alloc, &self.names, &added, &removed, &scheduled)
    }
}

/// The services that run on one day, as `Services::on` gives them.
pub fn active(alloc: Global, tables: &Tables, day: DayNo) -> Result<List<u32>, Memory>
    requires tables { AreTables tables.now }
    requires day { IsEpochDay day }
    ensures whole { IfOk result (λ numbers. numbers ≡ active_services tables.now day) }
    ensures member { IfOk result (λ numbers. (n : ℕ) → Contains numbers n ↔ IsTrue (is_active tables.now day n)) }
    ensures named { IfOk result (λ numbers. (n : ℕ) → Contains numbers n ↔ NumbersActive tables.now day n) }
    ensures rises { IfOk result IsStrictlyIncreasing }
    ensures below { IfOk result (λ numbers. All (λ n. n < length (services_of tables.now)) numbers) }
{
    let services = Services::of(alloc, tables)?;
    services.on(alloc, day)
}
