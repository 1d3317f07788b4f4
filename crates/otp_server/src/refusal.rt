ghost use Rattle.std.specs.Prelude.{◌≡◌, IfOk, string_bytes};
ghost use Rattle.otp_server.specs.Lines.{feed_line, feed_refusal, line_of, message_line, name_of_file, or_dash, request_line, request_refusal, status_of, untaken_detail, untaken_name, untaken_number};

use crate::status::Status;
use otp_base::Memory;
use otp_model::{FeedFault, FeedFile};
use query_form::TargetFault;
use reply_bodies::{cause_name, fault_name, fault_offset};
use rt_reader::MessageFault;
use std::alloc::{AllocError, Global};

/// Why a message was not taken.
#[derive(Debug, Drop)]
pub enum Untaken {
    /// There is no such file.
    Missing,
    /// It has more than 16,777,216 bytes.
    Large,
    /// Its timestamp is below `have`, the last one of its feed.
    Older { have: u64 },
    /// Its bytes spell no message.
    Unread(MessageFault),
}

/// Why a command was not carried out.
#[derive(Debug, Drop)]
pub enum Refusal {
    /// The words are no command.
    Words,
    /// The feed was not read.
    Feed(FeedFault),
    /// The query was not read.
    Request(TargetFault),
    /// The message of the word at this place, counted from 1, was not taken.
    Message { place: usize, why: Untaken },
    /// A read of a message's file failed.
    Read,
    /// Memory ran out.
    Memory,
}

impl From<Memory> for Refusal {
    ghost use Rattle.otp_server.specs.declared.refusal.Refusal.TheVariants as refusal;

    ghost from_gives = { λ _ e. e ≡ refusal.Memory };

    fn from(_error: Memory) -> Refusal {
        Refusal::Memory
    }
}

impl Refusal {
    /// The status that the program ends with.
    pub fn status(&self) -> Status
        ensures { result ≡ status_of self.now }
    {
        match self {
            Refusal::Words => Status::Words,
            Refusal::Feed(FeedFault::At { .. }) => Status::Feed,
            Refusal::Feed(FeedFault::Read) => Status::Read,
            Refusal::Feed(FeedFault::Memory) => Status::Memory,
            Refusal::Request(TargetFault::Memory) => Status::Memory,
            Refusal::Request(_) => Status::Request,
            Refusal::Message { .. } => Status::Message,
            Refusal::Read => Status::Read,
            Refusal::Memory => Status::Memory,
        }
    }

    /// The line that tells it; want of memory is told by the status alone.
    pub fn line(&self, alloc: Global) -> Result<String, Memory>
        ensures { IfOk result (λ line. string_bytes line ≡ line_of self.now) }
    {
        match self {
            Refusal::Words => Ok(String::from_str(alloc, "words\n")?),
            Refusal::Feed(fault) => feed_refusal(alloc, fault),
            Refusal::Request(fault) => request_refusal(alloc, fault),
            Refusal::Message { place, why } => message_refusal(alloc, *place, why),
            Refusal::Read => Ok(String::from_str(alloc, "read\n")?),
            Refusal::Memory => Ok(String::new(alloc)),
        }
    }
}

fn feed_refusal(alloc: Global, fault: &FeedFault) -> Result<String, Memory>
    ensures { IfOk result (λ line. string_bytes line ≡ feed_refusal fault.now) }
{
    match fault {
        FeedFault::At {
            cause,
            file,
            row,
            column,
        } => Ok(feed_line(
            alloc,
            *cause,
            file_name(*file),
            *row,
            or_dash(column.as_str()),
        )?),
        FeedFault::Read => Ok(String::from_str(alloc, "read\n")?),
        FeedFault::Memory => Ok(String::new(alloc)),
    }
}

fn request_refusal(alloc: Global, fault: &TargetFault) -> Result<String, Memory>
    ensures { IfOk result (λ line. string_bytes line ≡ request_refusal fault.now) }
{
    match fault {
        TargetFault::Query { cause, parameter } => Ok(request_line(
            alloc,
            cause_name(*cause),
            parameter.as_str(),
        )?),
        // A query alone has no path, no number of an RT feed and no method.
        TargetFault::Path | TargetFault::FeedNumber | TargetFault::Method | TargetFault::Memory =>
            Ok(String::new(alloc)),
    }
}

fn message_refusal(alloc: Global, place: usize, why: &Untaken) -> Result<String, Memory>
    ensures { IfOk result (λ line. string_bytes line ≡ message_line place (untaken_name why.now) (untaken_detail why.now)) }
{
    match untaken_number(why) {
        Some(number) => {
            Ok(format!(in alloc; "message {place} {} {number}\n", untaken_name(why))?)
        }
        None => Ok(format!(in alloc; "message {place} {} -\n", untaken_name(why))?),
    }
}

/// The number that is told of a message that was not taken: the offset of its fault, or the kept timestamp.
fn untaken_number(why: &Untaken) -> Option<u64>
    ensures { result ≡ untaken_number why.now }
{
    match why {
        Untaken::Missing | Untaken::Large => None,
        Untaken::Older { have } => Some(*have),
        Untaken::Unread(fault) => fault_offset(*fault),
    }
}

fn untaken_name(why: &Untaken) -> &'static str
    ensures { result.now ≡ untaken_name why.now }
{
    match why {
        Untaken::Missing => "missing",
        Untaken::Large => "large",
        Untaken::Older { .. } => "older",
        Untaken::Unread(fault) => fault_name(*fault),
    }
}

fn feed_line(
    alloc: Global,
    cause: u8,
    file: &str,
    row: u64,
    column: &str,
) -> Result<String, AllocError>
    ensures { IfOk result (λ line. string_bytes line ≡ feed_line cause file.now row column.now) }
{
    format!(in alloc; "feed {cause} {file} {row} {column}\n")
}

fn request_line(alloc: Global, cause: &str, parameter: &str) -> Result<String, AllocError>
    ensures { IfOk result (λ line. string_bytes line ≡ request_line cause.now parameter.now) }
{
    format!(in alloc; "request {cause} {parameter}\n")
}

/// The name of a feed's file, by its number.
fn file_name(number: u8) -> &'static str
    ensures { result.now ≡ name_of_file number }
{
    match number {
        1 => FeedFile::Agency.name(),
        2 => FeedFile::Stops.name(),
        3 => FeedFile::Routes.name(),
        4 => FeedFile::Trips.name(),
        5 => FeedFile::StopTimes.name(),
        6 => FeedFile::Calendar.name(),
        7 => FeedFile::CalendarDates.name(),
        8 => FeedFile::Transfers.name(),
        9 => FeedFile::Frequencies.name(),
        _ => "",
    }
}

fn or_dash(column: &str) -> &str
    ensures { result.now ≡ or_dash column.now }
{
    if column.is_empty() { "-" } else { column }
}
