ghost use Rattle.std.specs.Prelude.{◌≡◌, IfOk, IfSome};
ghost use Rattle.std.specs.List.{All};
ghost use Rattle.otp_model.specs.Laws.{cursor_behind};
ghost use Rattle.paging.specs.Text.{FitsText};
ghost use Rattle.serde_json.specs.View.{view};
ghost use Rattle.plan_json.specs.Body.{IsBodyOf, body_data, body_text};
ghost use Rattle.plan_json.specs.Plan.{IsFoundOf, cursor_data, is_moved, journeys_data, page_data, plan_object};
ghost use Rattle.plan_json.specs.Replies.{number_or_null};

use crate::journeys::journey_value;
use crate::replies::{
    committed_value, kept_value, offset_value, parameter_value, refused_value, status_value,
    updated_value,
};
use otp_base::{List, Memory, Text};
use otp_model::{Cursor, Feed, Found, Page};
use paging::cursor_text;
use serde_json::{Value, json};
use std::alloc::{AllocError, Global};

/// What a reply says.
#[derive(Debug, Drop)]
pub enum Body {
    /// A page of journeys over so many commits, of a request with this cursor that asked for at least so many.
    Plan {
        number: u64,
        cursor: Option<Cursor>,
        at_least: u64,
        page: Page,
    },
    /// How many commits there are, beside what the feed holds.
    Status {
        number: u64,
    },
    /// A message was accepted, the `accepted`th, and was committed where a number of commits stands. So many of
    /// its updates were ignored for each reason.
    Updated {
        accepted: u64,
        commit: Option<u64>,
        ignored: [u64; 9],
    },
    /// How many commits there are, and whether one was made just now.
    Committed {
        number: u64,
        fresh: bool,
    },
    /// A request was refused.
    Refused {
        name: Text,
    },
    /// A parameter is at fault.
    Parameter {
        name: Text,
        parameter: Text,
    },
    /// A message is at fault, at an offset of its bytes if the fault has one.
    Offset {
        name: Text,
        at: Option<u64>,
    },
    /// A message was not taken for what is kept: the timestamp of a later one, or the most that may be counted.
    Kept {
        name: Text,
        have: u64,
    },
}

/// Whether the cursor names another number of commits.
fn is_moved(cursor: &Option<Cursor>, number: u64) -> bool
    ensures { result ≡ is_moved cursor.now number }
{
    match cursor {
        Some(cursor) => cursor.commit != number,
        None => false,
    }
}

fn direct_value(direct: Option<u32>) -> Value
    ensures { view result ≡ number_or_null direct }
{
    match direct {
        Some(seconds) => Value::from(seconds),
        None => Value::Null,
    }
}

fn journeys_value(
    alloc: Global,
    feed: &Feed,
    number: u64,
    found: &[Found],
) -> Result<Value, AllocError>
    requires { All (IsFoundOf feed.now number) found.now }
    ensures { IfOk result (λ value. view value ≡ journeys_data feed.now found.now) }
{
    let mut values = Vec::new(alloc);
    for journey in found {
        let value = journey_value(alloc, feed, journey)?;
        values.push(value)?;
    }
    Ok(Value::Array(values))
}

/// The cursor behind a page of so many commits.
fn cursor_behind(number: u64, found: &[Found]) -> Option<Cursor>
    ensures { result ≡ cursor_behind number found.now }
{
    let [.., last] = found else {
        return None;
    };
    Some(Cursor {
        commit: number,
        value: last.value,
    })
}

/// The text of a cursor.
fn cursor_value(alloc: Global, cursor: Option<Cursor>) -> Result<Value, Memory>
    requires { IfSome cursor FitsText }
    ensures { IfOk result (λ value. view value ≡ cursor_data cursor) }
{
    let Some(cursor) = cursor else {
        return Ok(Value::Null);
    };
    let text = cursor_text(alloc, &cursor)?;
    Ok(Value::try_from_str(alloc, text.as_str())?)
}

/// The members of the object.
#[derive(Drop)]
struct PlanParts {
    behind: bool,
    commit: u64,
    direct: Value,
    journeys: Value,
    more: bool,
    moved: bool,
    next: Value,
}

fn plan_object(alloc: Global, parts: PlanParts) -> Result<Value, AllocError>
    ensures { IfOk result (λ value. view value ≡ plan_object parts.behind parts.commit (view parts.direct) (view parts.journeys) parts.more parts.moved (view parts.next)) }
{
    json!(in alloc; {
        "behind": parts.behind,
        "commit": parts.commit,
        "direct": parts.direct,
        "journeys": parts.journeys,
        "more": parts.more,
        "moved": parts.moved,
        "next": parts.next
    })
}

fn body_value(alloc: Global, feed: &Feed, body: &Body) -> Result<Value, Memory>
    requires { IsBodyOf feed.now body.now }
    ensures { IfOk result (λ value. view value ≡ body_data feed.now body.now) }
{
    match body {
        Body::Plan {
            number,
            cursor,
            at_least,
            page,
        } => plan_value(alloc, feed, *number, cursor, *at_least, page),
        Body::Status { number } => Ok(status_value(alloc, feed, *number)?),
        Body::Updated {
            accepted,
            commit,
            ignored,
        } => Ok(updated_value(alloc, *accepted, *commit, ignored)?),
        Body::Committed { number, fresh } => Ok(committed_value(alloc, *number, *fresh)?),
        Body::Refused { name } => Ok(refused_value(alloc, name.as_str())?),
        Body::Parameter { name, parameter } => {
            Ok(parameter_value(alloc, name.as_str(), parameter.as_str())?)
        }
        Body::Offset { name, at } => Ok(offset_value(alloc, name.as_str(), *at)?),
        Body::Kept { name, have } => Ok(kept_value(alloc, name.as_str(), *have)?),
    }
}

fn plan_value(
    alloc: Global,
    feed: &Feed,
    number: u64,
    cursor: &Option<Cursor>,
    at_least: u64,
    page: &Page,
) -> Result<Value, Memory>
    requires { All (IsFoundOf feed.now number) page.now.found }
    ensures { IfOk result (λ value. view value ≡ page_data feed.now number cursor.now at_least page.now) }
{
    let direct = direct_value(page.direct);
    let moved = is_moved(cursor, number);
    let journeys = journeys_value(alloc, feed, number, page.found.as_slice())?;
    let next = cursor_value(alloc, cursor_behind(number, page.found.as_slice()))?;
    let value = plan_object(
        alloc,
        PlanParts {
            behind: number < at_least,
            commit: number,
            direct,
            journeys,
            more: page.more,
            moved,
            next,
        },
    )?;
    Ok(value)
}

/// The bytes of a reply's body: compact JSON with the keys of each object in the order of their bytes. Each
/// ride of a plan's page names stops and a trip of the feed and a day of the years 1970 to 2999, and each value of
/// the page, with the number of commits, fits the text of a cursor.
pub fn body_bytes(alloc: Global, feed: &Feed, body: &Body) -> Result<List<u8>, Memory>
    requires { IsBodyOf feed.now body.now }
    ensures { IfOk result (λ bytes. bytes ≡ body_text feed.now body.now) }
{
    let value = body_value(alloc, feed, body)?;
    let bytes = value.to_vec(alloc)?;
    Ok(List::from_vec(bytes))
}
