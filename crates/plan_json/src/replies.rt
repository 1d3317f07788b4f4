ghost use Rattle.std.specs.Prelude.{◌≡◌, IfOk};
ghost use Rattle.serde_json.specs.View.{view};
ghost use Rattle.plan_json.specs.Replies.{committed_data, kept_data, number_or_null, numbers_data, offset_data, parameter_data, refused_data, status_data, updated_data};

use otp_model::Feed;
use serde_json::{Value, json};
use std::alloc::{AllocError, Global};

pub fn number_or_null(number: Option<u64>) -> Value
    ensures { view result ≡ number_or_null number }
{
    match number {
        Some(number) => Value::from(number),
        None => Value::Null,
    }
}

fn numbers_value(alloc: Global, numbers: &[u64]) -> Result<Value, AllocError>
    ensures { IfOk result (λ value. view value ≡ numbers_data numbers.now) }
{
    let mut values = Vec::new(alloc);
    for number in numbers {
        values.push(Value::from(*number))?;
    }
    Ok(Value::Array(values))
}

pub fn status_value(alloc: Global, feed: &Feed, number: u64) -> Result<Value, AllocError>
    ensures { IfOk result (λ value. view value ≡ status_data feed.now number) }
{
    let runs = feed.runs.len();
    let stops = feed.stops.len();
    json!(in alloc; {"commit": number, "runs": runs, "stops": stops})
}

pub fn updated_value(
    alloc: Global,
    accepted: u64,
    commit: Option<u64>,
    ignored: &[u64],
) -> Result<Value, AllocError>
    ensures { IfOk result (λ value. view value ≡ updated_data accepted commit ignored.now) }
{
    let commit = number_or_null(commit);
    let ignored = numbers_value(alloc, ignored)?;
    json!(in alloc; {"accepted": accepted, "commit": commit, "ignored": ignored})
}

pub fn committed_value(alloc: Global, number: u64, fresh: bool) -> Result<Value, AllocError>
    ensures { IfOk result (λ value. view value ≡ committed_data number fresh) }
{
    json!(in alloc; {"commit": number, "done": fresh})
}

pub fn refused_value(alloc: Global, name: &str) -> Result<Value, AllocError>
    ensures { IfOk result (λ value. view value ≡ refused_data name.now) }
{
    json!(in alloc; {"error": name})
}

pub fn parameter_value(alloc: Global, name: &str, parameter: &str) -> Result<Value, AllocError>
    ensures { IfOk result (λ value. view value ≡ parameter_data name.now parameter.now) }
{
    json!(in alloc; {"error": name, "parameter": parameter})
}

pub fn offset_value(alloc: Global, name: &str, at: Option<u64>) -> Result<Value, AllocError>
    ensures { IfOk result (λ value. view value ≡ offset_data name.now at) }
{
    let at = number_or_null(at);
    json!(in alloc; {"at": at, "error": name})
}

pub fn kept_value(alloc: Global, name: &str, have: u64) -> Result<Value, AllocError>
    ensures { IfOk result (λ value. view value ≡ kept_data name.now have) }
{
    json!(in alloc; {"error": name, "have": have})
}
