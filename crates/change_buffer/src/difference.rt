ghost use Rattle.std.specs.Prelude.{◌≡◌, IfOk};
ghost use Rattle.std.specs.List.{All, AllPairs};
ghost use Rattle.std.specs.Option.{option_map, option_to_list};
ghost use Rattle.otp_model.specs.Sound.{IsRunBelow};
ghost use Rattle.change_buffer.specs.Forms.{HasRising, are_same_calls, calls_before, calls_now, difference, differences};

use crate::feed_state::FeedState;
use crate::forms::{calls_in_force, change_before, change_now};
use otp_base::{List, Memory};
use otp_model::{Call, Change, Feed, RunName};
use std::alloc::Global;

/// The changes, among these names, that the commit of the pending messages makes.
pub fn differences(
    alloc: Global,
    feed: &Feed,
    feeds: &[FeedState],
    names: Vec<RunName>,
) -> Result<List<Change>, Memory>
    requires runs { AllPairs IsRunBelow feed.now.runs }
    requires rising { All HasRising feeds.now }
    ensures { IfOk result (λ changes. changes ≡ differences feed.now feeds.now names.items) }
{
    let mut changes = List::new(alloc);
    for name in names {
        changes.push_some(difference_of(alloc, feed, feeds, name)?)?;
    }
    Ok(changes)
}

fn difference_of(
    alloc: Global,
    feed: &Feed,
    feeds: &[FeedState],
    name: RunName,
) -> Result<Option<Change>, Memory>
    requires runs { AllPairs IsRunBelow feed.now.runs }
    requires rising { All HasRising feeds.now }
    ensures { IfOk result (λ change. option_to_list change ≡ difference name (calls_before feed.now feeds.now name) (calls_now feed.now feeds.now name)) }
{
    let runs = feed.runs.as_slice();
    let before = calls_in_force(change_before(feeds, &name), runs, &name);
    let now = calls_in_force(change_now(feeds, &name), runs, &name);
    difference(alloc, name, before, now)
}

/// The change of a name from calls to others, if they are others.
fn difference(
    alloc: Global,
    name: RunName,
    before: Option<&[Call]>,
    now: Option<&[Call]>,
) -> Result<Option<Change>, Memory>
    ensures { IfOk result (λ change. option_to_list change ≡ difference name (option_map (λ calls. calls.now) before.entry) (option_map (λ calls. calls.now) now.entry)) }
{
    if are_same_calls(before, now) {
        return Ok(None);
    }
    let calls = copied(alloc, now)?;
    Ok(Some(Change { name, calls }))
}

fn are_same_calls(calls: Option<&[Call]>, others: Option<&[Call]>) -> bool
    ensures { result ≡ are_same_calls (option_map (λ calls. calls.now) calls.entry) (option_map (λ calls. calls.now) others.entry) }
{
    match (calls, others) {
        (Some(calls), Some(others)) => calls == others,
        (None, None) => true,
        _ => false,
    }
}

fn copied(alloc: Global, calls: Option<&[Call]>) -> Result<Option<List<Call>>, Memory>
    ensures { IfOk result (λ copy. copy ≡ option_map (λ calls. calls.now) calls.entry) }
{
    let Some(calls) = calls else {
        return Ok(None);
    };
    let mut copy = List::new(alloc);
    copy.extend_from_slice(calls)?;
    Ok(Some(copy))
}
