ghost use Rattle.std.specs.Prelude.{◌≡◌, ◌≤◌, ◌<◌, ◌^◌, IfOk, List, length, option_map, true};
ghost use Rattle.otp_base.specs.Cut.{cut};
ghost use Rattle.otp_model.specs.Limits.{most_scale};
ghost use Rattle.otp_model.specs.declared.timetable.Stop.{Stop};
ghost use Rattle.query_form.specs.Resource.{is_within};
ghost use Rattle.query_form.specs.Target.{GivesAsked, IsInRange, asked_in, asked_of, commit_of, parts_of, updated};

use crate::asked::Asked;
use crate::fault::TargetFault;
use crate::pairs::pairs_of;
use crate::parameter::Parameter;
use crate::query::{number_at, read_query};
use crate::resource::{Resource, resource_of};
use http_read::Method;
use otp_model::{Edges, Feed};
use std::alloc::Global;

/// What a request with this method and target asks for, over the stops of a feed, the plane of its edges and
/// so many RT feeds.
///
/// The path is the target up to the first `?`, and the query what stands behind it. There are `/plan` and
/// `/status`, by GET, and `/updates/N`, N the number of an RT feed in 1 or 2 digits, and `/commit`, by POST. The
/// first of these faults is answered: there is no such path, no RT feed of that number, the method is another,
/// a parameter is at fault. The parameters of `/plan` are those of `read_query`; `/updates/N` has `commit`, 0 or
/// 1 (0); all others are passed over.
pub fn read_target(
    alloc: Global,
    method: Method,
    target: &str,
    feed: &Feed,
    edges: &Edges,
    feeds: u32,
) -> Result<Asked, TargetFault>
    requires stops { length feed.now.stops < 2 ^ 32 }
    requires scale { edges.now.profile.scale ≤ most_scale }
    ensures asked { GivesAsked result (asked_of method target.now feed.now.stops edges.now.profile.scale feeds) }
    ensures range { IfOk result (IsInRange feed.now.stops feeds) }
{
    let (path, query) = parts_of(target);
    let Some(resource) = resource_of(path) else {
        return Err(TargetFault::Path);
    };
    if !resource.is_within(feeds) {
        return Err(TargetFault::FeedNumber);
    }
    if !resource.takes(method) {
        return Err(TargetFault::Method);
    }
    asked_in(alloc, resource, query, feed, edges, feeds)
}

/// The path and the query of a target.
fn parts_of(target: &str) -> (&str, &str)
    ensures { (result.0.now, result.1.now) ≡ parts_of target.now }
{
    match cut_at_question(target) {
        Some(parts) => parts,
        None => (target, ""),
    }
}

fn cut_at_question(text: &str) -> Option<(&str, &str)>
    ensures { option_map (λ p. (p.0.now, p.1.now)) result ≡ cut 63 text.now }
{
    text.split_once('?')
}

/// What is asked of what a path names.
fn asked_in(
    alloc: Global,
    resource: Resource,
    query: &str,
    feed: &Feed,
    edges: &Edges,
    feeds: u32,
) -> Result<Asked, TargetFault>
    requires stops { length feed.now.stops < 2 ^ 32 }
    requires scale { edges.now.profile.scale ≤ most_scale }
    requires within { is_within feeds resource ≡ true }
    ensures asked { GivesAsked result (asked_in resource query.now feed.now.stops edges.now.profile.scale) }
    ensures range { IfOk result (IsInRange feed.now.stops feeds) }
{
    match resource {
        Resource::Plan => match read_query(alloc, query, feed, edges) {
            Ok(request) => Ok(Asked::Plan(request)),
            Err(fault) => Err(fault),
        },
        Resource::Status => Ok(Asked::Status),
        Resource::Updates(number) => update(alloc, number as u32, query, feeds),
        Resource::Commit => Ok(Asked::Commit),
    }
}

/// An update of the RT feed of this number.
fn update(alloc: Global, feed_no: u32, query: &str, feeds: u32) -> Result<Asked, TargetFault>
    requires low { 1 ≤ feed_no }
    requires high { feed_no ≤ feeds }
    ensures asked { GivesAsked result (updated feed_no (commit_of query.now)) }
    ensures range { (stops : List Stop) → IfOk result (IsInRange stops feeds) }
{
    let pairs = pairs_of(alloc, query)?;
    match number_at(&pairs, Parameter::Commit, 0, 1, Some(0)) {
        Ok(commit) => Ok(Asked::Update {
            feed_no,
            commit: commit == 1,
        }),
        Err(refusal) => Err(refusal.named(alloc)),
    }
}
