ghost use Rattle.std.specs.Prelude.{◌≡◌, ◌≤◌, ◌^◌, Err, IfErr, IfOk, List, length};
ghost use Rattle.std.specs.List.{All};
ghost use Rattle.std.specs.List.Sorted.{IsPermutation};
ghost use Rattle.command_words.specs.Messages.{IsOf, all_asked};
ghost use Rattle.otp_base.specs.Faults.{Rose};
ghost use Rattle.otp_model.specs.Limits.{most_messages};
ghost use Rattle.otp_model.specs.Schedule.{sched};
ghost use Rattle.otp_model.specs.Sound.{AreServed};
ghost use Rattle.otp_model.specs.declared.message.Commit.{Commit};
ghost use Rattle.query_form.specs.Query.{IsAsked};
ghost use Rattle.reply_bodies.specs.Plans.{IsSearchable};
ghost use Rattle.snapshot_store.specs.Snapshots.{runs_of};
ghost use Rattle.otp_server.specs.Messages.{IsMessageFault};
ghost use Rattle.otp_server.specs.Reply.{IsAnswered, IsPlanned, IsPlanRefusal, IsReply};

use crate::messages::committed;
use crate::refusal::Refusal;
use command_words::MessageWord;
use feed_load::Loaded;
use otp_base::{Folder, List, Memory};
use otp_model::{Edges, Feed, Request};
use plan_json::body_bytes;
use query_form::read_query;
use reply_bodies::plan_body;
use snapshot_store::Snapshot;
use std::alloc::Global;

/// The reply to a query once these messages are committed, or why there is none: the query's first fault, or else
/// the first message that is refused.
pub fn planned<F: Folder>(
    alloc: Global,
    folder: &mut F,
    loaded: &Loaded,
    feeds: u32,
    query: &str,
    messages: &[MessageWord<'_>],
) -> Result<List<u8>, Refusal>
    requires searchable { IsSearchable loaded.now.feed loaded.now.edges }
    requires words { All (IsOf feeds) messages.now }
    requires few { length messages.now ≤ most_messages }
    ensures done { IfOk result (IsPlanned (F.files folder.old) loaded.now.feed loaded.now.edges (all_asked messages.now) query.now) }
    ensures refused { IfErr result (IsPlanRefusal (F.files folder.old) loaded.now.feed loaded.now.edges (all_asked messages.now) query.now) }
    ensures cause { result ≡ Err Refusal.Read → Rose (F.faults folder.old) (F.faults folder.new) }
    ensures unchanged { F.files folder.new ≡ F.files folder.old }
    ensures later { F.faults folder.old ≤ F.faults folder.new }
{
    match read_query(alloc, query, &loaded.feed, &loaded.edges) {
        Ok(request) => answered(alloc, folder, loaded, feeds, &request, messages),
        Err(fault) => Err(Refusal::Request(fault)),
    }
}

/// The reply to a request once these messages are committed, or the first of them that is refused.
fn answered<F: Folder>(
    alloc: Global,
    folder: &mut F,
    loaded: &Loaded,
    feeds: u32,
    request: &Request,
    messages: &[MessageWord<'_>],
) -> Result<List<u8>, Refusal>
    requires searchable { IsSearchable loaded.now.feed loaded.now.edges }
    requires asked { IsAsked loaded.now.feed.stops request.now }
    requires words { All (IsOf feeds) messages.now }
    requires few { length messages.now ≤ most_messages }
    ensures done { IfOk result (IsAnswered (F.files folder.old) loaded.now.feed loaded.now.edges (all_asked messages.now) request.now) }
    ensures refused { IfErr result (IsMessageFault (F.files folder.old) (all_asked messages.now)) }
    ensures cause { result ≡ Err Refusal.Read → Rose (F.faults folder.old) (F.faults folder.new) }
    ensures unchanged { F.files folder.new ≡ F.files folder.old }
    ensures later { F.faults folder.old ≤ F.faults folder.new }
{
    match committed(alloc, folder, &loaded.feed, feeds, messages) {
        Ok(committed) => Ok(reply(
            alloc,
            &loaded.feed,
            &loaded.edges,
            request,
            &committed.snapshot,
            messages.len() as u64,
        )?),
        Err(refusal) => Err(refusal),
    }
}

/// The reply to a request over a snapshot after so many commits.
fn reply(
    alloc: Global,
    feed: &Feed,
    edges: &Edges,
    request: &Request,
    snapshot: &Snapshot,
    number: u64,
) -> Result<List<u8>, Memory>
    requires searchable { IsSearchable feed.now edges.now }
    requires asked { IsAsked feed.now.stops request.now }
    requires served { AreServed feed.now (runs_of snapshot.now) }
    requires few { number ≤ 2 ^ 40 }
    ensures { IfOk result (λ text. (history : List Commit) → IsPermutation (sched feed.now history) (runs_of snapshot.now) → length history ≡ number
        → IsReply feed.now edges.now history request.now text) }
{
    let body = plan_body(alloc, feed, edges, request, snapshot, number)?;
    let mut bytes = body_bytes(alloc, feed, &body)?;
    bytes.push(b'\n')?;
    Ok(bytes)
}
