use crate::queries::{PLAIN, edges, feed};
use http_read::Method;
use otp_model::{Edges, Feed};
use query_form::{Asked, QueryFault, TargetFault, read_target};
use std::alloc::Global;
use std::test::Fail;

/// What a request asks for, over two RT feeds.
const ACCEPTED: [(Method, &str, Asked); 7] = [
    (
        Method::Get,
        "/plan?from=stop:A&to=stop:D&time=1714981600",
        Asked::Plan(PLAIN),
    ),
    (Method::Get, "/status", Asked::Status),
    (Method::Get, "/status?commit=x&commit=x", Asked::Status),
    (Method::Post, "/commit?", Asked::Commit),
    (
        Method::Post,
        "/updates/1",
        Asked::Update {
            feed_no: 1,
            commit: false,
        },
    ),
    (
        Method::Post,
        "/updates/02?x=?&c%6Fmmit=01",
        Asked::Update {
            feed_no: 2,
            commit: true,
        },
    ),
    (
        Method::Post,
        "/updates/2?commit=0",
        Asked::Update {
            feed_no: 2,
            commit: false,
        },
    ),
];

fn accepted_targets() -> [(Method, &'static str, Asked); 7] {
    ACCEPTED
}

/// Why a target is refused.
#[derive(Clone, Copy)]
enum Fault {
    Path,
    FeedNumber,
    Method,
    Query(QueryFault, &'static str),
}

impl Fault {
    fn tells(self, fault: &TargetFault) -> bool {
        match (self, fault) {
            (Fault::Path, TargetFault::Path) => true,
            (Fault::FeedNumber, TargetFault::FeedNumber) => true,
            (Fault::Method, TargetFault::Method) => true,
            (
                Fault::Query(cause, name),
                TargetFault::Query {
                    cause: told,
                    parameter,
                },
            ) => { cause == *told && parameter.as_str() == name }
            _ => false,
        }
    }
}

/// Targets that are refused, over two RT feeds.
const REFUSED: [(Method, &str, Fault); 17] = [
    (Method::Get, "", Fault::Path),
    (Method::Get, "/", Fault::Path),
    (Method::Other, "/plan/?time=0", Fault::Path),
    (Method::Post, "/Commit", Fault::Path),
    (Method::Post, "/updates/", Fault::Path),
    (Method::Post, "/updates/x", Fault::Path),
    (Method::Post, "/updates/001", Fault::Path),
    (Method::Get, "/updates/0", Fault::FeedNumber),
    (Method::Post, "/updates/3?commit=x", Fault::FeedNumber),
    (Method::Get, "/updates/1?commit=x", Fault::Method),
    (Method::Post, "/plan", Fault::Method),
    (Method::Other, "/status", Fault::Method),
    (Method::Get, "/commit", Fault::Method),
    (
        Method::Get,
        "/plan",
        Fault::Query(QueryFault::Missing, "from"),
    ),
    (
        Method::Post,
        "/updates/1?commit=2",
        Fault::Query(QueryFault::Bad, "commit"),
    ),
    (
        Method::Post,
        "/updates/1?commit=",
        Fault::Query(QueryFault::Bad, "commit"),
    ),
    (
        Method::Post,
        "/updates/1?commit=1&commit=1",
        Fault::Query(QueryFault::Twice, "commit"),
    ),
];

fn refused_targets() -> [(Method, &'static str, Fault); 17] {
    REFUSED
}

/// What a target over the feed and two RT feeds asks for, or its first fault, where the feed is small.
fn read(
    alloc: Global,
    method: Method,
    target: &str,
    feed: &Feed,
    edges: &Edges,
) -> Option<Result<Asked, TargetFault>> {
    if feed.stops.len() > 100 || edges.profile.scale > 111_195 {
        return None;
    }
    Some(read_target(alloc, method, target, feed, edges, 2))
}

fn asks_for(answer: Option<Result<Asked, TargetFault>>, wanted: &Asked) -> bool {
    match answer {
        Some(Ok(asked)) => asked == *wanted,
        _ => false,
    }
}

fn is_refused(answer: Option<Result<Asked, TargetFault>>, wanted: Fault) -> bool {
    match answer {
        Some(Err(fault)) => wanted.tells(&fault),
        _ => false,
    }
}

#[test]
fn reads_targets(rt: HostRuntime) -> Result<(), Fail> {
    let alloc = rt.alloc();
    let feed = feed(alloc)?;
    let edges = edges(alloc);
    for (method, target, wanted) in &accepted_targets() {
        assert!(rt;
            asks_for(read(alloc, *method, target, &feed, &edges), wanted),
            "{target}"
        );
    }
    Ok(())
}

#[test]
fn refuses_targets(rt: HostRuntime) -> Result<(), Fail> {
    let alloc = rt.alloc();
    let feed = feed(alloc)?;
    let edges = edges(alloc);
    for (method, target, wanted) in &refused_targets() {
        assert!(rt;
            is_refused(read(alloc, *method, target, &feed, &edges), *wanted),
            "{target}"
        );
    }
    Ok(())
}
