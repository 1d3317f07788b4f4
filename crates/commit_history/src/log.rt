//! The log of the published commits, which only grows. It exists in proofs alone; what is stored of it is its length.
ghost use Rattle.std.specs.Prelude.{◌≡◌, ◌+◌, ◌<◌, ◌≤◌, ◌^◌, ◌++◌, ◌∷◌, [], length, IfSome};
ghost use mathlib.Core.List.{IsPrefix};
ghost use Rattle.commit_history.specs.Logs.{head_of};

use logbook::{Gain, Offer, Plain, Play, Rule, Seen, Start, Word};
use otp_model::Commit;
use std::snapshot::Snapshot as Ghost;

/// The rule of the log: its first word is its length.
pub struct Growing;

impl Rule<Commit, u64> for Growing {
    ghost use Rattle.std.specs.Prelude.{[]};
    ghost use base.Fml.{ftrue};
    ghost use Rattle.commit_history.specs.Logs.{HoldsLength};

    ghost holds = { HoldsLength };

    ghost first = { [] };

    ghost hinted = { λ number log. Unit {0} };

    ghost shows = { λ log. [] };

    ghost keeps = { λ names log. ftrue };

    ghost moves = { λ ask before after answer. Unit {0} };
}

/// Callers trade nothing.
pub struct Nothing;

impl Gain<Commit, u64> for Nothing {
    ghost use base.Fml.{ftrue};

    ghost after = { λ names about answer. ftrue };
}

/// A step that adds a commit.
pub struct Adding;

impl Play<Commit, u64> for Adding {
    ghost use Rattle.commit_history.specs.Logs.{Adds};

    ghost then = { Adds };
}

/// What a step asks for: the commit.
impl Plain<Ghost<Commit>, Commit, u64> for Adding {
    ghost use Rattle.std.specs.Prelude.{None};

    ghost ask = { λ commit. commit.value };

    ghost state = { λ commit. None };
}

/// That the log has reached a list. It has no bytes.
pub type Token = Seen<Commit, u64, Growing>;

/// The word that holds the log's length.
pub type Head = Word<Commit, u64, Growing>;

/// What a token says. Types that hold one are generic over it: so they are seen to cross threads.
pub trait Reached {
    ghost use Rattle.std.specs.Prelude.{List};
    ghost use Rattle.logbook.specs.Pages.{Book};
    ghost use Rattle.otp_model.specs.declared.message.Commit.{Commit as CommitOf};

    ghost log: { Self → List CommitOf };

    ghost book: { Self → Book };
}

impl Reached for Token {
    ghost log = { λ token. token.log };

    ghost book = { λ token. token.book };
}

/// A log without commits.
pub fn begin() -> (Head, Token)
    ensures head { result.0 ≡ head_of result.1.book }
    ensures empty { result.1.log ≡ [] }
{
    let (seen, mut first, _second) = Seen::open(Start::alone(), 0, 0);
    (Word::tracked(0, &mut first), seen)
}

/// The log with one commit more, or none where somebody else has added to it. There is one writer, so that never happens; but no clause
/// says that there is one.
pub fn add(head: &Head, seen: &Token, number: u64, commit: &Ghost<Commit>) -> Option<Token>
    requires head { head.now ≡ head_of seen.now.book }
    requires number { (number ≡ length seen.now.log) × (number < 2 ^ 62) }
    ensures { IfSome result (λ token. (token.book ≡ seen.now.book) × (token.log ≡ seen.now.log ++ commit.now.value ∷ [])) }
{
    let mut next = seen.again();
    let mut offer: Offer<Commit, u64, Growing, Nothing> = next.plain::<
        Nothing,
        Ghost<Commit>,
        Adding,
    >(commit);
    let mut pen = next.no_pen();
    let found = head.compare_exchange::<Adding, Nothing>(
        number,
        number + 1,
        &mut next,
        &mut offer,
        &mut pen,
    );
    if found != number {
        return None;
    }
    Some(next)
}

/// Of two lists that one log has reached the shorter begins the longer.
pub fn compare(short: &Token, long: &Token)
    requires book { short.now.book ≡ long.now.book }
    requires length { length short.now.log ≤ length long.now.log }
    ensures { IsPrefix short.now.log long.now.log }
{
    let mut both = short.again();
    both.learn(long);
}
