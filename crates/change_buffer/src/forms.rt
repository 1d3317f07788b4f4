ghost use Rattle.std.specs.Prelude.{◌≡◌};
ghost use Rattle.std.specs.List.{All, AllPairs};
ghost use Rattle.std.specs.Option.{option_map};
ghost use Rattle.otp_model.specs.Schedule.{calls_in};
ghost use Rattle.otp_model.specs.Sound.{IsRunBelow};
ghost use Rattle.change_buffer.specs.Forms.{HasRising, form_before, form_now, in_force};

use crate::feed_state::FeedState;
use crate::named::{change_named, run_named};
use otp_model::{Call, Change, Run, RunName};

/// What the committed messages say of a name: the change of the last feed that has one.
pub fn change_before<'a>(feeds: &'a [FeedState], name: &RunName) -> Option<&'a Change>
    requires { All HasRising feeds.now }
    ensures { option_map (λ change. change.now.calls) result ≡ form_before feeds.now name.now }
{
    let mut last = None;
    for feed in feeds {
        last = change_named(feed.said.committed.as_slice(), name).or(last);
    }
    last
}

/// What the messages say of it once the pending ones are committed.
pub fn change_now<'a>(feeds: &'a [FeedState], name: &RunName) -> Option<&'a Change>
    requires { All HasRising feeds.now }
    ensures { option_map (λ change. change.now.calls) result ≡ form_now feeds.now name.now }
{
    let mut last = None;
    for feed in feeds {
        last = change_named(feed.said.now(), name).or(last);
    }
    last
}

/// The calls that a change gives a name, or without a change those of the feed's run of that name.
pub fn calls_in_force<'a>(
    change: Option<&'a Change>,
    runs: &'a [Run],
    name: &RunName,
) -> Option<&'a [Call]>
    requires { AllPairs IsRunBelow runs.now }
    ensures { option_map (λ calls. calls.now) result ≡ in_force (option_map (λ change. change.now.calls) change.entry) (calls_in runs.now name.now) }
{
    match change {
        Some(change) => changed_calls(change),
        None => planned_calls(runs, name),
    }
}

fn changed_calls(change: &Change) -> Option<&[Call]>
    ensures { option_map (λ calls. calls.now) result ≡ change.now.calls }
{
    match &change.calls {
        Some(calls) => Some(calls.as_slice()),
        None => None,
    }
}

fn planned_calls<'a>(runs: &'a [Run], name: &RunName) -> Option<&'a [Call]>
    requires { AllPairs IsRunBelow runs.now }
    ensures { option_map (λ calls. calls.now) result ≡ calls_in runs.now name.now }
{
    match run_named(runs, name) {
        Some(run) => Some(run.calls.as_slice()),
        None => None,
    }
}
