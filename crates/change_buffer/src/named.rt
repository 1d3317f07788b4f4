ghost use Rattle.std.specs.Prelude.{◌≡◌};
ghost use Rattle.std.specs.List.{AllPairs, find};
ghost use Rattle.std.specs.Option.{option_map};
ghost use Rattle.otp_model.specs.Resolution.{is_same_name, run_named};
ghost use Rattle.otp_model.specs.Sound.{IsRunBelow};
ghost use Rattle.change_buffer.specs.Forms.{AreRising};

use otp_model::{Change, Run, RunName};

/// The change of a name, of changes by rising name.
pub fn change_named<'a>(changes: &'a [Change], name: &RunName) -> Option<&'a Change>
    requires { AreRising changes.now }
    ensures { option_map (λ change. change.now) result ≡ find (λ change. is_same_name change.name name.now) changes.now }
{
    match changes.binary_search_by(|change| change.name.compare(name)) {
        Ok(place) => Some(&changes[place]),
        Err(_) => None,
    }
}

/// The run of a name, of runs by rising name.
pub fn run_named<'a>(runs: &'a [Run], name: &RunName) -> Option<&'a Run>
    requires { AllPairs IsRunBelow runs.now }
    ensures { option_map (λ run. run.now) result ≡ find (λ run. is_same_name run.name name.now) runs.now }
{
    match runs.binary_search_by(|run| run.name.compare(name)) {
        Ok(place) => Some(&runs[place]),
        Err(_) => None,
    }
}
