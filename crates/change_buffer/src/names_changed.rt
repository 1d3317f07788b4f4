ghost use Rattle.std.specs.Prelude.{◌≡◌, ◌++◌, IfOk, OnOk, map};
ghost use Rattle.std.specs.List.{dedup};
ghost use Rattle.std.specs.List.Sorted.{IsPermutation, IsSorted};
ghost use Rattle.otp_model.specs.Names.{run_name_cmp};
ghost use Rattle.otp_model.specs.Resolution.{is_same_name};
ghost use Rattle.change_buffer.specs.Forms.{AreNamesChanged, names_changed, names_pending};

use crate::feed_state::FeedState;
use otp_base::{Copied, List, Memory};
use otp_model::{Change, RunName};
use std::alloc::Global;

/// The names of which a feed may say something else once its pending message is committed, rising, each once.
pub fn names_in_order(alloc: Global, feeds: &[FeedState]) -> Result<Vec<RunName>, Memory>
    ensures { IfOk result (λ names. AreNamesChanged feeds.now names.items) }
{
    let mut names = names_changed(alloc, feeds)?;
    sort_names(&mut names)?;
    drop_repeats(&mut names);
    Ok(names)
}

fn names_changed(alloc: Global, feeds: &[FeedState]) -> Result<Vec<RunName>, Memory>
    ensures { IfOk result (λ names. names.items ≡ names_changed feeds.now) }
{
    let mut names = Vec::new(alloc);
    for feed in feeds {
        let said = &feed.said;
        push_pending(alloc, &mut names, said.committed.as_slice(), &said.pending)?;
    }
    Ok(names)
}

/// Adds the names that a feed with a pending message spoke or speaks of.
fn push_pending(
    alloc: Global,
    names: &mut Vec<RunName>,
    committed: &[Change],
    pending: &Option<List<Change>>,
) -> Result<(), Memory>
    ensures { OnOk result (names.new.items ≡ names.old.items ++ names_pending committed.now pending.now) }
{
    let Some(pending) = pending else {
        return Ok(());
    };
    push_names(alloc, names, committed)?;
    push_names(alloc, names, pending.as_slice())
}

fn push_names(alloc: Global, names: &mut Vec<RunName>, changes: &[Change]) -> Result<(), Memory>
    ensures { OnOk result (names.new.items ≡ names.old.items ++ map (λ change. change.name) changes.now) }
{
    for change in changes {
        names.push(change.name.copy(alloc)?)?;
    }
    Ok(())
}

fn sort_names(names: &mut Vec<RunName>) -> Result<(), Memory>
    ensures permutation { IsPermutation names.old.items names.new.items }
    ensures sorted { OnOk result (IsSorted run_name_cmp names.new.items) }
{
    names.sort_by(|a, b| a.compare(b))?;
    Ok(())
}

fn drop_repeats(names: &mut Vec<RunName>)
    ensures { names.new.items ≡ dedup is_same_name names.old.items }
{
    names.dedup_by(|a, b| a.compare(b).is_eq());
}
