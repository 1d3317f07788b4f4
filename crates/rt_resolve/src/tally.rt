ghost use Rattle.std.specs.Prelude.{◌≡◌, ℕ, List, [], ◌∷◌, ◌++◌, ◌<◌, ◌^◌, Ok, Err, Result, IfOk, OnOk, map, slice_index};
ghost use Rattle.std.specs.BTreeMap.{IsOrdered};
ghost use Rattle.otp_model.specs.Resolution.{judged_after};
ghost use Rattle.otp_model.specs.declared.change.Change.{Change as ChangeOf};
ghost use Rattle.otp_base.specs.Answers.{Gives};
ghost use Rattle.rt_resolve.specs.Reasons.{number_of, told_reason};
ghost use Rattle.rt_resolve.specs.Tallies.{Tallies, change_kept, key_cmp, names_in};

use crate::name_key::NameKey;
use crate::reason::{Reason, Unresolved};
use otp_base::{List, Memory};
use otp_model::{Call, Change};
use std::alloc::Global;
use std::collections::BTreeMap;

/// What the first entities of a message said: the changes by name, and how many entities were ignored for each
/// reason.
#[derive(Drop)]
pub struct Tally {
    pub changes: BTreeMap<NameKey, Option<List<Call>>>,
    pub ignored: [u64; 9],
}

impl Tally {
    pub fn new(alloc: Global) -> Tally
        ensures { Tallies [] result }
    {
        Tally {
            changes: BTreeMap::new(alloc),
            ignored: [0; 9],
        }
    }

    /// Counts an entity that is ignored.
    fn ignore(&mut self, reason: Reason)
        requires { (place : ℕ) → slice_index self.old.ignored place < 2 ^ 63 }
        ensures { (answers : List (Result ChangeOf ℕ)) → Tallies answers self.old → Tallies (answers ++ Err (number_of reason) ∷ []) self.new }
    {
        self.ignored[reason.place()] += 1;
    }

    /// Keeps the change of an entity, or ignores it if an earlier one resolved for the same name.
    fn note(&mut self, change: Change) -> Result<(), Memory>
        requires { (place : ℕ) → slice_index self.old.ignored place < 2 ^ 63 }
        ensures { OnOk result ((answers : List (Result ChangeOf ℕ)) → Tallies answers self.old
            → Tallies (answers ++ judged_after (names_in [] answers) (Ok change) ∷ []) self.new) }
    {
        let Change { name, calls } = change;
        let key = NameKey(name);
        if self.changes.contains_key(&key) {
            self.ignore(Reason::SameName);
            return Ok(());
        }
        self.changes.insert(key, calls)?;
        Ok(())
    }

    /// Takes what the next entity says by itself.
    pub fn take(&mut self, answer: Result<Change, Unresolved>) -> Result<(), Memory>
        requires { (place : ℕ) → slice_index self.old.ignored place < 2 ^ 63 }
        ensures { OnOk result ((answers : List (Result ChangeOf ℕ)) (own : Result ChangeOf ℕ) → Tallies answers self.old
            → Gives (λ change. change) told_reason answer own → Tallies (answers ++ judged_after (names_in [] answers) own ∷ []) self.new) }
    {
        match answer {
            Ok(change) => self.note(change),
            Err(Unresolved::Ignored(reason)) => {
                self.ignore(reason);
                Ok(())
            }
            Err(Unresolved::Memory) => Err(Memory),
        }
    }
}

/// The changes that are kept, by rising name.
pub fn changes_of(
    alloc: Global,
    kept: BTreeMap<NameKey, Option<List<Call>>>,
) -> Result<List<Change>, Memory>
    ensures kept { IfOk result (λ changes. changes ≡ map change_kept kept.entries) }
    ensures ordered { IsOrdered key_cmp kept }
{
    let mut changes = Vec::with_capacity(alloc, kept.len())?;
    for (key, calls) in kept {
        changes.push(Change { name: key.0, calls })?;
    }
    Ok(List::from_vec(changes))
}
