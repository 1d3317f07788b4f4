ghost use Rattle.std.specs.Prelude.{◌≡◌, ◌↔◌, ◌≤◌, ℤ, [], ◌∷◌, ◌++◌, IsTrue, IfOk, OnErr, OnOk, vec_capacity, vec_len};
ghost use Rattle.std.specs.List.{filter};
ghost use Rattle.label_bags.specs.Bags.{AreApart, IsCovered, IsInserted, IsUpheld, stays_beside};

use crate::label::Label;
use otp_base::Memory;
use otp_model::Time;
use std::alloc::Global;
use std::marker::Model;

/// Labels of which none covers another. Contracts see a bag as the list of them.
#[derive(Debug, Drop)]
pub struct Bag {
    labels: Vec<Label>,
}

impl Model for Bag {
    ghost use Rattle.std.specs.Prelude.{List};
    ghost use Rattle.label_bags.specs.Bags.{AreApart};
    ghost use Rattle.label_bags.specs.declared.label.Label.{Label as LabelOf};

    ghost Value = { List LabelOf };

    ghost view = { λ bag. bag.labels.items };

    ghost invariant = { λ bag. AreApart bag.labels.items };
}

impl Bag {
    /// A bag without labels, which takes no memory.
    pub fn new(alloc: Global) -> Bag
        ensures { result ≡ [] }
    {
        Bag {
            labels: Vec::new(alloc),
        }
    }

    /// The labels that it keeps, each once, those that came last at the end.
    pub fn labels(&self) -> &[Label]
        ensures labels { result.now ≡ self.now }
        ensures apart { AreApart result.now }
    {
        self.labels.as_slice()
    }

    /// Whether some label comes no later than this time, at no greater a penalty.
    pub fn covers(&self, time: Time, penalty: i64) -> bool
        ensures { IsTrue result ↔ IsCovered self.now time penalty }
    {
        any_covers(&self.labels, time, penalty)
    }

    /// Adds a label that no label covers, in place of those that it covers, and answers whether it did. An `Err` changes nothing.
    pub fn insert(&mut self, label: Label) -> Result<bool, Memory>
        ensures ok { IfOk result (λ came. IsInserted self.old label came self.new) }
        ensures upheld { OnOk result (IsUpheld self.old label self.new) }
        ensures err { OnErr result (self.new ≡ self.old) }
    {
        insert_label(&mut self.labels, &label)
    }
}

fn any_covers(labels: &[Label], time: Time, penalty: i64) -> bool
    ensures { IsTrue result ↔ IsCovered labels.now time penalty }
{
    for label in labels {
        if label.covers(time, penalty) {
            return true;
        }
    }
    false
}

fn insert_label(labels: &mut Vec<Label>, label: &Label) -> Result<bool, Memory>
    ensures ok { IfOk result (λ came. IsInserted labels.old.items label.now came labels.new.items) }
    ensures err { OnErr result (labels.new.items ≡ labels.old.items) }
{
    if is_covered(labels, label) {
        return Ok(false);
    }
    add(labels, label)?;
    Ok(true)
}

fn is_covered(labels: &[Label], label: &Label) -> bool
    ensures { IsTrue result ↔ IsCovered labels.now label.now.time label.now.penalty }
{
    any_covers(labels, label.time, label.penalty)
}

/// Puts the label behind those that it doesn't cover. Memory is taken before a label goes.
fn add(labels: &mut Vec<Label>, label: &Label) -> Result<(), Memory>
    ensures ok { OnOk result (labels.new.items ≡ filter (stays_beside label.now) labels.old.items ++ label.now ∷ []) }
    ensures err { OnErr result (labels.new.items ≡ labels.old.items) }
{
    labels.reserve(1)?;
    drop_covered(labels, label);
    labels.push_reserved(*label);
    Ok(())
}

fn drop_covered(labels: &mut Vec<Label>, label: &Label)
    ensures labels { labels.new.items ≡ filter (stays_beside label.now) labels.old.items }
    ensures len { vec_len labels.new ≤ vec_len labels.old }
    ensures capacity { vec_capacity labels.new ≡ vec_capacity labels.old }
{
    labels.retain(|other| other.stays_beside(label));
}
