// The laws of `PartialEq` and `PartialOrd` follow from those of `Eq` and `Ord`.
ghost use Rattle.std.specs.Prelude.{Some, refl};
ghost use Rattle.std.specs.Cmp;
ghost use Rattle.std.specs.Cmp.{on_equiv, on_total, partial_order_from_agreeing_total};
ghost use Rattle.otp_model.specs.Names.{run_name_cmp};
ghost use Rattle.otp_model.specs.Resolution.{is_same_name};
ghost use Rattle.otp_model.proofs.NameLemmas.{run_name_cmp_total};
ghost use Rattle.std.proofs.lemmas.Cmp.{eq_by_cmp_equiv};

use otp_model::RunName;
use std::cmp::Ordering;

/// A name of a run as a key, in the order of names.
#[derive(Drop)]
pub struct NameKey(pub RunName);

impl PartialEq for NameKey {
    ghost eq = { λ a b. is_same_name a.0 b.0 };

    ghost laws = { Cmp.partial_equiv_from_equiv (on_equiv (λ key. key.0) (eq_by_cmp_equiv run_name_cmp_total)) };

    fn eq(&self, other: &NameKey) -> bool {
        self.0.compare(&other.0) == Ordering::Equal
    }
}

impl Eq for NameKey {
    ghost laws = { on_equiv (λ key. key.0) (eq_by_cmp_equiv run_name_cmp_total) };
}

impl PartialOrd for NameKey {
    ghost partial_cmp = { λ a b. Some (run_name_cmp a.0 b.0) };

    ghost laws = { partial_order_from_agreeing_total (λ a b. run_name_cmp a.0 b.0) (on_total (λ key. key.0) run_name_cmp_total) (λ a b. refl) (λ a b. refl) };

    fn partial_cmp(&self, other: &NameKey) -> Option<Ordering> {
        Some(self.cmp(other))
    }
}

impl Ord for NameKey {
    ghost cmp = { λ a b. run_name_cmp a.0 b.0 };

    ghost total = { on_total (λ key. key.0) run_name_cmp_total };

    ghost matches_partial_cmp = { λ a b. refl };

    ghost matches_eq = { λ a b. refl };

    fn cmp(&self, other: &NameKey) -> Ordering {
        self.0.compare(&other.0)
    }
}
