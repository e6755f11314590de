//! How sets and records are compared and hashed: as the values that they are.

use super::fed::{feed_record, feed_set};
use super::{Record, Set};
use crate::extension::ExtensionValue;
use std::cmp::Ordering;
use std::hash::{Hash, Hasher};

impl<X: ExtensionValue> PartialEq for Set<X> {
    ghost use Rattle.std.specs.Cmp.{partial_equiv_from_equiv};
    ghost use Rattle.cedar_expr_values.specs.KeptOrder.{kept_set_eq, sets_equal};

    ghost eq = { kept_set_eq };

    ghost laws = { partial_equiv_from_equiv sets_equal };

    #[cycle(same)]
    fn eq(&self, other: &Set<X>) -> bool {
        self.members.values == other.members.values
    }
}

impl<X: ExtensionValue> Eq for Set<X> {
    ghost use Rattle.cedar_expr_values.specs.KeptOrder.{sets_equal};

    ghost laws = { sets_equal };
}

impl<X: ExtensionValue> PartialOrd for Set<X> {
    ghost use Rattle.std.specs.Prelude.{Some};
    ghost use Rattle.cedar_expr_values.specs.KeptOrder.{kept_set_cmp, sets_ordered};

    ghost partial_cmp = { λ s t. Some (kept_set_cmp s t) };

    ghost laws = { sets_ordered };

    #[cycle(order)]
    fn partial_cmp(&self, other: &Set<X>) -> Option<Ordering> {
        Some(self.members.values.cmp(&other.members.values))
    }
}

impl<X: ExtensionValue> Ord for Set<X> {
    ghost use Rattle.std.specs.Prelude.{refl};
    ghost use Rattle.cedar_expr_values.specs.KeptOrder.{kept_set_cmp, sets_total};

    ghost cmp = { kept_set_cmp };

    ghost total = { sets_total };

    ghost matches_partial_cmp = { λ _ _. refl };

    ghost matches_eq = { λ _ _. refl };

    #[cycle(order)]
    fn cmp(&self, other: &Set<X>) -> Ordering {
        self.members.values.cmp(&other.members.values)
    }
}

impl<X: ExtensionValue + Hash> Hash for Set<X> {
    ghost use Rattle.cedar_expr_values.specs.KeptOrder.{kept_set, sets_hashed};
    ghost use Rattle.cedar_expr_values.specs.Inputs.{value_input};

    ghost hash_input = { λ s. value_input (kept_set s) };

    ghost respects_eq = { sets_hashed };

    fn hash<H: Hasher>(&self, state: &mut H) {
        feed_set(self, state);
    }
}

impl<X: ExtensionValue> PartialEq for Record<X> {
    ghost use Rattle.std.specs.Cmp.{partial_equiv_from_equiv};
    ghost use Rattle.cedar_expr_values.specs.KeptOrder.{kept_record_eq, records_equal};

    ghost eq = { kept_record_eq };

    ghost laws = { partial_equiv_from_equiv records_equal };

    #[cycle(same)]
    fn eq(&self, other: &Record<X>) -> bool {
        self.fields == other.fields
    }
}

impl<X: ExtensionValue> Eq for Record<X> {
    ghost use Rattle.cedar_expr_values.specs.KeptOrder.{records_equal};

    ghost laws = { records_equal };
}

impl<X: ExtensionValue> PartialOrd for Record<X> {
    ghost use Rattle.std.specs.Prelude.{Some};
    ghost use Rattle.cedar_expr_values.specs.KeptOrder.{kept_record_cmp, records_ordered};

    ghost partial_cmp = { λ s t. Some (kept_record_cmp s t) };

    ghost laws = { records_ordered };

    #[cycle(order)]
    fn partial_cmp(&self, other: &Record<X>) -> Option<Ordering> {
        Some(self.fields.cmp(&other.fields))
    }
}

impl<X: ExtensionValue> Ord for Record<X> {
    ghost use Rattle.std.specs.Prelude.{refl};
    ghost use Rattle.cedar_expr_values.specs.KeptOrder.{kept_record_cmp, records_total};

    ghost cmp = { kept_record_cmp };

    ghost total = { records_total };

    ghost matches_partial_cmp = { λ _ _. refl };

    ghost matches_eq = { λ _ _. refl };

    #[cycle(order)]
    fn cmp(&self, other: &Record<X>) -> Ordering {
        self.fields.cmp(&other.fields)
    }
}

impl<X: ExtensionValue + Hash> Hash for Record<X> {
    ghost use Rattle.cedar_expr_values.specs.KeptOrder.{kept_record, records_hashed};
    ghost use Rattle.cedar_expr_values.specs.Inputs.{value_input};

    ghost hash_input = { λ r. value_input (kept_record r) };

    ghost respects_eq = { records_hashed };

    fn hash<H: Hasher>(&self, state: &mut H) {
        feed_record(self, state);
    }
}
