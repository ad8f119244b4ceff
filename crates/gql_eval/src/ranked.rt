//! Values as keys of a set, in their total order.

ghost use Rattle.std.specs.Prelude.{Some, refl};
ghost use Rattle.std.specs.Ordering.{on, eq_by_cmp, as_partial_cmp};
ghost use Rattle.std.specs.Cmp.{on_equiv, on_total, partial_equiv_from_equiv, partial_order_from_total, eq_by_cmp_equiv};
ghost use Rattle.gql_values3.specs.ValueOrder.{datum_cmp};
ghost use Rattle.gql_values3.proofs.OrderLaws.{datum_cmp_total};
ghost use Rattle.gql_eval.specs.Machinery.Ranked.{ranked_datum};

use gql_values3::{Value, total_cmp};
use std::cmp::Ordering;

/// A value that stands elsewhere, by its place in the total order of values.
#[derive(Clone, Copy)]
pub struct Ranked<'a> {
    pub value: &'a Value,
}

impl<'a> PartialEq for Ranked<'a> {
    ghost eq = { eq_by_cmp (on ranked_datum datum_cmp) };

    ghost laws = { partial_equiv_from_equiv (eq_by_cmp_equiv (on_total ranked_datum datum_cmp_total)) };

    fn eq(&self, other: &Ranked<'a>) -> bool {
        total_cmp(self.value, other.value).is_eq()
    }
}

impl<'a> Eq for Ranked<'a> {
    ghost laws = { eq_by_cmp_equiv (on_total ranked_datum datum_cmp_total) };
}

impl<'a> PartialOrd for Ranked<'a> {
    ghost partial_cmp = { as_partial_cmp (on ranked_datum datum_cmp) };

    ghost laws = { partial_order_from_total (on_total ranked_datum datum_cmp_total) };

    fn partial_cmp(&self, other: &Ranked<'a>) -> Option<Ordering> {
        Some(total_cmp(self.value, other.value))
    }
}

impl<'a> Ord for Ranked<'a> {
    ghost cmp = { on ranked_datum datum_cmp };

    ghost total = { on_total ranked_datum datum_cmp_total };

    ghost matches_partial_cmp = { λ a b. refl };

    ghost matches_eq = { λ a b. refl };

    fn cmp(&self, other: &Ranked<'a>) -> Ordering {
        total_cmp(self.value, other.value)
    }
}
