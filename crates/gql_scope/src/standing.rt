//! The variables that stand already at a place of an INSERT: the columns that come in, and the new ones so far. Both are
//! kept apart, so that expressions see the incoming ones alone and no scope is copied.

ghost use Rattle.std.specs.Prelude.{◌≡◌, ◌++◌};
ghost use Rattle.gql_expr_checks.specs.Machinery.Knowing.{first_kind};

use gql_expr_checks::KnownColumns;
use gql_values3::{ColumnKind, Text};

/// What a variable that stands already holds.
#[tactic(auto, using(gql_pattern_checks::proofs::KindLemmas::first_kind_two))]
pub fn standing(incoming: &KnownColumns, fresh: &KnownColumns, name: &Text) -> Option<ColumnKind>
    ensures { result ≡ first_kind (incoming.now ++ fresh.now) name.now }
{
    match incoming.first_kind(name) {
        Some(kind) => Some(kind),
        None => fresh.first_kind(name),
    }
}
