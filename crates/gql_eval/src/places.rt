//! The places of a name: among the columns of a row, and among the names of a match that stand behind them.

ghost use Rattle.std.specs.Prelude.{◌≡◌, position};
ghost use Rattle.gql_values3.specs.Texts.{same_text};
ghost use Rattle.gql_eval.specs.Machinery.Places.{place_among, name_among, places_among};

use gql_values3::{ColumnKind, Text};

/// Where a name is found, each place from 0.
#[derive(Clone, Copy, Debug, PartialEq, Eq)]
pub struct Places {
    /// The first column of the name.
    pub column: Option<usize>,
    /// The first of the names of a match that is the name.
    pub bound: Option<usize>,
}

/// Both places of a name.
pub fn places_in(columns: &[(Text, ColumnKind)], names: &[Text], name: &Text) -> Places
    ensures { result ≡ places_among columns.now names.now name.now }
{
    Places {
        column: place_of(columns, name.as_str()),
        bound: name_in(names, name),
    }
}

/// The place of the first column of a name.
fn place_of(columns: &[(Text, ColumnKind)], name: &str) -> Option<usize>
    ensures { result ≡ place_among columns.now name.now }
{
    for i in 0..columns.len() {
        let (column, _) = &columns[i];
        if name == column.as_str() {
            return Some(i);
        }
    }
    None
}

/// The place of the first of these names that is the name.
fn name_in(names: &[Text], name: &Text) -> Option<usize>
    ensures { result ≡ name_among names.now name.now }
{
    position_of(names, name.as_str())
}

fn position_of(names: &[Text], name: &str) -> Option<usize>
    ensures { result ≡ position (λ n. same_text name.now n) names.now }
{
    names.iter().position(|other| name == other.as_str())
}
