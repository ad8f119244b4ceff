//! What holds of all pieces and of all runs: functions that do nothing and whose contracts are the laws.
ghost use Rattle.std.specs.Prelude.{◌≡◌, ℕ, List, None, IsTrue};
ghost use Rattle.gql_ast.specs.declared.refusal.Outcome.{Outcome};
ghost use Rattle.gql_graph.specs.Catalog.{CatalogData};
ghost use Rattle.gql_type.specs.SoundCatalog.{is_sound};
ghost use Rattle.gql_norm.specs.Selection.{Each};
ghost use Rattle.gql_machine.specs.Choices.{PieceHasNoChoice};
ghost use Rattle.gql_machine.specs.Outcomes.{store_refusals};
ghost use Rattle.gql_machine.specs.Reading.{Reading, ReadsAs};
ghost use Rattle.gql_machine.specs.SessionState.{SessionState, starting};
ghost use Rattle.gql_machine.specs.SessionRun.{RunsSession};
ghost use Rattle.gql_machine.specs.TypedGraphs.{IsTypedState};

/// A piece reads in one way alone.
pub fn a_piece_reads_in_one_way()
    ensures { (piece : List ℕ) (a b : Reading) → ReadsAs piece a → ReadsAs piece b → a ≡ b }
{}

/// From one start the same pieces have one run, where no selector leaves a choice and the store refuses nothing: its outcomes, and
/// the state at its end.
pub fn pieces_run_in_one_way()
    ensures { (start end other_end : SessionState) (pieces : List (List ℕ)) (outcomes others : List Outcome) → Each PieceHasNoChoice pieces → store_refusals outcomes ≡ 0 → store_refusals others ≡ 0
        → RunsSession start pieces outcomes end → RunsSession start pieces others other_end → (outcomes ≡ others) × (end ≡ other_end) }
{}

/// A run leads from catalogs whose typed graphs conform to their types to such catalogs.
pub fn typed_graphs_fit()
    ensures { (start end : SessionState) (pieces : List (List ℕ)) (outcomes : List Outcome) → IsTypedState start → RunsSession start pieces outcomes end → IsTypedState end }
{}

/// A session over a sound catalog begins so.
pub fn a_session_begins_typed()
    ensures { (catalog : CatalogData) → IsTrue (is_sound catalog) → IsTypedState (starting catalog) }
{}

/// Where no transaction is open, the catalog is the one that is kept.
pub fn an_unopened_state_is_kept()
    ensures { (catalog : CatalogData) (end : SessionState) (pieces : List (List ℕ)) (outcomes : List Outcome) → RunsSession (starting catalog) pieces outcomes end → end.access ≡ None → end.catalog ≡ end.kept }
{}
