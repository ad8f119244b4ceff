//! What is proved of the definitions themselves.

ghost use Rattle.gql_scope.specs.SoundMatches.{AcceptedMatchesAreSound};

/// Where neither a bound nor anything else of a query is refused, each of its patterns may be run.
pub fn accepted_matches_are_sound()
    ensures { AcceptedMatchesAreSound }
{}
