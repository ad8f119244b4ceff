//! What holds of all clauses that change data: functions that do nothing and whose contracts are the laws.

ghost use Rattle.gql_change.specs.AcceptedInserts.{GuardHolds, GuardIsPassed, NoneIsWrong};

/// An INSERT of a statement that isn't refused before it runs, over rows that fit their columns, is never refused by the
/// guard of its definition. That no endpoint is a column of another kind than a node's is granted by E09.
pub fn accepted_inserts_have_endpoints()
    ensures granted { NoneIsWrong }
    ensures guard { GuardHolds }
    ensures passed { GuardIsPassed }
{}
