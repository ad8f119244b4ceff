//! What holds of the definitions: functions that do nothing and whose contracts are the laws.

ghost use Rattle.gql_linear.specs.OneWay.{QueriesRunInOneWay};

/// A query runs in one way where no selector leaves a MATCH a choice.
pub fn queries_run_in_one_way()
    ensures { QueriesRunInOneWay }
{}
