//! Statements about the session.
ghost use Rattle.std.specs.Prelude.{◌≡◌, [], IfOk, OnOk};
ghost use Rattle.gql_values3.specs.Meaning.{datum_of};
ghost use Rattle.gql_graph.specs.Catalog.{graph_of};
ghost use Rattle.gql_ast.specs.Meaning.{tree_of};
ghost use Rattle.gql_ast.specs.Evaluation.{value_of};
ghost use Rattle.gql_eval.specs.Gives.{Gives};
ghost use Rattle.gql_machine.specs.SessionState.{set_parameter, graph_or_empty, with_current, reset, closed};
ghost use Rattle.gql_machine.specs.StatementRun.{session_end};
ghost use Rattle.gql_machine.specs.Machinery.Meaning.{session_state};

use crate::current::statement_graph;
use crate::parameters::with_parameter;
use crate::state::Session;
use gql_ast::{Expr, Outcome, Refusal, SessionStatement};
use gql_eval::{EvalError, value};
use gql_graph::{Catalog, Graph};
use gql_values3::{Columns, OutOfMemory, Params, Row, Text, Value};
use std::alloc::Global;
use std::mem;

/// What a statement about the session does.
pub fn run_session_statement(
    alloc: Global,
    session: &mut Session,
    statement: &SessionStatement,
) -> Result<Outcome, OutOfMemory>
    ensures outcome { IfOk result (λ made. made ≡ (session_end (session_state session.old) statement.now).outcome) }
    ensures after { OnOk result (session_state session.new ≡ (session_end (session_state session.old) statement.now).after) }
{
    match statement {
        SessionStatement::SetGraph(name) => {
            set_graph(alloc, session, name)?;
            Ok(Outcome::Done)
        }
        SessionStatement::SetValue(name, expr) => set_value(alloc, session, name, expr),
        SessionStatement::Reset => {
            reset(alloc, session)?;
            Ok(Outcome::Done)
        }
        SessionStatement::Close => {
            close(session);
            Ok(Outcome::Done)
        }
    }
}

/// Makes the graph of that name the current one.
fn set_graph(alloc: Global, session: &mut Session, name: &Text) -> Result<(), OutOfMemory>
    ensures { OnOk result (session_state session.new ≡ with_current (session_state session.old) name.now) }
{
    session.graph = name.try_copy(alloc)?;
    Ok(())
}

/// Makes home the current graph, and forgets all parameters.
fn reset(alloc: Global, session: &mut Session) -> Result<(), OutOfMemory>
    ensures { OnOk result (session_state session.new ≡ reset (session_state session.old)) }
{
    session.graph = Text::from_str(alloc, "home")?;
    session.parameters = Params::new(alloc);
    Ok(())
}

/// Ends the session, and an open transaction without its changes.
fn close(session: &mut Session)
    ensures { session_state session.new ≡ closed (session_state session.old) }
{
    session.txn.rollback();
    session.is_closed = true;
}

/// The parameter has the value of the expression, or the expression's fault is the answer.
fn set_value(
    alloc: Global,
    session: &mut Session,
    name: &Text,
    expr: &Expr,
) -> Result<Outcome, OutOfMemory>
    ensures outcome { IfOk result (λ made. made ≡ (session_end (session_state session.old) (SessionStatement.SetValue name.now expr.now)).outcome) }
    ensures after { OnOk result (session_state session.new ≡ (session_end (session_state session.old) (SessionStatement.SetValue name.now expr.now)).after) }
{
    match value_without_columns(
        alloc,
        session.txn.catalog(),
        &session.graph,
        &session.parameters,
        expr,
    ) {
        Ok(found) => {
            set_parameter(alloc, session, name, found)?;
            Ok(Outcome::Done)
        }
        Err(EvalError::Fault(fault)) => Ok(Outcome::Refused(Refusal::Fault(fault))),
        Err(EvalError::OutOfMemory) => Err(OutOfMemory),
    }
}

/// The value of an expression over no columns on the graph over which statements are evaluated.
fn value_without_columns(
    alloc: Global,
    catalog: &Catalog,
    name: &Text,
    parameters: &Params,
    expr: &Expr,
) -> Result<Value, EvalError>
    ensures { Gives datum_of result (value_of (graph_or_empty (graph_of catalog.now name.now)) parameters.now [] (tree_of expr.now)) }
{
    let empty = Graph::new(alloc);
    let graph = statement_graph(catalog, name, &empty);
    let columns = Columns::new(alloc);
    let row = Row::new(alloc);
    value(alloc, graph, &columns, &row, parameters, expr)
}

/// Sets a parameter of the session; an older value of it is gone.
fn set_parameter(
    alloc: Global,
    session: &mut Session,
    name: &Text,
    value: Value,
) -> Result<(), OutOfMemory>
    ensures parameters { OnOk result (session.new.parameters ≡ set_parameter session.old.parameters name.now (datum_of value)) }
    ensures closed { session.new.is_closed ≡ session.old.is_closed }
    ensures graph { session.new.graph ≡ session.old.graph }
    ensures txn { session.new.txn ≡ session.old.txn }
{
    let before = mem::replace(&mut session.parameters, Params::new(alloc));
    session.parameters = with_parameter(alloc, before, name, value)?;
    Ok(())
}
