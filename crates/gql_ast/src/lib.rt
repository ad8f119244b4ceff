//! The trees of the language: statements, clauses, patterns and expressions, and why a statement is refused.
//!
//! Each alternative of the grammar is a variant, each repetition a list, and parentheses are kept. The crate's promise is that
//! expressions, label expressions and path patterns have one plain meaning each (`tree_of`, `label_of`, `pattern_of`), that copies
//! mean the same, and that `text` prints as `specs/ExprText.antt` and `specs/ValueText.antt` define. Beside the trees stands what
//! evaluation gives (`specs/Evaluation.antt`), for the crates above. It stands on `gql_values3`, whose texts and values it has.
#![tactic(auto)]

mod change;
mod clause;
mod expr;
mod fault;
mod filler;
mod graph_type;
mod label;
mod last_clause;
mod mode;
mod page;
mod parse_fault;
mod path;
mod pattern;
mod projection;
mod refusal;
mod statement;
#[cfg(test)]
mod tests;
mod text;
mod words;

pub use change::{
    Arrow, ChangeClause, Detachment, Fill, InsertPath, InsertStep, RemoveItem, SetItem,
};
pub use clause::{Clause, Counting, For, LetItem, LetItems, Match, Query};
pub use expr::{Expr, Exprs, Step, Steps, Sub};
pub use fault::DataFault;
pub use filler::{Condition, Filler, Map, MapItem};
pub use graph_type::{ElementBody, TypeBody, TypeElement, TypeProperty};
pub use label::{LabelExpr, LabelList, LabelSub};
pub use last_clause::{ends_in_change, is_change};
pub use mode::Mode;
pub use page::{NullOrder, Page, RowCount, SortDirection, SortItem, SortItems};
pub use parse_fault::ParseFault;
pub use path::{GraphPattern, PathPattern, PathPatterns, Prefix};
pub use pattern::{Direction, PathExpr, PathList, PathSub, Quantifier};
pub use projection::{Return, ReturnItem, ReturnItems};
pub use refusal::{ColumnRef, ElemKind, Outcome, Refusal};
pub use statement::{
    AccessMode, CatalogStatement, GraphKind, SessionStatement, Statement, TransactionStatement,
};
pub use text::{
    a_number_prints_in_decimal, expr_text, push_any_name, push_digits, push_edge, push_header,
    push_integer, push_name, push_node, push_number, push_value,
};
pub use words::{Aggregate, EdgeEnd, Function, Operator, Quality, Sense, SetQuantifier, Sign};
