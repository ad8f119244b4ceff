//! RETURN: the columns that it gives, and what else belongs to it.

use crate::expr::Expr;
use crate::page::{RowCount, SortItems};
use crate::words::SetQuantifier;
use gql_values3::{Names, Sequence, Text};

/// A column of RETURN, and the name that AS gives it.
#[derive(Drop)]
pub struct ReturnItem {
    pub value: Expr,
    pub name: Option<Text>,
}

/// What RETURN gives.
#[derive(Drop)]
pub enum ReturnItems {
    /// `*`: all columns.
    All,
    /// These columns.
    Listed(Sequence<ReturnItem>),
}

/// RETURN, with GROUP BY, ORDER BY, OFFSET and LIMIT where they stand.
#[derive(Drop)]
pub struct Return {
    pub quantifier: SetQuantifier,
    pub items: ReturnItems,
    pub grouping: Option<Names>,
    pub order: Option<SortItems>,
    pub skip: Option<RowCount>,
    pub limit: Option<RowCount>,
}
