//! What MATCH asks for: path patterns with their names and prefixes, and what must hold of them together.

use crate::expr::Expr;
use crate::mode::Mode;
use crate::pattern::PathExpr;
use gql_values3::{Sequence, Text};

/// What stands before a path pattern: which of the paths are kept, and their mode. Numbers are kept by their digits.
#[derive(Drop)]
pub enum Prefix {
    /// A mode alone.
    Mode(Mode),
    /// ALL
    All(Option<Mode>),
    /// ANY, and how many.
    Any(Option<Text>, Option<Mode>),
    /// ALL SHORTEST
    AllShortest(Option<Mode>),
    /// ANY SHORTEST
    AnyShortest(Option<Mode>),
    /// SHORTEST, and how many.
    Shortest(Text, Option<Mode>),
    /// SHORTEST with GROUP, and how many groups.
    ShortestGroups(Option<Text>, Option<Mode>),
}

/// A path pattern with its name and its prefix, if they are there.
#[derive(Drop)]
pub struct PathPattern {
    pub name: Option<Text>,
    pub prefix: Option<Prefix>,
    pub expr: PathExpr,
}

/// Path patterns in order.
pub type PathPatterns = Sequence<PathPattern>;

/// The path patterns of a MATCH, and what must hold of them together.
#[derive(Drop)]
pub struct GraphPattern {
    /// DIFFERENT EDGES: no edge stands twice in what the path patterns match together. No statement says so yet.
    pub different: bool,
    pub paths: PathPatterns,
    pub condition: Option<Expr>,
}
