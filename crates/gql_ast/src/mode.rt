//! The path modes: WALK, TRAIL, ACYCLIC and SIMPLE.

/// A path mode: what a path may pass twice.
#[derive(Clone, Copy, Debug, PartialEq, Eq)]
pub enum Mode {
    /// Everything.
    Walk,
    /// No edge.
    Trail,
    /// No node.
    Acyclic,
    /// No node, except that the first may be the last.
    Simple,
}
