//! What can be edited: a property graph with room, of which each change can be undone.

ghost use Rattle.std.specs.Prelude.{◌≡◌, Bool, IsTrue, OnOk};
ghost use Rattle.gql_values3.specs.PropertyGraph.{PropertyGraph};
ghost use Rattle.gql_graph.specs.Edits.{changed, can_act, can_act_each, holds_along};

use crate::change::{Change, Changes};
use gql_values3::{OutOfMemory, View};
use std::alloc::Global;

/// A property graph that can be edited. Its room says which graphs it can hold without memory; it can always hold the
/// one that it holds, and no call takes room away.
pub trait Edit: View {
    /// Whether there is room for a graph.
    ghost has_room: { Self → PropertyGraph → Bool };

    /// There is always room for the graph that is held. It changes nothing: a caller calls it to learn this.
    fn holds_itself(&self)
        ensures { IsTrue (has_room self.now (Self.graph self.now)) };

    /// Makes room for each graph to which the changes lead, one after the other. The graph stays, also where it is
    /// refused.
    fn make_room(&mut self, alloc: Global, changes: &Changes) -> Result<(), OutOfMemory>
        requires { IsTrue (can_act_each changes.now (Self.graph self.old)) }
        ensures graph { Self.graph self.new ≡ Self.graph self.old }
        ensures kept { (g : PropertyGraph) → IsTrue (has_room self.old g) → IsTrue (has_room self.new g) }
        ensures room { OnOk result (IsTrue (holds_along (has_room self.new) changes.now (Self.graph self.old))) };

    /// Makes the change, without memory, and answers the one that undoes it. There is room for the graph before.
    fn make(&mut self, change: Change) -> Change
        requires acts { IsTrue (can_act change (Self.graph self.old)) }
        requires room { IsTrue (has_room self.old (changed change (Self.graph self.old))) }
        ensures graph { Self.graph self.new ≡ changed change (Self.graph self.old) }
        ensures undoes { IsTrue (can_act result (Self.graph self.new)) × (changed result (Self.graph self.new) ≡ Self.graph self.old) }
        ensures kept { (g : PropertyGraph) → IsTrue (has_room self.old g) → IsTrue (has_room self.new g) }
        ensures held { IsTrue (has_room self.new (Self.graph self.old)) };
}
