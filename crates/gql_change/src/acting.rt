//! Changes of a graph, and the way back.

ghost use Rattle.std.specs.Prelude.{◌≡◌, IsTrue, OnOk};
ghost use Rattle.gql_values3.specs.PropertyGraph.{PropertyGraph};
ghost use Rattle.gql_graph.specs.Edits.{changed, can_act, can_act_each, changed_by_each, holds_along};

use crate::list::{ChangeList, Undo};
use gql_graph::{Change, Edit};
use gql_values3::OutOfMemory;
use std::alloc::Global;

/// Takes all memory that the changes need in the graph. The graph and the list stay.
pub fn reserve<G: Edit>(
    alloc: Global,
    graph: &mut G,
    list: &mut ChangeList,
) -> Result<(), OutOfMemory>
    requires { IsTrue (can_act_each list.old (G.graph graph.old)) }
    ensures graph { G.graph graph.new ≡ G.graph graph.old }
    ensures list { list.new ≡ list.old }
    ensures kept { (g : PropertyGraph) → IsTrue (G.has_room graph.old g) → IsTrue (G.has_room graph.new g) }
    ensures room { OnOk result (IsTrue (holds_along (G.has_room graph.new) list.new (G.graph graph.new))) }
{
    graph.make_room(alloc, list.changes())
}

/// Makes the changes, without memory, and answers those that undo them. There is room for the way back.
pub fn apply<G: Edit>(graph: &mut G, list: ChangeList) -> Undo
    requires acts { IsTrue (can_act_each list (G.graph graph.old)) }
    requires room { IsTrue (holds_along (G.has_room graph.old) list (G.graph graph.old)) }
    ensures graph { G.graph graph.new ≡ changed_by_each list (G.graph graph.old) }
    ensures acts { IsTrue (can_act_each result (G.graph graph.new)) }
    ensures undoes { changed_by_each result (G.graph graph.new) ≡ G.graph graph.old }
    ensures kept { (g : PropertyGraph) → IsTrue (G.has_room graph.old g) → IsTrue (G.has_room graph.new g) }
    ensures held { IsTrue (holds_along (G.has_room graph.new) result (G.graph graph.new)) }
{
    let (changes, mut inverses) = list.into_parts();
    for change in changes {
        let inverse = graph.make(change);
        inverses.push_reserved(inverse);
    }
    Undo::of(inverses)
}

/// Makes the changes of an undo, without memory: the graph is the one from which they led away.
pub fn undo<G: Edit>(graph: &mut G, undo: Undo)
    requires acts { IsTrue (can_act_each undo (G.graph graph.old)) }
    requires held { IsTrue (holds_along (G.has_room graph.old) undo (G.graph graph.old)) }
    ensures graph { G.graph graph.new ≡ changed_by_each undo (G.graph graph.old) }
    ensures kept { (g : PropertyGraph) → IsTrue (G.has_room graph.old g) → IsTrue (G.has_room graph.new g) }
{
    let mut inverses = undo.into_vec();
    while let Some(inverse) = inverses.pop() {
        make_only(graph, inverse);
    }
}

/// Makes a change, and forgets the one that undoes it.
fn make_only<G: Edit>(graph: &mut G, change: Change)
    requires acts { IsTrue (can_act change (G.graph graph.old)) }
    requires room { IsTrue (G.has_room graph.old (changed change (G.graph graph.old))) }
    ensures graph { G.graph graph.new ≡ changed change (G.graph graph.old) }
    ensures kept { (g : PropertyGraph) → IsTrue (G.has_room graph.old g) → IsTrue (G.has_room graph.new g) }
{
    let _inverse = graph.make(change);
}
