//! The catalog: graphs and graph types, looked up, added, replaced and taken away by name.

ghost use Rattle.std.specs.Prelude.{◌≡◌, [], None, Some, IfOk, OnOk, OnErr, IsTrue, if◌then◌else◌, map, option_map, find, position};
ghost use Rattle.std.specs.List.{list_all};
ghost use Rattle.std.specs.Option.{option_copied};
ghost use Rattle.gql_values3.specs.PropertyGraph.{is_graph};
ghost use Rattle.gql_values3.specs.Texts.{same_text, texts_ascend};
ghost use Rattle.gql_graph.specs.Bare.{bare, bare_held};
ghost use Rattle.gql_graph.specs.Catalog.{graph_of, held_in, type_in, is_catalog, catalog_with, initial_catalog, replaced, with_graph, without_graph, with_type, without_type};

use crate::graph::Graph;
use crate::graph_type::GraphType;
use crate::held::Held;
use crate::named::{find_named, put_named, take_named};
use crate::type_copies::copy_types;
use gql_values3::{OutOfMemory, Text, keys_ascend};
use std::alloc::Global;
use std::marker::Model;
use std::mem::replace;

/// Graphs and graph types by name, both kept by ascending name.
#[derive(Debug, Drop)]
pub struct Catalog {
    graphs: Vec<(Text, Held)>,
    types: Vec<(Text, GraphType)>,
}

impl Model for Catalog {
    ghost use Rattle.std.specs.Prelude.{◌≡◌, true, map};
    ghost use Rattle.gql_graph.specs.Catalog.{CatalogData, is_catalog};
    ghost use Rattle.gql_graph.specs.Bare.{bare};

    ghost Value = { CatalogData };

    ghost use Rattle.std.specs.Coded.{codes};
    ghost use Rattle.gql_values3.specs.Datum.{coded_datum};

    ghost coded = { Prim.hlevel (codes, coded_datum) };

    ghost view = { λ c. record { graphs = map bare c.graphs.items; types = c.types.items } };

    ghost invariant = { λ c. is_catalog (record { graphs = map bare c.graphs.items; types = c.types.items }) ≡ true };
}

impl Catalog {
    /// What a store without records stands for: an empty graph of the name home.
    pub fn initial(alloc: Global) -> Result<Catalog, OutOfMemory>
        ensures { IfOk result (λ c. c ≡ initial_catalog) }
    {
        Catalog::with_graph(alloc, "home", Graph::new(alloc))
    }

    /// The catalog of one graph, which has no type.
    pub fn with_graph(alloc: Global, name: &str, graph: Graph) -> Result<Catalog, OutOfMemory>
        ensures { IfOk result (λ c. c ≡ catalog_with name.now graph.graph) }
    {
        // The count's clause says that the graph is one.
        let _count = graph.count_nodes();
        let name = Text::from_str(alloc, name)?;
        let mut graphs = Vec::new(alloc);
        graphs.push((name, Held::untyped(graph)))?;
        Ok(Catalog {
            graphs,
            types: Vec::new(alloc),
        })
    }

    /// The catalog of these, where their names ascend.
    pub fn of(graphs: Vec<(Text, Held)>, types: Vec<(Text, GraphType)>) -> Option<Catalog>
        ensures { result ≡ (if is_catalog (record { graphs = map bare graphs.items; types = types.items }) then Some (record { graphs = map bare graphs.items; types = types.items }) else None) }
    {
        if is_catalog(graphs.as_slice(), types.as_slice()) {
            Some(Catalog { graphs, types })
        } else {
            None
        }
    }

    /// An equal catalog.
    pub fn try_copy(&self, alloc: Global) -> Result<Catalog, OutOfMemory>
        ensures { IfOk result (λ copy. copy ≡ self.now) }
    {
        Ok(Catalog {
            graphs: copy_graphs(alloc, self.graphs.as_slice())?,
            types: copy_types(alloc, self.types.as_slice())?,
        })
    }

    /// Puts the graph in the place of the one of that name, without memory, and gives that one back. Where there is none,
    /// all stays.
    pub fn replace(&mut self, name: &str, graph: Graph) -> Option<Graph>
        ensures put { self.new ≡ replaced name.now graph.graph self.old }
        ensures old { option_map (λ g. g.graph) result ≡ graph_of self.old name.now }
    {
        // The count's clause says that the graph is one.
        let _count = graph.count_nodes();
        put_graph(&mut self.graphs, name, graph)
    }

    /// The graph of that name. Each graph of a catalog is one, and the names of its graphs and types are in order.
    pub fn graph(&self, name: &str) -> Option<&Graph>
        ensures value { option_map (λ g. g.graph) (option_copied result) ≡ graph_of self.now name.now }
        ensures catalog { IsTrue (is_catalog self.now) }
    {
        find_graph(self.graphs.as_slice(), name)
    }

    /// The graph of that name, with the name of its type.
    pub fn held(&self, name: &str) -> Option<&Held>
        ensures value { option_map bare_held (option_copied result) ≡ held_in self.now name.now }
        ensures catalog { IsTrue (is_catalog self.now) }
    {
        find_named(self.graphs.as_slice(), name)
    }

    /// The graph type of that name.
    pub fn graph_type(&self, name: &str) -> Option<&GraphType>
        ensures { option_copied result ≡ type_in self.now name.now }
    {
        find_named(self.types.as_slice(), name)
    }

    /// All graphs, by ascending name.
    pub fn graphs(&self) -> &[(Text, Held)]
        ensures graphs { map bare result.now ≡ self.now.graphs }
        ensures catalog { IsTrue (is_catalog self.now) }
    {
        self.graphs.as_slice()
    }

    /// All graph types, by ascending name.
    pub fn types(&self) -> &[(Text, GraphType)]
        ensures { result.now ≡ self.now.types }
    {
        self.types.as_slice()
    }

    /// Adds a graph of a name that no graph has.
    pub fn insert_graph(&mut self, name: Text, held: Held) -> Result<(), OutOfMemory>
        requires { held_in self.old name ≡ None }
        ensures ok { OnOk result (self.new ≡ with_graph name (bare_held held) self.old) }
        ensures err { OnErr result (self.new ≡ self.old) }
    {
        // The count's clause says that the graph is one.
        let _count = held.graph.count_nodes();
        put_named(&mut self.graphs, name, held)
    }

    /// Takes the graph of that name away. Where there is none, all stays.
    pub fn remove_graph(&mut self, name: &str)
        ensures { self.new ≡ without_graph name.now self.old }
    {
        take_named(&mut self.graphs, name);
    }

    /// Adds a graph type of a name that no graph type has.
    pub fn insert_type(&mut self, name: Text, kind: GraphType) -> Result<(), OutOfMemory>
        requires { type_in self.old name ≡ None }
        ensures ok { OnOk result (self.new ≡ with_type name kind self.old) }
        ensures err { OnErr result (self.new ≡ self.old) }
    {
        put_named(&mut self.types, name, kind)
    }

    /// Takes the graph type of that name away. Where there is none, all stays.
    pub fn remove_type(&mut self, name: &str)
        ensures { self.new ≡ without_type name.now self.old }
    {
        take_named(&mut self.types, name);
    }
}

fn is_catalog(graphs: &[(Text, Held)], types: &[(Text, GraphType)]) -> bool
    ensures { result ≡ is_catalog (record { graphs = map bare graphs.now; types = types.now }) }
{
    show_graphs(graphs);
    keys_ascend(graphs) & keys_ascend(types)
}

// The count's clause says of each that it is one.
fn show_graphs(graphs: &[(Text, Held)])
    ensures { IsTrue (list_all (λ g. is_graph g.1.graph) (map bare graphs.now)) }
{
    for (_, held) in graphs {
        let _count = held.graph.count_nodes();
    }
}

fn find_graph<'a>(graphs: &'a [(Text, Held)], name: &str) -> Option<&'a Graph>
    ensures { option_copied result ≡ option_map (λ g. g.1.graph) (find (λ g. same_text name.now g.0) graphs.now) }
{
    graphs
        .iter()
        .find(|g| name == g.0.as_str())
        .map(|g| &g.1.graph)
}

fn copy_graphs(alloc: Global, graphs: &[(Text, Held)]) -> Result<Vec<(Text, Held)>, OutOfMemory>
    ensures { IfOk result (λ copies. map bare copies.items ≡ map bare graphs.now) }
{
    let mut copies = Vec::with_capacity(alloc, graphs.len())?;
    for (name, held) in graphs {
        copies.push((name.try_copy(alloc)?, held.try_copy(alloc)?))?;
    }
    Ok(copies)
}

// The names ascend, so at most one of them is the one that is looked for.
fn put_graph(graphs: &mut Vec<(Text, Held)>, name: &str, graph: Graph) -> Option<Graph>
    requires { IsTrue (texts_ascend (map (λ g. g.0) graphs.old.items)) }
    ensures put { map bare graphs.new.items ≡ (replaced name.now graph.graph (record { graphs = map bare graphs.old.items; types = [] })).graphs }
    ensures old { option_map (λ g. g.graph) result ≡ graph_of (record { graphs = map bare graphs.old.items; types = [] }) name.now }
{
    match place_of(graphs.as_slice(), name) {
        None => None,
        Some(at) => Some(replace(&mut graphs[at].1.graph, graph)),
    }
}

fn place_of(graphs: &[(Text, Held)], name: &str) -> Option<usize>
    ensures { result ≡ position (λ g. same_text name.now g.0) graphs.now }
{
    graphs.iter().position(|g| name == g.0.as_str())
}
