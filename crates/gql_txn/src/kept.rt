//! The catalog as it is kept, by what it differs in from the one that statements see.

ghost use Rattle.std.specs.Prelude.{◌≡◌, true, IfOk, OnOk, OnErr};
ghost use Rattle.gql_values3.specs.PropertyGraph.{PropertyGraph};
ghost use Rattle.gql_graph.specs.Catalog.{CatalogData, replaced};
ghost use Rattle.gql_txn.specs.Machinery.Meaning.{kept_of};

use gql_graph::{Catalog, Graph};
use gql_values3::{OutOfMemory, Text};
use std::alloc::Global;
use std::mem::replace;

/// The catalog as it is kept, beside the one that statements see.
#[derive(Debug, Drop)]
pub enum Kept {
    /// It is the same.
    Same,
    /// It has this graph in the place of the one of this name.
    OneGraph { name: Text, graph: Graph },
    /// It is this one.
    Whole(Catalog),
}

/// Keeps a copy of the whole catalog, before a change of any kind.
pub fn keep(alloc: Global, catalog: &Catalog, kept: &mut Kept) -> Result<(), OutOfMemory>
    ensures ok { OnOk result (kept.new ≡ Kept.Whole (kept_of catalog.now kept.old)) }
    ensures err { OnErr result (kept.new ≡ kept.old) }
{
    if let Kept::Whole(_) = kept {
        return Ok(());
    }
    let mut whole = catalog.try_copy(alloc)?;
    restore(&mut whole, replace(kept, Kept::Same));
    *kept = Kept::Whole(whole);
    Ok(())
}

/// Makes the catalog the kept one. It takes no memory.
pub fn restore(catalog: &mut Catalog, kept: Kept)
    ensures { catalog.new ≡ kept_of catalog.old kept }
{
    match kept {
        Kept::Same => {}
        Kept::OneGraph { name, graph } => {
            catalog.replace(name.as_str(), graph);
        }
        Kept::Whole(whole) => *catalog = whole,
    }
}

/// Puts the graph in the place of the one of that name. The kept catalog stays: where this is the first change, it keeps the
/// graph that was there, and no copy is made.
pub fn put_graph(
    alloc: Global,
    catalog: &mut Catalog,
    kept: &mut Kept,
    name: &str,
    graph: Graph,
) -> Result<(), OutOfMemory>
    ensures put { OnOk result (catalog.new ≡ replaced name.now graph.graph catalog.old) }
    ensures kept { OnOk result (kept_of catalog.new kept.new ≡ kept_of catalog.old kept.old) }
    ensures err { OnErr result (catalog.new ≡ catalog.old) }
    ensures err_kept { OnErr result (kept.new ≡ kept.old) }
{
    match kept {
        Kept::Same => {
            *kept = swap_graph(alloc, catalog, name, graph)?;
            Ok(())
        }
        _ => {
            if !stays(kept, name) {
                keep(alloc, catalog, kept)?;
            }
            catalog.replace(name, graph);
            Ok(())
        }
    }
}

/// Whether the kept catalog stays whatever graph has this name.
fn stays(kept: &Kept, name: &str) -> bool
    ensures { result ≡ true → (c : CatalogData) (g : PropertyGraph) → kept_of (replaced name.now g c) kept.now ≡ kept_of c kept.now }
{
    match kept {
        Kept::Same => false,
        Kept::OneGraph { name: own, .. } => own.as_str() == name,
        Kept::Whole(_) => true,
    }
}

/// Puts the graph in the place of the one of that name, and keeps that one.
fn swap_graph(
    alloc: Global,
    catalog: &mut Catalog,
    name: &str,
    graph: Graph,
) -> Result<Kept, OutOfMemory>
    ensures put { OnOk result (catalog.new ≡ replaced name.now graph.graph catalog.old) }
    ensures kept { IfOk result (λ kept. kept_of catalog.new kept ≡ catalog.old) }
    ensures err { OnErr result (catalog.new ≡ catalog.old) }
{
    // What every catalog is.
    let _graphs = catalog.graphs();
    let own = Text::from_str(alloc, name)?;
    match catalog.replace(name, graph) {
        None => Ok(Kept::Same),
        Some(graph) => Ok(Kept::OneGraph { name: own, graph }),
    }
}
