//! A catalog under transactions.

ghost use Rattle.std.specs.Prelude.{◌≡◌, ◌≢◌, ◌≤◌, ℕ, List, Err, Some, None, true, IfOk, IfErr, OnOk, OnErr, MatchResult, ◌⊎◌, IsTrue, is_some};
ghost use Rattle.std.specs.Option.{option_copied};
ghost use Rattle.gql_graph.specs.Catalog.{CatalogData, held_in, type_in, with_graph, without_graph, with_type, without_type, replaced};
ghost use Rattle.gql_ports.specs.Causes.{Rose};
ghost use Rattle.gql_ports.specs.Held.{Holding};
ghost use Rattle.gql_rowcode.specs.StandFor.{StandFor};
ghost use Rattle.gql_rowcode.specs.FirstBad.{FirstBad};
ghost use Rattle.gql_type.specs.GraphTypes.{is_graph_type};
ghost use Rattle.gql_type.specs.SoundCatalog.{is_sound};
ghost use Rattle.gql_txn.specs.TxnData.{settled, with_catalog, misfit_in, new_graph};
ghost use Rattle.gql_txn.specs.Edits.{IsMisfit, is_unused};
ghost use Rattle.gql_txn.specs.Faults.{after_commit, after_loading};
ghost use Rattle.gql_txn.specs.Keeps.{Keeps, IsSameStore};
ghost use Rattle.gql_txn.specs.Loads.{LoadCause, is_lack};

use crate::commit::CommitFault;
use crate::edit::EditFault;
use crate::kept::{Kept, keep, put_graph, restore};
use crate::load::{LoadFault, load_opened};
use crate::misfit::{misfit_in, new_held};
use crate::store::store;
use gql_ast::AccessMode;
use gql_graph::{Catalog, Graph, GraphType};
use gql_ports::Keeper;
use gql_values3::{OutOfMemory, Text};
use std::alloc::Global;
use std::marker::Model;
use std::mem::replace;

/// The catalog that statements see, the one that is kept, and the open transaction.
#[derive(Debug, Drop)]
pub struct Txn {
    catalog: Catalog,
    /// Told by what it differs in from the catalog, so that nothing is copied before the first change.
    kept: Kept,
    access: Option<AccessMode>,
}

impl Model for Txn {
    ghost use Rattle.std.specs.Prelude.{IsTrue};
    ghost use Rattle.gql_type.specs.SoundCatalog.{is_sound};
    ghost use Rattle.gql_txn.specs.TxnData.{TxnData};
    ghost use Rattle.gql_txn.specs.Machinery.Meaning.{kept_of};

    ghost Value = { TxnData };

    ghost use Rattle.std.specs.Coded.{codes};
    ghost use Rattle.gql_values3.specs.Datum.{coded_datum};

    ghost coded = { Prim.hlevel (codes, coded_datum) };

    ghost view = { λ t. record { catalog = t.catalog; kept = kept_of t.catalog t.kept; access = t.access } };

    ghost invariant = { λ t. IsTrue (is_sound t.catalog) × IsTrue (is_sound (kept_of t.catalog t.kept)) };
}

impl Txn {
    /// The catalog for which the records of an open store stand.
    pub fn load<K: Keeper>(alloc: Global, keeper: &mut K) -> Result<Txn, LoadFault>
        ensures settled { IfOk result (λ t. t ≡ settled t.catalog) }
        ensures found { (h : Holding) → K.held keeper.old ≡ Some h → MatchResult result (λ t. (t ≡ settled t.catalog) × StandFor h.records t.catalog) (LoadCause h.records) }
        ensures at_fault { (h : Holding) (i : ℕ) → K.held keeper.old ≡ Some h → FirstBad h.records i → MatchResult result (λ _. ⊥) (λ e. (e ≡ LoadFault.BadRecord i) ⊎ IsTrue (is_lack e)) }
        ensures complete { (h : Holding) (c : CatalogData) → K.held keeper.old ≡ Some h → StandFor h.records c → MatchResult result (λ t. t.catalog ≡ c) (λ e. IsTrue (is_lack e)) }
        ensures kept { K.held keeper.new ≡ K.held keeper.old }
        ensures later { K.faults keeper.old ≤ K.faults keeper.new }
        ensures failed { result ≡ Err LoadFault.Failed → Rose (K.faults keeper.old) (K.faults keeper.new) }
        ensures risen { K.faults keeper.new ≡ after_loading result (K.faults keeper.old) }
    {
        match load_opened(alloc, keeper) {
            Ok(catalog) => Ok(Txn {
                catalog,
                kept: Kept::Same,
                access: None,
            }),
            Err(fault) => Err(fault),
        }
    }

    /// The catalog that statements see. It is sound.
    pub fn catalog(&self) -> &Catalog
        ensures same { result.now ≡ self.now.catalog }
        ensures sound { IsTrue (is_sound self.now.catalog) }
    {
        &self.catalog
    }

    /// What the open transaction may do, or None where none is open.
    pub fn access(&self) -> Option<AccessMode>
        ensures { result ≡ self.now.access }
    {
        self.access
    }

    /// Whether nothing was changed since the catalog was kept. It looks at nothing, so that it may say no although what was
    /// changed was changed back.
    pub fn is_unchanged(&self) -> bool
        ensures { result ≡ true → self.now.catalog ≡ self.now.kept }
    {
        match &self.kept {
            Kept::Same => true,
            _ => false,
        }
    }

    /// Opens a transaction.
    pub fn begin(&mut self, mode: AccessMode)
        ensures { self.new ≡ record self.old { access = Some mode } }
    {
        self.access = Some(mode);
    }

    /// Puts the graph in the place of the one of that name, where it fits that one's type.
    pub fn replace_graph(
        &mut self,
        alloc: Global,
        name: &str,
        graph: Graph,
    ) -> Result<(), EditFault>
        ensures ok { OnOk result ((self.new ≡ with_catalog self.old (replaced name.now graph.graph self.old.catalog)) × (misfit_in self.old.catalog name.now graph.graph ≡ None)) }
        ensures misfit { IfErr result (IsMisfit self.old.catalog name.now graph.graph) }
        ensures err { OnErr result (self.new ≡ self.old) }
    {
        if let Some(misfit) = misfit_in(&self.catalog, name, &graph) {
            return Err(EditFault::Misfit(misfit));
        }
        put_graph(alloc, &mut self.catalog, &mut self.kept, name, graph)?;
        // What every catalog is.
        let _graphs = self.catalog.graphs();
        Ok(())
    }

    /// Adds a graph without elements, of the type of this name, where one is given.
    pub fn create_graph(
        &mut self,
        alloc: Global,
        name: &Text,
        kind: Option<&Text>,
    ) -> Result<(), OutOfMemory>
        requires free { held_in self.old.catalog name.now ≡ None }
        requires typed { (t : List ℕ) → option_copied kind ≡ Some t → IsTrue (is_some (type_in self.old.catalog t)) }
        ensures ok { OnOk result (self.new ≡ with_catalog self.old (with_graph name.now (new_graph (option_copied kind.entry)) self.old.catalog)) }
        ensures err { OnErr result (self.new ≡ self.old) }
    {
        let name = name.try_copy(alloc)?;
        let held = new_held(alloc, kind)?;
        keep(alloc, &self.catalog, &mut self.kept)?;
        self.catalog.insert_graph(name, held)?;
        let _graphs = self.catalog.graphs();
        Ok(())
    }

    /// Takes the graph of that name away.
    pub fn drop_graph(&mut self, alloc: Global, name: &Text) -> Result<(), OutOfMemory>
        ensures ok { OnOk result (self.new ≡ with_catalog self.old (without_graph name.now self.old.catalog)) }
        ensures err { OnErr result (self.new ≡ self.old) }
    {
        keep(alloc, &self.catalog, &mut self.kept)?;
        self.catalog.remove_graph(name.as_str());
        let _graphs = self.catalog.graphs();
        Ok(())
    }

    /// Adds a graph type.
    pub fn create_type(
        &mut self,
        alloc: Global,
        name: &Text,
        kind: GraphType,
    ) -> Result<(), OutOfMemory>
        requires free { type_in self.old.catalog name.now ≡ None }
        requires in_order { IsTrue (is_graph_type kind) }
        ensures ok { OnOk result (self.new ≡ with_catalog self.old (with_type name.now kind self.old.catalog)) }
        ensures err { OnErr result (self.new ≡ self.old) }
    {
        let name = name.try_copy(alloc)?;
        keep(alloc, &self.catalog, &mut self.kept)?;
        self.catalog.insert_type(name, kind)?;
        let _graphs = self.catalog.graphs();
        Ok(())
    }

    /// Takes the graph type of that name away, which no graph has.
    pub fn drop_type(&mut self, alloc: Global, name: &Text) -> Result<(), OutOfMemory>
        requires { IsTrue (is_unused name.now self.old.catalog) }
        ensures ok { OnOk result (self.new ≡ with_catalog self.old (without_type name.now self.old.catalog)) }
        ensures err { OnErr result (self.new ≡ self.old) }
    {
        keep(alloc, &self.catalog, &mut self.kept)?;
        self.catalog.remove_type(name.as_str());
        let _graphs = self.catalog.graphs();
        Ok(())
    }

    /// Keeps the catalog in the store. Where that fails, the catalog is the kept one again. No transaction is open behind it.
    pub fn commit<K: Keeper>(&mut self, alloc: Global, keeper: &mut K) -> Result<(), CommitFault>
        ensures ok { OnOk result (self.new ≡ settled self.old.catalog) }
        ensures err { OnErr result (self.new ≡ settled self.old.kept) }
        ensures stored { Keeps (K.held keeper.old) self.old.kept → OnOk result (Keeps (K.held keeper.new) self.old.catalog) }
        ensures stays { OnErr result (K.held keeper.new ≡ K.held keeper.old) }
        ensures same { IsSameStore (K.held keeper.old) (K.held keeper.new) }
        ensures idle { self.old.catalog ≡ self.old.kept → (K.held keeper.new ≡ K.held keeper.old) × (K.faults keeper.new ≡ K.faults keeper.old) × (result ≢ Err CommitFault.Store) }
        ensures later { K.faults keeper.old ≤ K.faults keeper.new }
        ensures failed { result ≡ Err CommitFault.Store → Rose (K.faults keeper.old) (K.faults keeper.new) }
        ensures risen { K.faults keeper.new ≡ after_commit result (K.faults keeper.old) }
    {
        self.access = None;
        let kept = replace(&mut self.kept, Kept::Same);
        match store(alloc, keeper, &kept, &self.catalog) {
            Ok(()) => Ok(()),
            Err(fault) => {
                restore(&mut self.catalog, kept);
                Err(fault)
            }
        }
    }

    /// The catalog is the kept one again, and no transaction is open. It takes no memory.
    pub fn rollback(&mut self)
        ensures { self.new ≡ settled self.old.kept }
    {
        let kept = replace(&mut self.kept, Kept::Same);
        restore(&mut self.catalog, kept);
        self.access = None;
    }
}
