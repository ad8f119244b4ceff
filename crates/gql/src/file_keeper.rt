//! The keeper of the program: records in a file by gql_keep_sql, or none where there is no store.
//!
//! It is a type without parameters: where a function with type parameters calls another at a type that has some too, as the
//! keeper over files has what they held, rattle may refuse what it made itself for the proof.
ghost use Rattle.std.specs.Prelude.{◌≡◌, ◌≤◌, false, Err, None, length, is_some, option_map, OnOk, OnErr};
ghost use Rattle.std.specs.Option.{option_copied};
ghost use Rattle.gql_ports.specs.Causes.{Rose, count_after};
ghost use Rattle.gql_ports.specs.Held.{held_after_opening};
ghost use Rattle.gql_keep_sql.specs.Told.{told_by};

use gql_keep_sql::SqlKeeper;
use gql_ports::{KeepFault, Keeper, Key, Record};
use std::alloc::Global;

/// Records in a SQLite file as a program opens it. Where there is no name nothing is kept, since the program ends with its
/// session and nothing asks for it.
#[derive(Drop)]
pub struct FileKeeper<'a> {
    keeper: SqlKeeper<'a>,
    /// Whether a store was opened by its name.
    is_named: bool,
}

impl<'a> FileKeeper<'a> {
    /// Opens nothing, and takes no memory.
    pub fn new(rt: &'a HostRuntime, alloc: Global) -> FileKeeper<'a> {
        FileKeeper {
            keeper: SqlKeeper::new(rt, alloc),
            is_named: false,
        }
    }

    /// Copies SQLite's log into the file, which then stands alone.
    pub fn close(self) -> Result<(), KeepFault> {
        let FileKeeper { keeper, .. } = self;
        keeper.close()
    }
}

impl<'a> Keeper for FileKeeper<'a> {
    ghost held = { λ k. told_by k.keeper };

    ghost count = { λ k. length k.keeper.keys };

    ghost faults = { λ k. k.keeper.faults };

    fn open(&mut self, name: Option<&str>) -> Result<(), KeepFault>
        ensures ok { OnOk result (told_by self.new.keeper ≡ option_map (held_after_opening (option_copied name.entry)) (told_by self.old.keeper)) }
        ensures err { OnErr result (told_by self.new.keeper ≡ told_by self.old.keeper) }
        ensures later { self.old.keeper.faults ≤ self.new.keeper.faults }
        ensures failed { result ≡ Err KeepFault.Failed → Rose self.old.keeper.faults self.new.keeper.faults }
        ensures risen { self.new.keeper.faults ≡ count_after result self.old.keeper.faults }
        ensures named { OnOk result (self.new.is_named ≡ is_some (option_copied name.entry)) }
    {
        self.keeper.open(name)?;
        self.is_named = name.is_some();
        Ok(())
    }

    fn keeps(&self) -> bool
        ensures told { result ≡ false → told_by self.now.keeper ≡ None }
        ensures named { result ≡ self.now.is_named }
    {
        self.is_named
    }

    fn len(&self) -> u64 {
        self.keeper.len()
    }

    fn fetch(&mut self, alloc: Global, index: u64) -> Result<Record, KeepFault> {
        self.keeper.fetch(alloc, index)
    }

    fn apply(&mut self, puts: &[Record], drops: &[Key]) -> Result<(), KeepFault> {
        self.keeper.apply(puts, drops)
    }
}
