//! The keeper over SQLite, or memory, which keeps the keys of its store at hand.

ghost use Rattle.std.specs.Prelude.{◌≡◌, ◌≢◌, ◌⊎◌, ◌≤◌, ◌<◌, ◌++◌, ℕ, List, [], Option, Some, None, Ok, Err, option_map, length, map, Bool, true, false, ◌+◌, IfOk, OnOk, OnErr, IfSome, IsTrue, is_ok, slice_get};
ghost use Rattle.std.specs.Option.{option_copied};
ghost use Rattle.gql_values3.specs.Texts.{texts_differ, texts_ascend};
ghost use Rattle.gql_ports.specs.Causes.{Rose, count_after};
ghost use Rattle.gql_ports.specs.Told.{MatchTold};
ghost use Rattle.gql_ports.specs.Held.{held_after_opening, keys_ascend, Applies};
ghost use Rattle.sqlite.specs.Files.{over_files};
ghost use Rattle.sqlite.specs.WalFiles.{image_at};
ghost use Rattle.gql_keep_sql.specs.Told.{told_by};
ghost use Rattle.gql_keep_sql.specs.Keys.{has_key, keys_of, stands_after};
ghost use Rattle.gql_keep_sql.specs.declared.place.Place.TheVariants.{Nowhere};
ghost use Rattle.gql_keep_sql.specs.Fetched.{Fetches, FailsToFetch, AreAllKeys};
ghost use Rattle.gql_keep_sql.specs.Closing.{IsClosed, FailsToClose};
ghost use Rattle.gql_keep_sql.specs.Places.{IsUnder, IsFile, IsSamePlace};
ghost use Rattle.gql_keep_sql.specs.Refusals.{FailsOnlyBy, FailedBy};
ghost use Rattle.gql_keep_sql.specs.Written.{Writes, FailsToWrite};
ghost use Rattle.gql_keep_sql.specs.Machinery.Merge.{stands_under};
ghost use Rattle.std.specs.Vec.{vec_capacity};

use crate::changes::Changes;
use crate::fault::{NOT_A_STORE, counted};
use crate::keys::Keys;
use crate::place::{Place, StoreFiles, Supposed};
use crate::reader::{self, Reader};
use gql_ports::{KeepFault, Keeper, Key, Record};
use sqlite::{Alter, Error, Start, Wary};
use std::alloc::Global;

/// Records in a SQLite file, or in memory where there is no name, as a program opens them: its commits survive a power cut,
/// whatever a torn write leaves. Of a file that is not empty, what is said of values is said over any `S: Start` in place of
/// `Wary`.
pub type SqlKeeper<'a> = KeeperOver<'a, StoreFiles<Wary>>;

/// The same over a store of any kind.
#[derive(Drop)]
pub struct KeeperOver<'a, S: Alter> {
    rt: &'a HostRuntime,
    alloc: Global,
    reader: Reader<S>,
    keys: Keys,
    /// How many calls failed.
    faults: u64,
}

impl<'a, S: Alter> KeeperOver<'a, S> {
    /// Opens nothing, and takes no memory.
    pub fn new(rt: &'a HostRuntime, alloc: Global) -> KeeperOver<'a, S>
        ensures keys { result.keys ≡ [] }
        ensures place { result.reader.place ≡ Nowhere }
        ensures faults { result.faults ≡ 0 }
    {
        KeeperOver {
            rt,
            alloc,
            reader: Reader::new(alloc, Place::Nowhere),
            keys: Keys::new(alloc),
            faults: 0,
        }
    }
}

impl<'a, S: Start> KeeperOver<'a, StoreFiles<S>> {
    /// Copies SQLite's log into the file, which then stands alone. Without it the log stays beside the file, and the next
    /// opening reads both.
    pub fn close(self) -> Result<(), KeepFault>
        ensures closed { OnOk result (IsClosed self.entry.reader.place) }
        ensures memory { OnErr result (IsFile self.entry.reader.place) }
        ensures refused { FailedBy result (FailsToClose self.entry.reader.place) }
    {
        let mut faults = self.faults;
        counted(&mut faults, reader::close(self.reader))
    }
}

impl<'a, S: Start + Supposed> Keeper for KeeperOver<'a, StoreFiles<S>> {
    ghost held = { told_by };

    ghost count = { λ k. length k.keys };

    ghost faults = { λ k. k.faults };

    fn open(&mut self, name: Option<&str>) -> Result<(), KeepFault>
        ensures ok { OnOk result (told_by self.new ≡ option_map (held_after_opening (option_copied name.entry)) (told_by self.old)) }
        ensures err { OnErr result (told_by self.new ≡ told_by self.old) }
        ensures later { self.old.faults ≤ self.new.faults }
        ensures failed { result ≡ Err KeepFault.Failed → Rose self.old.faults self.new.faults }
        ensures risen { self.new.faults ≡ count_after result self.old.faults }
        ensures under { OnOk result (IsUnder (option_copied name.entry) self.new.reader.place) }
        ensures listed { OnOk result (AreAllKeys over_files (image_at S.Start) self.new.keys self.new.reader.place ⊎ ((self.new.keys ≡ self.old.keys) × (self.new.reader.place ≡ self.old.reader.place))) }
        ensures kept { OnErr result ((self.new.keys ≡ self.old.keys) × (self.new.reader.place ≡ self.old.reader.place)) }
        ensures memory { option_copied name.entry ≡ None → result ≢ Err KeepFault.Failed }
        ensures own { IsUnder (option_copied name.entry) self.old.reader.place → (result ≡ Ok tt) × (self.new ≡ self.old) }
    {
        if self.reader.is_open_as(name) {
            return Ok(());
        }
        let opened = reader::open(self.rt, self.alloc, name);
        let (reader, keys) = counted(&mut self.faults, opened)?;
        self.reader = reader;
        self.keys = keys;
        Ok(())
    }

    fn keeps(&self) -> bool
        ensures told { result ≡ false → told_by self.now ≡ None }
        ensures always { result ≡ true }
    {
        true
    }

    fn len(&self) -> u64
        ensures count { result ≡ length self.now.keys }
        ensures told { IfSome (told_by self.now) (λ h. result ≡ length h.records) }
        ensures ordered { IfSome (told_by self.now) (λ h. IsTrue (keys_ascend h.records)) }
        ensures ascending { texts_ascend self.now.keys ≡ true }
    {
        self.keys.len() as u64
    }

    fn fetch(&mut self, alloc: Global, index: u64) -> Result<Record, KeepFault>
        requires { index < length self.old.keys }
        ensures found { IfOk result (λ r. IfSome (told_by self.old) (λ h. slice_get h.records index ≡ Some r)) }
        ensures kept { told_by self.new ≡ told_by self.old }
        ensures same { length self.new.keys ≡ length self.old.keys }
        ensures later { self.old.faults ≤ self.new.faults }
        ensures failed { result ≡ Err KeepFault.Failed → Rose self.old.faults self.new.faults }
        ensures risen { self.new.faults ≡ count_after result self.old.faults }
        ensures key { IfOk result (λ r. slice_get self.old.keys index ≡ Some r.key) }
        ensures value { IfOk result (λ r. ∥ Fetches over_files r.key r.value self.old.reader.place self.new.reader.place ∥₁) }
        ensures keys { self.new.keys ≡ self.old.keys }
        ensures place { IsSamePlace over_files self.old.reader.place self.new.reader.place }
        ensures refused { FailedBy result (λ e. IfSome (slice_get self.old.keys index) (λ key. FailsToFetch over_files index key self.old.reader.place self.new.reader.place e)) }
    {
        let Some(key) = self.keys.get(index as usize) else {
            unreachable!()
        };
        let fetched = self.reader.fetch(alloc, index, key);
        counted(&mut self.faults, fetched)
    }

    fn apply(&mut self, puts: &[Record], drops: &[Key]) -> Result<(), KeepFault>
        requires { IsTrue (texts_differ (map (λ r. r.key) puts.now ++ drops.now)) }
        ensures ok { OnOk result (MatchTold (told_by self.old) (told_by self.new) (Applies puts.now drops.now)) }
        ensures err { OnErr result (told_by self.new ≡ told_by self.old) }
        ensures later { self.old.faults ≤ self.new.faults }
        ensures failed { result ≡ Err KeepFault.Failed → Rose self.old.faults self.new.faults }
        ensures risen { self.new.faults ≡ count_after result self.old.faults }
        ensures stand { OnOk result ((key : List ℕ) → has_key self.new.keys key ≡ stands_after puts.now drops.now key (has_key self.old.keys key)) }
        ensures kept { OnErr result (self.new.keys ≡ self.old.keys) }
        ensures writes { Writes over_files puts.now drops.now (is_ok result) self.old.reader.place self.new.reader.place }
        ensures refused { FailedBy result (FailsToWrite over_files puts.now drops.now self.old.reader.place self.new.reader.place) }
    {
        let written = self.write(puts, drops);
        let (changes, room) = counted(&mut self.faults, written)?;
        self.keys.change(changes, room);
        Ok(())
    }
}

impl<'a, S: Alter> KeeperOver<'a, S> {
    /// Writes all in one transaction, or nothing. The changes of the keys and the room for them are made before.
    fn write(&mut self, puts: &[Record], drops: &[Key]) -> Result<(Changes, Vec<Key>), Error>
        ensures keys { self.new.keys ≡ self.old.keys }
        ensures faults { self.new.faults ≡ self.old.faults }
        ensures writes { Writes S.Store puts.now drops.now (is_ok result) self.old.reader.place self.new.reader.place }
        ensures refused { FailsOnlyBy result (λ e. (texts_differ (keys_of puts.now ++ drops.now) ≡ false) ⊎ FailsToWrite S.Store puts.now drops.now self.old.reader.place self.new.reader.place e) }
        ensures stand { IfOk result (λ ready. (key : List ℕ) (before : Bool) → stands_under ready.0 key before ≡ stands_after puts.now drops.now key before) }
        ensures empty { IfOk result (λ ready. ready.1.items ≡ []) }
        ensures room { IfOk result (λ ready. length self.old.keys + length ready.0 ≤ vec_capacity ready.1) }
    {
        let Some(changes) = Changes::of(self.alloc, puts, drops)? else {
            return Err(NOT_A_STORE);
        };
        let room = self.keys.room_for(self.alloc, &changes)?;
        self.reader.write(puts, drops)?;
        Ok((changes, room))
    }
}
