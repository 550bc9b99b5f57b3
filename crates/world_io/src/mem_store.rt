//! A store in memory, some of whose calls fail by their numbers.
ghost use Rattle.spec_base.specs.Listed.{is_listed};
ghost use Rattle.std.specs.Prelude.{◌≡◌, ◌≤◌, ◌<◌, ◌+◌, ◌-◌, ◌^◌, ℕ, length, min, OnOk, OnErr, Some, IfSome};
ghost use Rattle.world_io.specs.Outside.{KeepsFiles, Rose, Counts, faults_after, next_number, new_store, with_added};
ghost use Rattle.world_io.specs.Looks.{LookSays, LookFits, look_failed};
ghost use Rattle.world_io.specs.Fetches.{FetchSays, FetchFits, fetch_failed};

use crate::file_map::FileMap;
use crate::store::{Fetch, Look, Store};
use spec_base::{Name, NoMemory};
use std::alloc::Global;

/// Files in memory. Calls of `look` and `fetch` are counted together, from 1, and those whose
/// numbers are listed fail. It tells its files and its numbers, and counts its failures.
#[derive(Drop)]
pub struct MemStore {
    files: FileMap,
    fails: Vec<u64>,
    calls: u64,
    faults: u64,
}

impl MemStore {
    /// A store without files, of whose calls those with these numbers fail. It takes no memory.
    pub fn new(alloc: Global, fails: Vec<u64>) -> Self
        ensures { ⟦<MemStore as Store>⟧.state result ≡ new_store (Some (record { calls = 0; fails = fails.items })) }
    {
        MemStore {
            files: FileMap::new(alloc),
            fails,
            calls: 0,
            faults: 0,
        }
    }

    /// Adds a file of fewer than 2^56 bytes, in place of one of that name. It counts as no call.
    /// After `NoMemory` the store is as before.
    pub fn add(&mut self, name: Name, bytes: &[u8]) -> Result<(), NoMemory>
        requires { length bytes.now < 2 ^ 56 }
        ensures added { OnOk result (⟦<MemStore as Store>⟧.state self.new ≡ with_added (⟦<MemStore as Store>⟧.state self.old) name bytes.now) }
        ensures err { OnErr result (⟦<MemStore as Store>⟧.state self.new ≡ ⟦<MemStore as Store>⟧.state self.old) }
    {
        self.files.add(name, bytes)
    }

    // Counts a call, and says whether it fails.
    fn next_fails(&mut self) -> bool
        ensures files { self.new.files ≡ self.old.files }
        ensures fails { self.new.fails ≡ self.old.fails }
        ensures calls { self.new.calls ≡ next_number self.old.calls }
        ensures faults { self.new.faults ≡ faults_after self.old.faults result }
        ensures later { self.old.faults ≤ self.new.faults }
        ensures listed { result ≡ is_listed self.old.fails.items (next_number self.old.calls) }
    {
        self.calls = self.calls.saturating_add(1);
        let fails = self.fails.contains(&self.calls);
        if fails {
            self.faults = self.faults.saturating_add(1);
        }
        fails
    }
}

impl Store for MemStore {
    ghost use Rattle.world_io.specs.MemStores.{told_of_store};

    ghost state = { told_of_store };

    fn look(&mut self, name: &Name) -> Look
        ensures keeps { KeepsFiles (told_of_store self.old) (told_of_store self.new) }
        ensures failed { result ≡ Look.Failed → Rose (told_of_store self.old).faults (told_of_store self.new).faults }
        ensures told { IfSome (told_of_store self.old).files (λ files. LookSays (files name.now) result) }
        ensures size { LookFits result }
        ensures number { Counts (told_of_store self.old) (look_failed result) (told_of_store self.new) }

        // The count of faults is the number of failures.
        ensures counted { (told_of_store self.new).faults ≡ faults_after (told_of_store self.old).faults (look_failed result) }
    {
        if self.next_fails() {
            return Look::Failed;
        }
        self.files.look(name)
    }

    fn fetch(&mut self, name: &Name, block: u64, into: &mut [u8]) -> Fetch
        requires { length into.old ≡ 4096 }
        ensures keeps { KeepsFiles (told_of_store self.old) (told_of_store self.new) }
        ensures failed { result ≡ Fetch.Failed → Rose (told_of_store self.old).faults (told_of_store self.new).faults }
        ensures told { IfSome (told_of_store self.old).files (λ files. FetchSays (files name.now) block result into.new) }
        ensures size { FetchFits result }
        ensures number { Counts (told_of_store self.old) (fetch_failed result) (told_of_store self.new) }

        // The count of faults is the number of failures.
        ensures counted { (told_of_store self.new).faults ≡ faults_after (told_of_store self.old).faults (fetch_failed result) }
    {
        if self.next_fails() {
            return Fetch::Failed;
        }
        Fetch::Got(self.files.read(name, block, into))
    }
}
