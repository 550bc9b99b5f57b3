//! A store in memory that never fails.
ghost use Rattle.std.specs.Prelude.{◌≡◌, ◌≤◌, ◌<◌, ◌^◌, length, OnOk, OnErr, None};
ghost use Rattle.world_io.specs.Outside.{new_store, with_added};

use crate::file_map::FileMap;
use crate::store::{Fetch, Look, Store};
use spec_base::{Name, NoMemory};
use std::alloc::Global;

/// Files in memory. It tells its files and no numbers, and never fails.
#[derive(Drop)]
pub struct CleanStore {
    files: FileMap,
}

impl CleanStore {
    /// A store without files. It takes no memory.
    pub fn new(alloc: Global) -> Self
        ensures { ⟦<CleanStore as Store>⟧.state result ≡ new_store None }
    {
        CleanStore {
            files: FileMap::new(alloc),
        }
    }

    /// Adds a file of fewer than 2^56 bytes, in place of one of that name. After `NoMemory` the store
    /// is as before.
    pub fn add(&mut self, name: Name, bytes: &[u8]) -> Result<(), NoMemory>
        requires { length bytes.now < 2 ^ 56 }
        ensures added { OnOk result (⟦<CleanStore as Store>⟧.state self.new ≡ with_added (⟦<CleanStore as Store>⟧.state self.old) name bytes.now) }
        ensures err { OnErr result (⟦<CleanStore as Store>⟧.state self.new ≡ ⟦<CleanStore as Store>⟧.state self.old) }
    {
        self.files.add(name, bytes)
    }
}

impl Store for CleanStore {
    ghost use Rattle.std.specs.Prelude.{Some};
    ghost use Rattle.world_io.specs.FileMaps.{told};

    ghost state = { λ s. record { files = Some (told s.files); numbers = None; faults = 0 } };

    fn look(&mut self, name: &Name) -> Look {
        self.files.look(name)
    }

    fn fetch(&mut self, name: &Name, block: u64, into: &mut [u8]) -> Fetch {
        Fetch::Got(self.files.read(name, block, into))
    }
}
