//! Files in memory, by name.
ghost use Rattle.std.specs.Prelude.{◌≡◌, ◌≤◌, ◌<◌, ◌+◌, ◌-◌, ◌^◌, false, length, min, OnOk, OnErr, None, vec_len};
ghost use Rattle.world_io.specs.Outside.{with_file, no_files};
ghost use Rattle.world_io.specs.Looks.{LookSays, LookFits, look_failed};
ghost use Rattle.world_io.specs.Fetches.{HasBlock};

use crate::store::{BLOCK, Look};
use indexmap::IndexMap;
use spec_base::{Name, NoMemory};
use std::alloc::Global;

// The bytes of a file, of which there are fewer than 2^56.
#[derive(Drop)]
struct Content {
    bytes: Vec<u8>,
    ghost small: { vec_len bytes < 2 ^ 56 },
}

/// The files of a store in memory.
#[derive(Drop)]
pub struct FileMap {
    alloc: Global,
    files: IndexMap<Name, Content>,
}

impl FileMap {
    ghost use Rattle.world_io.specs.FileMaps.{told};

    /// No files. It takes no memory.
    pub fn new(alloc: Global) -> Self
        ensures { told result ≡ no_files }
    {
        FileMap {
            alloc,
            files: IndexMap::new(alloc),
        }
    }

    /// Adds a file, in place of one of that name. After `NoMemory` the files are as before.
    pub fn add(&mut self, name: Name, bytes: &[u8]) -> Result<(), NoMemory>
        requires { length bytes.now < 2 ^ 56 }
        ensures added { OnOk result (told self.new ≡ with_file (told self.old) name bytes.now) }
        ensures err { OnErr result (told self.new ≡ told self.old) }
    {
        let bytes = bytes.to_vec(self.alloc)?;
        self.files.insert(name, Content { bytes })?;
        Ok(())
    }

    /// The size of a file, or that it is absent.
    #[tactic(auto, unfolding(crate::specs::FileMaps::told))]
    pub fn look(&self, name: &Name) -> Look
        ensures told { LookSays (told self.now name.now) result }
        ensures size { LookFits result }
        ensures answers { look_failed result ≡ false }
    {
        match self.files.get(name) {
            Some(content) => Look::Found(content.bytes.len() as u64),
            None => Look::Absent,
        }
    }

    /// Copies a block of a file to the front of `into`, and returns how many bytes it has.
    #[tactic(auto, unfolding(crate::specs::FileMaps::told))]
    pub fn read(&self, name: &Name, block: u64, into: &mut [u8]) -> usize
        requires { length into.old ≡ 4096 }
        ensures told { HasBlock (told self.now name.now) block result into.new }
        ensures size { result ≤ 4096 }
    {
        let Some(content) = self.files.get(name) else {
            return 0;
        };
        let bytes = content.bytes.as_slice();
        if block > (bytes.len() / BLOCK) as u64 {
            return 0;
        }
        let rest = &bytes[block as usize * BLOCK..];
        let count = rest.len().min(BLOCK);
        into[..count].copy_from_slice(&rest[..count]);
        count
    }
}
