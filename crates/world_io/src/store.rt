//! A store of files, which are read in blocks of 4,096 bytes.
ghost use Rattle.std.specs.Prelude.{◌≡◌, ◌≤◌, ◌<◌, ℕ, length, IfSome};
ghost use Rattle.world_io.specs.Outside.{StoreState, KeepsFiles, Rose, Counts};
ghost use Rattle.world_io.specs.Looks.{LookSays, LookFits, look_failed};
ghost use Rattle.world_io.specs.Fetches.{FetchSays, FetchFits, fetch_failed};

use spec_base::Name;

/// How many bytes a block has.
pub const BLOCK: usize = 4096;

/// The answer to a look.
#[derive(Clone, Copy, Debug, PartialEq, Eq)]
pub enum Look {
    /// The file is there, and has so many bytes.
    Found(u64),
    /// There is no file of this name.
    Absent,
    /// The store failed, and counted it.
    Failed,
}

/// The answer to a fetch.
#[derive(Clone, Copy, Debug, PartialEq, Eq)]
pub enum Fetch {
    /// So many bytes stand at the front of the buffer. What follows them is left open.
    Got(usize),
    /// The store failed, and counted it.
    Failed,
}

/// Files by name. Calls are counted from 1 where the store says which of them fail.
pub trait Store {
    /// What the store holds and how often it failed.
    ghost state: { Self → StoreState };

    /// Looks for a file. It fails only where the count of faults rose.
    fn look(&mut self, name: &Name) -> Look
        ensures keeps { KeepsFiles (state self.old) (state self.new) }
        ensures failed { result ≡ Look.Failed → Rose (state self.old).faults (state self.new).faults }
        ensures told { IfSome (state self.old).files (λ files. LookSays (files name.now) result) }
        ensures size { LookFits result }
        ensures number { Counts (state self.old) (look_failed result) (state self.new) };

    /// Reads block `block` of a file into a buffer of 4,096 bytes: the bytes from `4096 * block` on,
    /// as many as there are up to 4,096. There are none past the end, nor of a file that isn't there.
    /// It fails only where the count of faults rose.
    fn fetch(&mut self, name: &Name, block: u64, into: &mut [u8]) -> Fetch
        requires { length into.old ≡ 4096 }
        ensures keeps { KeepsFiles (state self.old) (state self.new) }
        ensures failed { result ≡ Fetch.Failed → Rose (state self.old).faults (state self.new).faults }
        ensures told { IfSome (state self.old).files (λ files. FetchSays (files name.now) block result into.new) }
        ensures size { FetchFits result }
        ensures number { Counts (state self.old) (fetch_failed result) (state self.new) };
}
