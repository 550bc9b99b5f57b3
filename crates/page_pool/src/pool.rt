//! The pool and its frames.

ghost use Rattle.std.specs.Prelude.{◌≡◌, ◌+◌, ◌<◌, ◌≤◌, ◌↔◌, false, true, length, Some, IsSome, is_some, slice_index_or, count_by, IfSome, IfNone, OnOk, OnErr, Err};
ghost use Rattle.std.specs.Borrow.{Lends, sem, Array, u8 as byte};
ghost use Rattle.page_pool.specs.Pages.{overwritten};
ghost use Rattle.page_pool.specs.Frames.{no_frames, reserved, with_bytes, frame_at, bytes_at, IsInUse, IsTaken, IsWritten, IsGiven, IsWithin};
ghost use Rattle.page_pool.specs.Storage.{used_count};

use crate::pages::Pages;
use std::alloc::{AllocError, Global};
use std::marker::Model;

/// A frame of a pool, which a contract sees as its number. A call with a frame needs that the pool
/// has a frame in use of this number. A frame that is dropped stays in use until its pool is dropped.
#[derive(Drop)]
pub struct Frame {
    number: usize,
}

impl Model for Frame {
    ghost use Rattle.std.specs.Prelude.{ℕ};

    ghost Value = { ℕ };

    ghost view = { λ f. f.number };
}

/// Why frames could not be reserved.
#[derive(Clone, Copy, Debug, Drop, PartialEq, Eq)]
pub enum PoolFault {
    /// More frames would be in use and spare than the pool may hold.
    Full,
    /// An allocation was refused.
    NoMemory,
}

impl From<AllocError> for PoolFault {
    ghost use Rattle.page_pool.specs.declared.pool.PoolFault.{PoolFault};

    ghost from_gives = { λ _ fault. fault ≡ PoolFault.NoMemory };

    fn from(_refused: AllocError) -> PoolFault {
        PoolFault::NoMemory
    }
}

/// Frames of 4,096 bytes, of which no two share a byte. `reserve` takes all memory; a frame's own is
/// first touched when something is written to it.
#[derive(Drop)]
pub struct Pool {
    most: usize,
    // Whether each frame that was ever taken is in use, by its number.
    used: Vec<bool>,
    // How many are.
    in_use: usize,
    // How many are in use or spare.
    total: usize,
    // Where the next frame that isn't in use is looked for first.
    next: usize,
    // The pages of all frames, by their numbers.
    pages: Pages,
}

impl Model for Pool {
    ghost use Rattle.std.specs.Prelude.{◌-◌};
    ghost use Rattle.page_pool.specs.Frames.{Frames};

    ghost Value = { Frames };

    ghost use Rattle.page_pool.specs.Storage.{IsSound, frames_from};

    ghost view = { λ p. record {
      frames = frames_from p.pages.pages 0 p.used.items;
      in_use = p.in_use;
      spare = p.total - p.in_use;
      most = p.most;
    } };

    ghost invariant = { IsSound };
}

impl Pool {
    ghost use Rattle.page_pool.specs.contracts.pool.Pool.{the_row};

    /// A pool that may hold `most` frames, and holds none.
    pub fn new(alloc: Global, most: usize) -> Pool
        ensures { result ≡ no_frames most }
    {
        Pool {
            most,
            used: Vec::new(alloc),
            in_use: 0,
            total: 0,
            next: 0,
            pages: Pages::new(alloc),
        }
    }

    /// How many frames are spare.
    pub fn spare(&self) -> usize
        ensures value { result ≡ self.now.spare }
        ensures within { IsWithin self.now }
    {
        self.total - self.in_use
    }

    /// How many frames are in use.
    pub fn in_use(&self) -> usize
        ensures value { result ≡ self.now.in_use }
        ensures counted { result ≡ count_by is_some self.now.frames }
        ensures within { IsWithin self.now }
    {
        self.in_use
    }

    /// Sees to it that at least `n` frames are spare.
    pub fn reserve(&mut self, n: usize) -> Result<(), PoolFault>
        ensures ok { OnOk result (self.new ≡ reserved self.old n) }
        ensures full { (result ≡ Err PoolFault.Full) ↔ (self.old.most < self.old.in_use + n) }
        ensures refused { OnErr result (self.new ≡ self.old) }
    {
        if n > self.most - self.in_use {
            return Err(PoolFault::Full);
        }
        let count = self.in_use + n;
        if count <= self.total {
            return Ok(());
        }
        self.used.reserve(count - self.used.len())?;
        self.pages.reserve(count)?;
        self.total = count;
        Ok(())
    }

    /// Takes a spare frame, whose bytes are zero, into use.
    pub fn take(&mut self) -> Option<Frame>
        ensures some { IsSome result ↔ (0 < self.old.spare) }
        ensures taken { IfSome result (λ frame. IsTaken self.old self.new frame) }
        ensures none { IfNone result (self.new ≡ self.old) }
    {
        if self.in_use == self.total {
            return None;
        }
        let number = if self.in_use == self.used.len() {
            self.used.push_reserved(true);
            self.in_use
        } else {
            let number = free_number(&self.used, self.next)?;
            self.used[number] = true;
            number
        };
        self.in_use += 1;
        self.next = number + 1;
        Some(Frame { number })
    }

    /// Takes a frame out of use, which is then spare.
    pub fn give(&mut self, frame: Frame)
        requires { IsInUse self.old frame }
        ensures { IsGiven self.old self.new frame }
    {
        let number = frame.number;
        self.pages.clear(number);
        self.used[number] = false;
        self.in_use -= 1;
        self.next = number;
    }

    /// The 4,096 bytes of a frame.
    pub fn bytes(&self, frame: &Frame) -> &[u8]
        requires { IsInUse self.now frame.now }
        ensures value { result.now ≡ bytes_at self.now frame.now }
        ensures lookup { frame_at self.now frame.now ≡ Some result.now }
        ensures len { length result.now ≡ 4096 }
    {
        self.pages.bytes(frame.number)
    }

    /// The 4,096 bytes of a frame, for writing.
    pub fn bytes_mut(&mut self, frame: &Frame) -> &mut [u8]
        requires { IsInUse self.old frame.now }
        ensures* writes_back { sem 𝓛 (Lends the_row (Array byte 0) self.entry result (with_bytes self.old frame.now)) }
        ensures value { result.now ≡ bytes_at self.old frame.now }
        ensures len { length result.now ≡ 4096 }
    {
        self.pages.bytes_mut(frame.number)
    }

    /// Writes bytes over those of a frame from `at` on.
    #[inline(always)]
    pub fn write(&mut self, frame: &Frame, at: usize, bytes: &[u8])
        requires in_use { IsInUse self.old frame.now }
        requires fits { at + length bytes.now ≤ 4096 }
        ensures { IsWritten self.old self.new frame.now (overwritten (bytes_at self.old frame.now) at bytes.now) }
    {
        self.pages.write(frame.number, at, bytes);
    }

    /// Copies the bytes of a frame to another.
    pub fn copy(&mut self, from: &Frame, to: &Frame)
        requires from { IsInUse self.old from.now }
        requires to { IsInUse self.old to.now }
        ensures { IsWritten self.old self.new to.now (bytes_at self.old from.now) }
    {
        let page = self.pages.copied(from.number);
        self.pages.set(to.number, page);
    }
}

// The number of a frame that isn't in use: `first`, or else the least. None where each is in use.
#[tactic(auto, using(crate::proofs::StorageLemmas::used_count_next, crate::proofs::StorageLemmas::used_count_all))]
fn free_number(used: &[bool], first: usize) -> Option<usize>
    ensures some { IfSome result (λ k. slice_index_or used.now k true ≡ false) }
    ensures none { IfNone result (used_count used.now ≡ length used.now) }
{
    if first < used.len() && !used[first] {
        return Some(first);
    }
    let mut number = 0;
    while number < used.len() {
        if !used[number] {
            return Some(number);
        }
        number += 1;
    }
    None
}
