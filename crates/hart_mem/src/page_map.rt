//! A flat memory in pages: each page has a frame of a pool, or none and reads as zero.

ghost use Rattle.std.specs.Prelude.{ℕ, ◌≡◌, ◌≢◌, ◌+◌, ◌-◌, ◌*◌, ◌/◌, ◌%◌, ◌^◌, ◌<◌, ◌≤◌, ◌||◌, ◌⊎◌, IsTrue, nat_lt, if◌then◌else◌, true, false, length, take, Err, IfOk, OnOk, OnErr};
ghost use Rattle.page_pool.specs.Frames.{reserved};
ghost use Rattle.rv_model.specs.Memory.{bytes_at, loaded, written};
ghost use Rattle.hart_mem.specs.Access.{IsWidth};
ghost use Rattle.hart_mem.specs.Paged.{flat, held_count, is_held, lacking, IsEmpty, AreHeld, TakesPages, end_page};

use crate::number::number;
use page_pool::{Frame, PAGE_BYTES, Pool, PoolFault};
use spec_base::NoMemory;
use std::alloc::Global;
use std::marker::Model;

/// A contract sees the frame's number of each page, and the pool.
#[derive(Drop)]
pub(crate) struct PageMap {
    table: Vec<Option<Frame>>,
    pool: Pool,
}

impl Model for PageMap {
    ghost use Rattle.hart_mem.specs.Paged.{Paged};

    ghost Value = { Paged };

    ghost use Rattle.hart_mem.specs.Paged.{IsSound};

    ghost view = { λ m. record { table = m.table.items; pool = m.pool } };

    ghost invariant = { λ m. IsSound (record { table = m.table.items; pool = m.pool }) };
}

impl PageMap {
    /// A memory of so many pages, none of which has a frame. The pool's bound leaves room for
    /// each of them, and for 17 spare frames.
    pub fn new(alloc: Global, pages: usize, most: usize) -> Result<PageMap, NoMemory>
        requires { pages + 17 ≤ most }
        ensures { IfOk result (λ map. IsEmpty map pages most) }
    {
        let mut table = Vec::new(alloc);
        for _ in 0..pages {
            table.push(None)?;
        }
        Ok(PageMap {
            table,
            pool: Pool::new(alloc, most),
        })
    }

    /// How many frames are spare.
    pub fn spare(&self) -> usize
        ensures { result ≡ self.now.pool.spare }
    {
        self.pool.spare()
    }

    // How many of the pages from `first` up to `end` have no frame.
    fn lacking(&self, first: usize, end: usize) -> usize
        requires order { first ≤ end }
        requires inside { end ≤ length self.now.table }
        ensures { result ≡ lacking self.now first end }
    {
        self.table[first..end]
            .iter()
            .filter(|frame| frame.is_none())
            .count()
    }

    // The pool's bound leaves room for these, so the pool is never full.
    fn reserve_frames(&mut self, n: usize) -> Result<(), PoolFault>
        requires { held_count self.old + n ≤ length self.old.table + 17 }
        ensures never_full { result ≢ Err PoolFault.Full }
        ensures ok { OnOk result (self.new ≡ record self.old { pool = reserved self.old.pool n }) }
        ensures refused { OnErr result (self.new ≡ self.old) }
    {
        self.pool.reserve(n)
    }

    /// Sees to it that at least `n` frames are spare.
    #[tactic(auto, unfolding(crate::specs::Paged::flat))]
    pub fn reserve(&mut self, n: usize) -> Result<(), NoMemory>
        requires { held_count self.old + n ≤ length self.old.table + 17 }
        ensures ok { OnOk result (self.new ≡ record self.old { pool = reserved self.old.pool n }) }
        ensures bytes { flat self.new ≡ flat self.old }
        ensures refused { OnErr result (self.new ≡ self.old) }
    {
        match self.reserve_frames(n) {
            Ok(()) => Ok(()),
            Err(_) => Err(NoMemory),
        }
    }

    /// Gives a page a frame, where it has none. False where none is spare.
    #[inline(always)]
    pub fn hold(&mut self, page: usize) -> bool
        requires { page < length self.old.table }
        ensures answer { result ≡ (is_held self.old page || nat_lt 0 self.old.pool.spare) }
        ensures had { is_held self.old page ≡ true → self.new ≡ self.old }
        ensures refused { result ≡ false → self.new ≡ self.old }
        ensures enough { result ≡ true → lacking self.old page (page + 1) ≤ self.old.pool.spare }
        ensures bytes { flat self.new ≡ flat self.old }
        ensures pages { result ≡ true → TakesPages self.old self.new page (page + 1) }
    {
        if self.table[page].is_some() {
            return true;
        }
        let Some(frame) = self.pool.take() else {
            return false;
        };
        self.table[page] = Some(frame);
        true
    }

    /// The number of the `size` bytes from a place on, which lie in one page.
    #[inline(always)]
    pub fn load(&self, place: usize, size: usize) -> u64
        requires size { IsWidth size }
        requires inside { place / 4096 < length self.now.table }
        requires fits { place % 4096 + size ≤ 4096 }
        ensures value { result ≡ loaded (flat self.now) place size }
        ensures bound { result < 2 ^ (8 * size) }
        ensures bytes { (i : ℕ) → i < size → flat self.now (place + i) < 256 }
    {
        match &self.table[place / PAGE_BYTES] {
            Some(frame) => number(self.pool.bytes(frame), place % PAGE_BYTES, size),
            None => 0,
        }
    }

    /// Copies the bytes from a place on over those of a slice.
    pub fn copy_to(&self, place: usize, into: &mut [u8])
        requires inside { place + length into.old ≤ 4096 * length self.now.table }
        requires fits { place + length into.old < 2 ^ 62 }
        ensures { into.new ≡ bytes_at (flat self.now) place (length into.old) }
    {
        let mut done = 0;
        while done < into.len() {
            let at = place + done;
            let end = into.len().min(done + (PAGE_BYTES - at % PAGE_BYTES));
            self.copy_piece(at, &mut into[done..end]);
            done = end;
        }
    }

    // Copies bytes of one page.
    fn copy_piece(&self, place: usize, into: &mut [u8])
        requires inside { place / 4096 < length self.now.table }
        requires fits { place % 4096 + length into.old ≤ 4096 }
        ensures { into.new ≡ bytes_at (flat self.now) place (length into.old) }
    {
        match &self.table[place / PAGE_BYTES] {
            Some(frame) => {
                let at = place % PAGE_BYTES;
                into.copy_from_slice(&self.pool.bytes(frame)[at..at + into.len()]);
            }
            None => into.fill(0),
        }
    }

    /// Writes the first `size` of eight bytes from a place on, all in one page, which has a frame.
    #[inline(always)]
    pub fn write_first(&mut self, place: usize, bytes: &[u8], size: usize)
        requires size { IsWidth size }
        requires room { length bytes.now ≡ 8 }
        requires held { IsTrue (is_held self.old (place / 4096)) }
        requires fits { place % 4096 + size ≤ 4096 }
        ensures bytes { flat self.new ≡ written (flat self.old) place (take size bytes.now) }
        ensures table { self.new.table ≡ self.old.table }
        ensures spare { self.new.pool.spare ≡ self.old.pool.spare }
    {
        match size {
            1 => self.write(place, &bytes[..1]),
            2 => self.write(place, &bytes[..2]),
            4 => self.write(place, &bytes[..4]),
            _ => self.write(place, &bytes[..8]),
        }
    }

    /// Writes bytes from a place on, all in one page, which has a frame.
    #[inline(always)]
    pub fn write(&mut self, place: usize, bytes: &[u8])
        requires held { IsTrue (is_held self.old (place / 4096)) }
        requires fits { place % 4096 + length bytes.now ≤ 4096 }
        ensures bytes { flat self.new ≡ written (flat self.old) place bytes.now }
        ensures table { self.new.table ≡ self.old.table }
        ensures spare { self.new.pool.spare ≡ self.old.pool.spare }
    {
        if let Some(frame) = &self.table[place / PAGE_BYTES] {
            self.pool.write(frame, place % PAGE_BYTES, bytes);
        }
    }

    /// Gives each page from `first` up to `end` a frame. All memory is taken first: where it is
    /// wanting, nothing changes.
    pub fn obtain_all(&mut self, first: usize, end: usize) -> Result<(), NoMemory>
        requires order { first ≤ end }
        requires inside { end ≤ length self.old.table }
        ensures pages { OnOk result (TakesPages self.old self.new first end) }
        ensures bytes { flat self.new ≡ flat self.old }
        ensures refused { OnErr result (self.new ≡ self.old) }
        ensures short { OnErr result (self.old.pool.spare < lacking self.old first end) }
    {
        let lacking = self.lacking(first, end);
        if self.spare() < lacking {
            self.reserve(lacking)?;
        }
        for page in first..end {
            self.hold(page);
        }
        Ok(())
    }

    /// Writes bytes from a place on, in pages that have frames.
    fn write_all(&mut self, place: usize, bytes: &[u8])
        requires held { AreHeld self.old (place / 4096) (end_page place (length bytes.now)) }
        requires fits { place + length bytes.now < 2 ^ 62 }
        ensures bytes { flat self.new ≡ written (flat self.old) place bytes.now }
        ensures table { self.new.table ≡ self.old.table }
        ensures spare { self.new.pool.spare ≡ self.old.pool.spare }
    {
        let mut done = 0;
        while done < bytes.len() {
            let at = place + done;
            let end = bytes.len().min(done + (PAGE_BYTES - at % PAGE_BYTES));
            self.write(at, &bytes[done..end]);
            done = end;
        }
    }

    /// Writes some bytes from a place on, and gives their pages frames. Where memory is wanting, nothing
    /// changes.
    pub fn fill(&mut self, place: usize, bytes: &[u8]) -> Result<(), NoMemory>
        requires some { 0 < length bytes.now }
        requires inside { place + length bytes.now ≤ 4096 * length self.old.table }
        requires fits { place + length bytes.now < 2 ^ 62 }
        ensures ok { OnOk result (flat self.new ≡ written (flat self.old) place bytes.now) }
        ensures pages { OnOk result (TakesPages self.old self.new (place / 4096) (end_page place (length bytes.now))) }
        ensures refused { OnErr result (self.new ≡ self.old) }
        ensures short { OnErr result (self.old.pool.spare < lacking self.old (place / 4096) (end_page place (length bytes.now))) }
    {
        let first = place / PAGE_BYTES;
        let end = (place + bytes.len() + (PAGE_BYTES - 1)) / PAGE_BYTES;
        self.obtain_all(first, end)?;
        self.write_all(place, bytes);
        Ok(())
    }
}
