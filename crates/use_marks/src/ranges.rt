//! Addresses, kept as ascending ranges.

ghost use Rattle.std.specs.Prelude.{◌≡◌, ℕ, false, true, OnOk, OnErr};
ghost use Rattle.std.specs.BTreeMap as tree;
ghost use Rattle.std.specs.Ordering.{nat_cmp};
ghost use Rattle.rv_model.specs.Memory.{any_from};
ghost use Rattle.use_marks.specs.Ranges.{in_ranges, with_range, AreBounded, Fits, IsKept};

#[cfg(test)]
mod tests;

use crate::by_first::{add, before, take};
use spec_base::NoMemory;
use std::alloc::Global;
use std::collections::BTreeMap;

/// A set of addresses: ranges that neither overlap nor touch, by their first addresses. So a stretch
/// that is added in pieces is one range. None of them lies outside two bounds, which are never drawn
/// in, so that most questions need no search. A contract sees it by `in_ranges`.
#[derive(Drop)]
pub(crate) struct Ranges {
    last_by_first: BTreeMap<u64, u64>,
    least: u64,
    most: u64,
    ghost kept: { IsKept (tree.get nat_cmp last_by_first) },
    ghost bounded: { AreBounded last_by_first.entries least most },
}

impl Ranges {
    /// No address.
    pub fn new(alloc: Global) -> Ranges
        ensures { (a : ℕ) → in_ranges result.last_by_first.entries a ≡ false }
    {
        Ranges {
            last_by_first: BTreeMap::new(alloc),
            least: u64::MAX,
            most: 0,
        }
    }

    /// Takes all away.
    pub fn clear(&mut self)
        ensures { (a : ℕ) → in_ranges self.new.last_by_first.entries a ≡ false }
    {
        self.last_by_first.clear();
        self.least = u64::MAX;
        self.most = 0;
    }

    /// Whether an address is among them.
    pub fn contains(&self, address: u64) -> bool
        ensures { result ≡ in_ranges self.now.last_by_first.entries address }
    {
        match before(&self.last_by_first, address) {
            Some((_, last)) => address <= last,
            None => false,
        }
    }

    /// Whether one of so many addresses from one on is among them.
    pub fn contains_any(&self, address: u64, count: u64) -> bool
        ensures { result ≡ any_from (in_ranges self.now.last_by_first.entries) address count }
    {
        if count == 0 {
            return false;
        }
        let end = address.saturating_add(count - 1);
        if end < self.least || self.most < address {
            return false;
        }
        match before(&self.last_by_first, end) {
            Some((_, last)) => address <= last,
            None => false,
        }
    }

    /// Adds so many addresses from one on (true), or takes them away; there are none from 2^64 on.
    pub fn set(&mut self, address: u64, count: u64, marked: bool) -> Result<(), NoMemory>
        ensures ok { OnOk result (Fits address count → (a : ℕ) → in_ranges self.new.last_by_first.entries a ≡ with_range (in_ranges self.old.last_by_first.entries) address count marked a) }
        ensures err { OnErr result (self.new.last_by_first.entries ≡ self.old.last_by_first.entries) }
    {
        if marked {
            self.add(address, count)
        } else {
            self.take(address, count)
        }
    }

    // Adds so many addresses from one on.
    fn add(&mut self, address: u64, count: u64) -> Result<(), NoMemory>
        ensures ok { OnOk result (Fits address count → (a : ℕ) → in_ranges self.new.last_by_first.entries a ≡ with_range (in_ranges self.old.last_by_first.entries) address count true a) }
        ensures err { OnErr result (self.new.last_by_first.entries ≡ self.old.last_by_first.entries) }
    {
        if count == 0 {
            return Ok(());
        }
        let last = address.saturating_add(count - 1);
        add(&mut self.last_by_first, address, last)?;
        self.least = self.least.min(address);
        self.most = self.most.max(last);
        Ok(())
    }

    // Takes so many addresses from one on away, if one of them is there.
    fn take(&mut self, address: u64, count: u64) -> Result<(), NoMemory>
        ensures ok { OnOk result (Fits address count → (a : ℕ) → in_ranges self.new.last_by_first.entries a ≡ with_range (in_ranges self.old.last_by_first.entries) address count false a) }
        ensures err { OnErr result (self.new.last_by_first.entries ≡ self.old.last_by_first.entries) }
    {
        if !self.contains_any(address, count) {
            return Ok(());
        }
        take(
            &mut self.last_by_first,
            address,
            address.saturating_add(count - 1),
        )?;
        Ok(())
    }
}
