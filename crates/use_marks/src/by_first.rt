//! Ranges by their first addresses: a map from each to its last.

ghost use Rattle.std.specs.Prelude.{◌≡◌, ◌≢◌, ℕ, ◌+◌, ◌-◌, ◌≤◌, ◌<◌, None, Some, Option, IfSome, IfNone, OnOk, OnErr};
ghost use Rattle.std.specs.BTreeMap as tree;
ghost use Rattle.std.specs.Ordering.{nat_cmp};
ghost use Rattle.use_marks.specs.Ranges.{IsKept, IsReady, IsBefore, IsBegun, SameCover, Adds, Takes, IsSplit, IsRid, IsCut};

use spec_base::NoMemory;
use std::collections::BTreeMap;

/// The range that begins last of those that begin up to here.
pub(crate) fn before(ranges: &BTreeMap<u64, u64>, here: u64) -> Option<(u64, u64)>
    ensures some { IfSome result (λ r. IsBefore (tree.get nat_cmp ranges.now) here r.0 r.1) }
    ensures none { IfNone result ((first last : ℕ) → tree.get nat_cmp ranges.now first ≡ Some last → here < first) }
    ensures ordered { tree.IsOrdered nat_cmp ranges.now }
{
    match ranges.range(..=here).next_back() {
        Some((first, last)) => Some((*first, *last)),
        None => None,
    }
}

// The same, where it ends there or later.
fn reaching(ranges: &BTreeMap<u64, u64>, here: u64, least: u64) -> Option<(u64, u64)>
    requires { IsKept (tree.get nat_cmp ranges.now) }
    ensures some { IfSome result (λ r. IsBefore (tree.get nat_cmp ranges.now) here r.0 r.1) }
    ensures reaches { IfSome result (λ r. least ≤ r.1) }
    ensures none { IfNone result ((first last : ℕ) → tree.get nat_cmp ranges.now first ≡ Some last → first ≤ here → last < least) }
    ensures ordered { tree.IsOrdered nat_cmp ranges.now }
{
    match before(ranges, here) {
        Some((first, last)) => {
            if last < least {
                None
            } else {
                Some((first, last))
            }
        }
        None => None,
    }
}

// The same, where it ends later.
fn past(ranges: &BTreeMap<u64, u64>, here: u64) -> Option<(u64, u64)>
    requires { (first last next end : ℕ) → tree.get nat_cmp ranges.now first ≡ Some last → tree.get nat_cmp ranges.now next ≡ Some end → first < next → next ≤ here → last < next }
    ensures some { IfSome result (λ r. IsBefore (tree.get nat_cmp ranges.now) here r.0 r.1) }
    ensures past { IfSome result (λ r. here < r.1) }
    ensures none { IfNone result ((first last : ℕ) → tree.get nat_cmp ranges.now first ≡ Some last → first ≤ here → last ≤ here) }
    ensures ordered { tree.IsOrdered nat_cmp ranges.now }
{
    match before(ranges, here) {
        Some((first, last)) => {
            if last <= here {
                None
            } else {
                Some((first, last))
            }
        }
        None => None,
    }
}

// A range that begins between these, the lower one out.
fn begun(ranges: &BTreeMap<u64, u64>, after: u64, to: u64) -> Option<(u64, u64)>
    ensures some { IfSome result (λ r. IsBegun (tree.get nat_cmp ranges.now) (after + 1) to r.0 r.1) }
    ensures none { IfNone result ((first last : ℕ) → tree.get nat_cmp ranges.now first ≡ Some last → after < first → to < first) }
    ensures ordered { tree.IsOrdered nat_cmp ranges.now }
{
    match before(ranges, to) {
        Some((first, last)) => {
            if first <= after {
                None
            } else {
                Some((first, last))
            }
        }
        None => None,
    }
}

// A range that begins between these, the lower one in.
fn begun_at(ranges: &BTreeMap<u64, u64>, from: u64, to: u64) -> Option<(u64, u64)>
    ensures some { IfSome result (λ r. IsBegun (tree.get nat_cmp ranges.now) from to r.0 r.1) }
    ensures none { IfNone result ((first last : ℕ) → tree.get nat_cmp ranges.now first ≡ Some last → from ≤ first → to < first) }
    ensures ordered { tree.IsOrdered nat_cmp ranges.now }
{
    match before(ranges, to) {
        Some((first, last)) => {
            if first < from {
                None
            } else {
                Some((first, last))
            }
        }
        None => None,
    }
}

// A range gets another last address.
fn set_last(ranges: &mut BTreeMap<u64, u64>, first: u64, last: u64)
    requires { (old : ℕ) × (tree.get nat_cmp ranges.old first ≡ Some old) }
    ensures here { tree.get nat_cmp ranges.new first ≡ Some last }
    ensures others { (q : ℕ) → q ≢ first → tree.get nat_cmp ranges.new q ≡ tree.get nat_cmp ranges.old q }
    ensures ordered { tree.IsOrdered nat_cmp ranges.new }
{
    let _ = ranges.insert(first, last);
}

// A new range begins here. After an Err all is as before.
fn begin(ranges: &mut BTreeMap<u64, u64>, first: u64, last: u64) -> Result<(), NoMemory>
    ensures here { OnOk result (tree.get nat_cmp ranges.new first ≡ Some last) }
    ensures others { OnOk result ((q : ℕ) → q ≢ first → tree.get nat_cmp ranges.new q ≡ tree.get nat_cmp ranges.old q) }
    ensures err { OnErr result (ranges.new.entries ≡ ranges.old.entries) }
    ensures ordered { tree.IsOrdered nat_cmp ranges.new }
{
    ranges.insert(first, last)?;
    Ok(())
}

// A range ends.
fn finish(ranges: &mut BTreeMap<u64, u64>, first: u64)
    ensures here { tree.get nat_cmp ranges.new first ≡ None }
    ensures others { (q : ℕ) → q ≢ first → tree.get nat_cmp ranges.new q ≡ tree.get nat_cmp ranges.old q }
    ensures fewer { (last : ℕ) → tree.get nat_cmp ranges.old first ≡ Some last → tree.btree_map_len ranges.new + 1 ≡ tree.btree_map_len ranges.old }
    ensures ordered { tree.IsOrdered nat_cmp ranges.new }
{
    let _ = ranges.remove(&first);
}

// Where a new range ends, it and those that it touches are one.
fn absorb(ranges: &mut BTreeMap<u64, u64>, first: u64, last: u64)
    requires { IsReady (tree.get nat_cmp ranges.old) first last }
    ensures kept { IsKept (tree.get nat_cmp ranges.new) }
    ensures same { SameCover (tree.get nat_cmp ranges.old) (tree.get nat_cmp ranges.new) }
    ensures ordered { tree.IsOrdered nat_cmp ranges.new }
{
    let mut to = last;
    while let Some((next, reached)) = begun(ranges, first, to.saturating_add(1)) {
        finish(ranges, next);
        to = to.max(reached);
    }
    set_last(ranges, first, to);
}

/// Adds the addresses from one to another. What they touch becomes one range with them.
pub(crate) fn add(ranges: &mut BTreeMap<u64, u64>, first: u64, last: u64) -> Result<(), NoMemory>
    requires forward { first ≤ last }
    requires kept { IsKept (tree.get nat_cmp ranges.old) }
    ensures kept { OnOk result (IsKept (tree.get nat_cmp ranges.new)) }
    ensures adds { OnOk result (Adds (tree.get nat_cmp ranges.old) first last (tree.get nat_cmp ranges.new)) }
    ensures err { OnErr result (ranges.new.entries ≡ ranges.old.entries) }
    ensures old_ordered { tree.IsOrdered nat_cmp ranges.old }
    ensures ordered { tree.IsOrdered nat_cmp ranges.new }
{
    match reaching(ranges, first, first.saturating_sub(1)) {
        Some((from, to)) => {
            let end = to.max(last);
            set_last(ranges, from, end);
            absorb(ranges, from, end);
        }
        None => {
            begin(ranges, first, last)?;
            absorb(ranges, first, last);
        }
    }
    Ok(())
}

// A range that goes on past an address is split behind it: its end begins anew.
fn split(ranges: &mut BTreeMap<u64, u64>, last: u64) -> Result<(), NoMemory>
    requires { IsKept (tree.get nat_cmp ranges.old) }
    ensures ok { OnOk result (IsSplit (tree.get nat_cmp ranges.old) (tree.get nat_cmp ranges.new) last) }
    ensures err { OnErr result (ranges.new.entries ≡ ranges.old.entries) }
    ensures old_ordered { tree.IsOrdered nat_cmp ranges.old }
    ensures ordered { tree.IsOrdered nat_cmp ranges.new }
{
    match past(ranges, last) {
        Some((_, to)) => {
            begin(ranges, last + 1, to)?;
            Ok(())
        }
        None => Ok(()),
    }
}

// Takes out the ranges that begin between two addresses.
fn rid(ranges: &mut BTreeMap<u64, u64>, first: u64, last: u64)
    ensures rid { IsRid (tree.get nat_cmp ranges.old) (tree.get nat_cmp ranges.new) first last }
    ensures ordered { tree.IsOrdered nat_cmp ranges.new }
{
    while let Some((next, _)) = begun_at(ranges, first, last) {
        finish(ranges, next);
    }
}

// What begins before an address ends before it.
fn cut(ranges: &mut BTreeMap<u64, u64>, first: u64)
    requires apart { (q end next to : ℕ) → tree.get nat_cmp ranges.old q ≡ Some end → tree.get nat_cmp ranges.old next ≡ Some to → q < next → next < first → end < next }
    requires ordered { tree.IsOrdered nat_cmp ranges.old }
    ensures cut { IsCut (tree.get nat_cmp ranges.old) (tree.get nat_cmp ranges.new) first }
    ensures ordered { tree.IsOrdered nat_cmp ranges.new }
{
    if first == 0 {
        return;
    }
    match past(ranges, first - 1) {
        Some((from, _)) => set_last(ranges, from, first - 1),
        None => {}
    }
}

/// Takes away the addresses from one to another. What goes on past them is split.
pub(crate) fn take(ranges: &mut BTreeMap<u64, u64>, first: u64, last: u64) -> Result<(), NoMemory>
    requires forward { first ≤ last }
    requires kept { IsKept (tree.get nat_cmp ranges.old) }
    ensures kept { OnOk result (IsKept (tree.get nat_cmp ranges.new)) }
    ensures takes { OnOk result (Takes (tree.get nat_cmp ranges.old) first last (tree.get nat_cmp ranges.new)) }
    ensures err { OnErr result (ranges.new.entries ≡ ranges.old.entries) }
    ensures old_ordered { tree.IsOrdered nat_cmp ranges.old }
    ensures ordered { tree.IsOrdered nat_cmp ranges.new }
{
    split(ranges, last)?;
    rid(ranges, first, last);
    cut(ranges, first);
    Ok(())
}
