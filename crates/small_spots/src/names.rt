//! The names that have numbers.

ghost use Rattle.std.specs.Prelude.{◌≡◌, ◌<◌, [], length, slice_get, true, Some, IfOk};
ghost use Rattle.small_spots.specs.SmallSpots.{spot_of, IsKnown, AreNamesApart, StaysKnown};

use crate::small_spot::SmallSpot;
use indexmap::IndexSet;
use spec_base::{BlockSpot, Name, NoMemory};
use std::alloc::Global;
use std::marker::Model;

/// Names, whose numbers go from 0 by first appearance. A contract sees them in this order. Each is
/// held once.
#[derive(Drop)]
pub struct Names {
    known: IndexSet<Name>,
    last: usize,
}

impl Model for Names {
    ghost use Rattle.std.specs.Prelude.{List};
    ghost use Rattle.spec_base.specs.Files.{Name as Bytes};
    ghost use Rattle.small_spots.specs.SmallSpots.{AreNamesApart};

    ghost Value = { List Bytes };

    ghost view = { λ n. n.known.keys };

    ghost invariant = { λ n. AreNamesApart n.known.keys };
}

impl Names {
    /// No name.
    pub fn new(alloc: Global) -> Names
        ensures { result ≡ [] }
    {
        Names {
            known: IndexSet::new(alloc),
            last: 0,
        }
    }

    /// The small key of a block, whose name gets the next number where it has none. The keys of
    /// other blocks stay, also after `NoMemory`.
    pub fn key(&mut self, spot: &BlockSpot) -> Result<SmallSpot, NoMemory>
        ensures known { IfOk result (λ key. IsKnown self.new key) }
        ensures spot { IfOk result (λ key. spot_of self.new key ≡ spot.now) }
        ensures apart { AreNamesApart self.new }
        ensures stays { StaysKnown self.old self.new }
    {
        let name = self.number(&spot.name)?;
        Ok(SmallSpot {
            name,
            block: spot.block,
        })
    }

    // The number of a name. It is mostly the last one that was asked for.
    fn number(&mut self, name: &Name) -> Result<usize, NoMemory>
        ensures number { IfOk result (λ n. slice_get self.new n ≡ Some name.now) }
        ensures apart { AreNamesApart self.new }
        ensures stays { StaysKnown self.old self.new }
    {
        if self.known.get_index(self.last) == Some(name) {
            return Ok(self.last);
        }
        let (number, _) = self.known.insert_full(*name)?;
        self.last = number;
        Ok(number)
    }
}
