//! Log and box as they are read, from numbers that stand where the layout of the link says.

ghost use Rattle.std.specs.Prelude.{◌≡◌, IsTrue};
ghost use Rattle.hart_mem.specs.Held.{space_of};
ghost use Rattle.code_model.specs.Log.{IsQueue};

use crate::reading::{boxed, boxed_site, entry, head, len, tail};
use assembler::x;
use hart_mem::{Mem, Width};
use spec_base::{Layout, NoMemory, Version, View};
use std::alloc::Global;
use std::test::Fail;

/// A text of one word, and one region.
fn layout() -> Layout
    ensures { result ≡ record {
      text_start = 0x1_0000;
      text_end = 0x1_0004;
      regions = 1;
      version = Version.One;
    } }
{
    Layout {
        text_start: 0x1_0000,
        text_end: 0x1_0004,
        regions: 1,
        version: Version::One,
    }
}

/// A memory with this layout, whose link is zero.
fn empty(alloc: Global) -> Result<Mem, NoMemory> {
    let text = vec![in alloc; 0x73]?;
    Mem::new(alloc, layout(), text)
}

/// The same with numbers in the link, each with its address.
fn with_link(alloc: Global, numbers: &[(u64, u64)]) -> Result<Mem, Fail> {
    let mut mem = empty(alloc)?;
    for (address, number) in numbers {
        mem.store(View::Shadow, *address, Width::Eight, *number)
            .map_err(|_| "it is stored")?;
    }
    Ok(mem)
}

/// Whether the log is a queue.
fn is_queue(mem: &Mem) -> bool
    ensures { IsTrue result → IsQueue (space_of mem.now).shared }
{
    head(mem) <= tail(mem) && tail(mem) - head(mem) <= 64
}

#[test]
fn a_new_memory_has_an_empty_log_and_box(rt: HostRuntime) -> Result<(), Fail> {
    let mem = empty(rt.alloc())?;
    assert!(rt; is_queue(&mem));
    assert!(rt; (len(&mem), entry(&mem, 0)) == (0, None));
    assert_eq!(rt;
        (boxed_site(&mem), boxed(&mem, x(0)), boxed(&mem, x(31))),
        (0, 0, 0)
    );
    Ok(())
}

/// One pair was taken, and two wait.
#[test]
fn pairs_come_from_the_oldest(rt: HostRuntime) -> Result<(), Fail> {
    let numbers = [
        (0x4200_0000, 1),
        (0x4200_0008, 3),
        (0x4200_0100, 10),
        (0x4200_0108, 11),
        (0x4200_0110, 20),
        (0x4200_0118, 21),
        (0x4200_0120, 30),
        (0x4200_0128, 31),
    ];
    let mem = with_link(rt.alloc(), &numbers)?;
    assert!(rt; is_queue(&mem));
    assert!(rt; (len(&mem), entry(&mem, 2)) == (2, None));
    assert!(rt; (entry(&mem, 0), entry(&mem, 1)) == (Some((20, 21)), Some((30, 31))));
    Ok(())
}

/// The log is full, and the last of its places is followed by the first.
#[test]
fn the_first_place_follows_the_last(rt: HostRuntime) -> Result<(), Fail> {
    let numbers = [
        (0x4200_0000, 63),
        (0x4200_0008, 127),
        (0x4200_04E0, 30),
        (0x4200_04E8, 31),
        (0x4200_04F0, 10),
        (0x4200_04F8, 11),
        (0x4200_0100, 20),
        (0x4200_0108, 21),
    ];
    let mem = with_link(rt.alloc(), &numbers)?;
    assert!(rt; is_queue(&mem));
    assert!(rt; (len(&mem), entry(&mem, 64)) == (64, None));
    assert!(rt; (entry(&mem, 0), entry(&mem, 1)) == (Some((10, 11)), Some((20, 21))));
    assert!(rt; entry(&mem, 63) == Some((30, 31)));
    Ok(())
}

#[test]
fn the_box_has_site_and_registers(rt: HostRuntime) -> Result<(), Fail> {
    let numbers = [
        (0x4200_1000, 0x1_0000),
        (0x4200_1008, u64::MAX),
        (0x4200_1050, 10),
        (0x4200_10F8, 31),
    ];
    let mem = with_link(rt.alloc(), &numbers)?;
    assert_eq!(rt; (boxed_site(&mem), boxed(&mem, x(0))), (0x1_0000, 0));
    assert_eq!(rt;
        (boxed(&mem, x(1)), boxed(&mem, x(10)), boxed(&mem, x(31))),
        (u64::MAX, 10, 31)
    );
    Ok(())
}
