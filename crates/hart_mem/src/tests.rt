//! The edges of each part of a memory in each view, and each call on its happy path. The
//! expected values are those of the layout's table.

ghost use Rattle.std.specs.Prelude.{◌≡◌};

use crate::{Access, Bytes, Mem, StoreFault, Width};
use rv_decode::decode;
use spec_base::{Layout, NoMemory, Version, View};
use std::alloc::Global;
use std::process::Abort;

// The first and the last byte of the link, the table, the list, the copies and the private page,
// with 3 regions.
const EDGES: [u64; 10] = [
    0x4200_0000,
    0x4200_1FFF,
    0x4300_0000,
    0x43FF_FFFF,
    0x4400_0000,
    0x4400_0017,
    0x4500_0000,
    0x4500_02FF,
    0xFFFF_FFFF_FFFF_F800,
    0xFFFF_FFFF_FFFF_FFFF,
];

// A text of four words from 0x1_0004 on, and 3 regions.
fn layout(version: Version) -> Layout
    ensures { result ≡ record { text_start = 0x1_0004; text_end = 0x1_0014; regions = 3; version = version } }
{
    Layout {
        text_start: 0x1_0004,
        text_end: 0x1_0014,
        regions: 3,
        version,
    }
}

// A memory with this layout and no spare frame.
fn empty(alloc: Global, version: Version) -> Result<Mem, NoMemory> {
    let text = vec![in alloc; 0x0403_0201, 5, 6, 0x0807_0605]?;
    Mem::new(alloc, layout(version), text)
}

// The same with 17 spare frames.
fn made(alloc: Global, version: Version) -> Result<Mem, NoMemory> {
    let mut mem = empty(alloc, version)?;
    mem.reserve(17)?;
    Ok(mem)
}

// Whether a byte can be loaded, and whether it can be stored and is then loaded.
fn touches(mem: &mut Mem, view: View, address: u64) -> (bool, bool) {
    let loads = mem.load(view, address, Width::One).is_ok();
    let stores = mem.store(view, address, Width::One, 9).is_ok();
    (
        loads,
        stores && mem.load(view, address, Width::One) == Ok(9),
    )
}

// Whether these bytes can be loaded and stored as is said.
fn all_touched(mem: &mut Mem, view: View, addresses: &[u64], loads: bool, stores: bool) -> bool {
    for address in addresses {
        if touches(mem, view, *address) != (loads, stores) {
            return false;
        }
    }
    true
}

#[test]
fn a_program_touches_its_data(rt: HostRuntime) {
    let Ok(mut mem) = made(rt.alloc(), Version::Two) else {
        panic!(rt; "no memory");
    };
    let data = [0x1000, 0x1_0003, 0x1_0014, 0x3FFF_FFFF];
    let out = [
        0xFFF,
        0x1_0004,
        0x1_0013,
        0x4000_0000,
        0x4200_0000,
        0xFFFF_FFFF_FFFF_F800,
    ];
    assert!(rt; all_touched(&mut mem, View::Plain, &data, true, true));
    assert!(rt; all_touched(&mut mem, View::Program, &out, false, false));
}

#[test]
fn the_stub_touches_link_and_page(rt: HostRuntime) {
    let Ok(mut mem) = made(rt.alloc(), Version::Two) else {
        panic!(rt; "no memory");
    };
    let own = [
        0x4200_0000,
        0x4200_1FFF,
        0xFFFF_FFFF_FFFF_F800,
        0xFFFF_FFFF_FFFF_FFFF,
    ];
    let out = [
        0x1000,
        0x41FF_FFFF,
        0x4200_2000,
        0x4300_0000,
        0x4400_0000,
        0x4500_0000,
        0xFFFF_FFFF_FFFF_F7FF,
    ];
    assert!(rt; all_touched(&mut mem, View::Stub, &own, true, true));
    assert!(rt; all_touched(&mut mem, View::Stub, &out, false, false));
}

#[test]
fn the_shadow_touches_its_parts(rt: HostRuntime) {
    let Ok(mut mem) = made(rt.alloc(), Version::Two) else {
        panic!(rt; "no memory");
    };
    let loaded = [0x1000, 0x1_0004, 0x3FFF_FFFF];
    let out = [
        0xFFF,
        0x4000_0000,
        0x41FF_FFFF,
        0x4200_2000,
        0x42FF_FFFF,
        0x4400_0018,
        0x44FF_FFFF,
        0x4500_0300,
        0xFFFF_FFFF_FFFF_F7FF,
    ];
    assert!(rt; all_touched(&mut mem, View::Shadow, &EDGES, true, true));
    assert!(rt; all_touched(&mut mem, View::Shadow, &loaded, true, false));
    assert!(rt; all_touched(&mut mem, View::Shadow, &out, false, false));
}

// Stores a number of its own in each of these bytes, and then loads all of them again.
fn keeps_apart(mem: &mut Mem, addresses: &[u64]) -> bool {
    for (i, address) in addresses.iter().enumerate() {
        let number = i as u64 % 255 + 1;
        if mem.store(View::Shadow, *address, Width::One, number) != Ok(()) {
            return false;
        }
    }
    for (i, address) in addresses.iter().enumerate() {
        if mem.load(View::Shadow, *address, Width::One) != Ok(i as u64 % 255 + 1) {
            return false;
        }
    }
    true
}

// The link is one, and each of the two has a private page of its own.
fn stub_has_its_own_page(mem: &mut Mem) -> bool {
    mem.load(View::Stub, 0x4200_0000, Width::One) == Ok(1)
        && mem.load(View::Stub, 0x4200_1FF8, Width::Eight) == Ok(2 << 56)
        && mem.load(View::Stub, 0xFFFF_FFFF_FFFF_F800, Width::Eight) == Ok(0)
        && mem.load(View::Stub, 0xFFFF_FFFF_FFFF_FFF8, Width::Eight) == Ok(0)
        && mem.store(View::Stub, 0xFFFF_FFFF_FFFF_FFF8, Width::Eight, 3) == Ok(())
        && mem.load(View::Shadow, 0xFFFF_FFFF_FFFF_FFF8, Width::Eight) == Ok(10 << 56)
}

#[test]
fn no_two_parts_share_a_byte(rt: HostRuntime) {
    let Ok(mut mem) = made(rt.alloc(), Version::Two) else {
        panic!(rt; "no memory");
    };
    assert!(rt; keeps_apart(&mut mem, &EDGES));
    assert!(rt; stub_has_its_own_page(&mut mem));
}

#[test]
fn version_one_ends_lower(rt: HostRuntime) {
    let Ok(mut mem) = made(rt.alloc(), Version::One) else {
        panic!(rt; "no memory");
    };
    let out = [0x1000_0000, 0x4340_0000];
    assert!(rt; all_touched(&mut mem, View::Plain, &[0x0FFF_FFFF], true, true));
    assert!(rt; all_touched(&mut mem, View::Shadow, &[0x433F_FFFF], true, true));
    assert!(rt; all_touched(&mut mem, View::Shadow, &out, false, false));
}

// Each width, and the number that it stores of the bytes 0x11 to 0x88.
const WIDTHS: [(Width, u64, u64); 4] = [
    (Width::One, 1, 0x11),
    (Width::Two, 2, 0x2211),
    (Width::Four, 4, 0x4433_2211),
    (Width::Eight, 8, 0x8877_6655_4433_2211),
];

// Whether a store of each width changes that many bytes, and is loaded again.
fn stores_widths(mem: &mut Mem, view: View, address: u64) -> bool {
    for (width, _, number) in &WIDTHS {
        if mem.store(view, address, Width::Eight, 0) != Ok(())
            || mem.store(view, address, *width, 0x8877_6655_4433_2211) != Ok(())
            || mem.load(view, address, Width::Eight) != Ok(*number)
            || mem.load(view, address, *width) != Ok(*number)
        {
            return false;
        }
    }
    true
}

// Whether loads and stores of each width are refused as not aligned one past a multiple of it.
fn refuses_unaligned(mem: &mut Mem, view: View, address: u64) -> bool {
    for (width, size, _) in &WIDTHS {
        let aligned = *size == 1;
        if (mem.load(view, address.wrapping_add(1), *width) == Err(Access::Unaligned)) == aligned
            || (mem.store(view, address.wrapping_add(1), *width, 1) == Err(StoreFault::Unaligned))
                == aligned
        {
            return false;
        }
    }
    true
}

// Whether a part ends here: each width can be stored right before, and none here.
fn ends_at(mem: &mut Mem, view: View, end: u64) -> bool {
    for (width, size, _) in &WIDTHS {
        if mem.store(view, end.wrapping_sub(*size), *width, 1) != Ok(())
            || mem.load(view, end.wrapping_sub(*size), *width) != Ok(1)
            || mem.store(view, end, *width, 1) != Err(StoreFault::Out)
            || mem.load(view, end, *width) != Err(Access::Out)
        {
            return false;
        }
    }
    true
}

// A place in each view, and where its part ends.
const PARTS: [(View, u64, u64); 6] = [
    (View::Plain, 0x2000, 0x4000_0000),
    (View::Program, 0x2000, 0x4000_0000),
    (View::Stub, 0x4200_0000, 0x4200_2000),
    (View::Shadow, 0x4300_0000, 0x4400_0000),
    (View::Shadow, 0x4400_0000, 0x4400_0018),
    (View::Shadow, 0x4500_0000, 0x4500_0300),
];

#[test]
fn takes_each_width_in_each_view(rt: HostRuntime) {
    let Ok(mut mem) = made(rt.alloc(), Version::Two) else {
        panic!(rt; "no memory");
    };
    for (view, address, end) in &PARTS {
        assert!(rt; stores_widths(&mut mem, *view, *address));
        assert!(rt; refuses_unaligned(&mut mem, *view, *address));
        if *end != 0x4400_0000 {
            assert!(rt; ends_at(&mut mem, *view, *end));
        }
    }
    assert!(rt; stores_widths(&mut mem, View::Stub, 0xFFFF_FFFF_FFFF_FFF8));
    assert!(rt; stores_widths(&mut mem, View::Shadow, 0xFFFF_FFFF_FFFF_FFF8));
}

// Stores at eight places, each in a page of its own, and one in a page that is held.
fn stores_in_pages(mem: &mut Mem) -> bool {
    for i in 0..17 {
        if mem.store(View::Plain, 0x2_0000 + 4096 * i, Width::Eight, i) != Ok(()) {
            return false;
        }
    }
    mem.store(View::Plain, 0x2_0008, Width::Two, 0x1_2345) == Ok(())
        && mem.store(View::Plain, 0x4_0000, Width::One, 1) == Err(StoreFault::NoMemory)
        && mem.load(View::Plain, 0x4_0000, Width::One) == Ok(0)
        && mem.load(View::Shadow, 0x2_0008, Width::Eight) == Ok(0x2345)
        && mem.byte(0x2_1000) == Some(1)
        && mem.byte(0x1_0004) == None
}

#[test]
fn takes_a_page_at_its_first_store(rt: HostRuntime) {
    let Ok(mut mem) = made(rt.alloc(), Version::Two) else {
        panic!(rt; "no memory");
    };
    assert!(rt; stores_in_pages(&mut mem));
    assert_eq!(rt; mem.spare(), 0);
}

// With no spare frame a store in a page that has none is refused, after the other causes; the
// pages that aren't the program range's have their frames from the start.
fn refuses_a_page(mem: &mut Mem) -> bool {
    mem.store(View::Plain, 0x2_0001, Width::Two, 1) == Err(StoreFault::Unaligned)
        && mem.store(View::Plain, 0x1_0004, Width::Four, 1) == Err(StoreFault::Out)
        && mem.store(View::Plain, 0x2_0000, Width::Eight, 1) == Err(StoreFault::NoMemory)
        && mem.load(View::Plain, 0x2_0000, Width::Eight) == Ok(0)
        && mem.store(View::Stub, 0x4200_0000, Width::Eight, 1) == Ok(())
        && mem.store(View::Shadow, 0x4500_02F8, Width::Eight, 1) == Ok(())
}

#[test]
fn no_spare_frame_refuses_a_first_store(rt: HostRuntime) {
    let Ok(mut mem) = empty(rt.alloc(), Version::Two) else {
        panic!(rt; "no memory");
    };
    assert_eq!(rt; mem.spare(), 0);
    assert!(rt; refuses_a_page(&mut mem));
    assert_eq!(rt; mem.spare(), 0);
}

// The text begins at 4 modulo 8: of eight bytes that the shadow loads a half can be data.
fn loads_halves_of_text(mem: &mut Mem) -> bool {
    mem.store(View::Program, 0x1_0000, Width::Four, 0x0908_0706) == Ok(())
        && mem.load(View::Shadow, 0x1_0000, Width::Eight) == Ok(0x0403_0201_0908_0706)
        && mem.load(View::Shadow, 0x1_0010, Width::Eight) == Ok(0x0807_0605)
        && mem.load(View::Shadow, 0x1_0006, Width::Two) == Ok(0x0403)
        && mem.load(View::Program, 0x1_0000, Width::Eight) == Err(Access::Out)
        && mem.store(View::Program, 0x1_0010, Width::Eight, 1) == Err(StoreFault::Out)
        && mem.fetch(View::Program, 0x1_0010) == Some(0x0807_0605)
        && mem.fetch(View::Program, 0x1_0014) == None
        && mem.fetch(View::Plain, 0x1_0006) == None
}

#[test]
fn the_shadow_loads_text(rt: HostRuntime) {
    let Ok(mut mem) = made(rt.alloc(), Version::Two) else {
        panic!(rt; "no memory");
    };
    assert!(rt; loads_halves_of_text(&mut mem));
}

// A memory with the bytes 1 to 8 over a page's end.
fn filled(alloc: Global) -> Result<Mem, NoMemory> {
    let mut mem = Mem::new(alloc, layout(Version::Two), vec![in alloc; 1, 2, 3, 4]?)?;
    mem.fill(0x2_0FFC, &[1, 2, 3, 4, 5, 6, 7, 8])?;
    mem.fill(0x2_1000, b"")?;
    Ok(mem)
}

fn has_both_pages(mem: &Mem) -> bool {
    mem.load(View::Plain, 0x2_0FF8, Width::Eight) == Ok(0x0403_0201_0000_0000)
        && mem.load(View::Plain, 0x2_1000, Width::Eight) == Ok(0x0807_0605)
        && mem.byte(0x2_0FFF) == Some(4)
        && mem.byte(0x2_1000) == Some(5)
}

#[test]
fn fills_over_the_end_of_a_page(rt: HostRuntime) {
    let Ok(mem) = filled(rt.alloc()) else {
        panic!(rt; "no memory");
    };
    assert!(rt; has_both_pages(&mem));
}

// A part that begins two bytes before the text and ends two bytes behind it.
fn loaded(alloc: Global) -> Result<Mem, NoMemory> {
    let mut mem = Mem::new(alloc, layout(Version::Two), vec![in alloc; 1, 2, 3, 4]?)?;
    mem.load_part(0x1_0002, &[9; 20])?;
    Ok(mem)
}

fn has_the_part_around_the_text(mem: &Mem) -> bool {
    mem.load(View::Plain, 0x1_0000, Width::Four) == Ok(0x0909_0000)
        && mem.load(View::Plain, 0x1_0014, Width::Four) == Ok(0x0909)
        && mem.load(View::Shadow, 0x1_0000, Width::Eight) == Ok(0x0000_0001_0909_0000)
        && mem.fetch(View::Plain, 0x1_0004) == Some(1)
        && mem.fetch(View::Plain, 0x1_0010) == Some(4)
        && mem.byte(0x1_0003) == Some(9)
        && mem.byte(0x1_0004) == None
        && mem.byte(0x1_0015) == Some(9)
}

#[test]
fn loads_a_part_around_the_text(rt: HostRuntime) {
    let Ok(mem) = loaded(rt.alloc()) else {
        panic!(rt; "no memory");
    };
    assert!(rt; has_the_part_around_the_text(&mem));
}

// Code of ones, twos and threes: 16 words for each of the text's four and for the guard block, the
// helpers, and the stub.
fn with_code(alloc: Global) -> Result<Mem, NoMemory> {
    let mut mem = Mem::new(alloc, layout(Version::Two), vec![in alloc; 1, 2, 3, 4]?)?;
    let shadow = vec![in alloc; 1; 80]?;
    let helpers = vec![in alloc; 2; 282]?;
    let stub = vec![in alloc; 3; 71]?;
    mem.set_code(shadow, helpers, stub)?;
    Ok(mem)
}

// The first and the last word of each part of the code, and the places behind them.
fn fetches_code(mem: &Mem, shadow: u32, helper: u32, stub: u32) -> bool {
    mem.fetch(View::Shadow, 0x4000_0000) == Some(shadow)
        && mem.fetch(View::Shadow, 0x4000_013C) == Some(shadow)
        && mem.fetch(View::Shadow, 0x4000_0140) == None
        && mem.fetch(View::Shadow, 0x4110_0000) == Some(helper)
        && mem.fetch(View::Shadow, 0x4110_0464) == Some(helper)
        && mem.fetch(View::Shadow, 0x4110_0468) == None
        && mem.fetch(View::Stub, 0x4180_0000) == Some(stub)
        && mem.fetch(View::Stub, 0x4180_0118) == Some(stub)
        && mem.fetch(View::Stub, 0x4180_011C) == None
        && mem.fetch(View::Stub, 0x4180_0002) == None
        && mem.fetch(View::Plain, 0x4000_0000) == None
        && mem.instr_at(View::Shadow, 0x4000_013C) == Some(decode(shadow))
        && mem.instr_at(View::Shadow, 0x4110_0464) == Some(decode(helper))
        && mem.instr_at(View::Stub, 0x4180_0118) == Some(decode(stub))
        && mem.instr_at(View::Stub, 0x4180_011C) == None
}

#[test]
fn fetches_the_code_that_is_given(rt: HostRuntime) {
    let Ok(before) = made(rt.alloc(), Version::Two) else {
        panic!(rt; "no memory");
    };
    let Ok(mem) = with_code(rt.alloc()) else {
        panic!(rt; "no memory");
    };
    assert!(rt; fetches_code(&before, 0, 0, 0));
    assert!(rt; fetches_code(&mem, 1, 2, 3));
}

// A text of one word, 4 below a multiple of 8.
fn one_word(alloc: Global) -> Result<Mem, NoMemory> {
    let layout = Layout {
        text_start: 0x1004,
        text_end: 0x1008,
        regions: 1,
        version: Version::Two,
    };
    let mut mem = Mem::new(alloc, layout, vec![in alloc; 0x0070_0093]?)?;
    mem.load_part(0x1000, &[9; 16])?;
    Ok(mem)
}

fn has_one_word(mem: &Mem) -> bool {
    mem.fetch(View::Plain, 0x1000) == None
        && mem.instr_at(View::Plain, 0x1004) == Some(decode(0x0070_0093))
        && mem.instr_at(View::Plain, 0x1008) == None
        && mem.load(View::Plain, 0x1000, Width::Four) == Ok(0x0909_0909)
        && mem.load(View::Plain, 0x1000, Width::Eight) == Err(Access::Out)
        && mem.load(View::Plain, 0x1008, Width::Eight) == Ok(0x0909_0909_0909_0909)
        && mem.load(View::Shadow, 0x1000, Width::Eight) == Ok(0x0070_0093_0909_0909)
}

#[test]
fn a_text_can_be_one_word(rt: HostRuntime) {
    let Ok(mem) = one_word(rt.alloc()) else {
        panic!(rt; "no memory");
    };
    assert!(rt; has_one_word(&mem));
}

// The bytes 1 to 8 stand over a page's end, and the text from 0x1_0004 up to 0x1_0014.
fn gives_stretches(mem: &Mem) -> bool {
    mem.is_all_data(0x1_0000, 4)
        && !mem.is_all_data(0x1_0000, 5)
        && !mem.is_all_data(0x1_0010, 5)
        && mem.is_all_data(0x1_0014, 0x3FFE_FFEC)
        && !mem.is_all_data(0x1_0014, 0x3FFE_FFED)
        && !mem.is_all_data(0xFFF, 1)
        && !mem.is_all_data(0xFFFF_FFFF_FFFF_FFFF, 2)
        && mem.is_all_data(0xFFF, 0)
}

#[test]
fn copies_over_the_end_of_a_page(rt: HostRuntime) {
    let Ok(mem) = filled(rt.alloc()) else {
        panic!(rt; "no memory");
    };
    assert!(rt; gives_stretches(&mem));
    let mut bytes = [7u8; 12];
    if mem.is_all_data(0x2_0FFA, 12) {
        mem.copy_to(0x2_0FFA, &mut bytes);
    }
    assert_eq!(rt; bytes, [0, 0, 1, 2, 3, 4, 5, 6, 7, 8, 0, 0]);
}
