//! Words of the listings by llvm-mc (Debian LLVM 14.0.6, `llvm-mc -triple=riscv64 -mattr=+m`), but
//! for the gate instructions; and copies of two regions at run time.

ghost use Rattle.std.specs.Prelude.{◌≡◌, ◌+◌, ◌≤◌, IfOk, IsTrue, length};
ghost use Rattle.spec_base.specs.Layout.{is_lawful};
ghost use Rattle.hart_mem.specs.Held.{space_of};

use crate::{Fitted, Shadowed, emit_access, emit_clear, fill_copies, slot_of, used};
use hart_mem::{Bytes, Mem};
use rv_encode::CodeBuf;
use spec_base::{Layout, NoMemory, Version};
use std::alloc::Global;
use std::test::Fail;

/// RESTART's words 1 to 11.
const CLEAR: [u32; 11] = [
    0x4400_0E37,
    0x000E_3E83,
    0x008E_0F13,
    0x002E_9E93,
    0x01EE_8EB3,
    0x01DF_7A63,
    0x000F_6F83,
    0x000F_A023,
    0x004F_0F13,
    0xFF1F_F06F,
    0x000E_3023,
];

/// STORE8 for a text from 0x10078 to 0x10084.
const STORE8: [u32; 16] = [
    0xFDF0_3823,
    0xFFE0_3823,
    0xFD80_3F83,
    0x007F_FF13,
    0x280F_1663,
    0x0000_1F37,
    0x29EF_E263,
    0x1000_0F37,
    0x27EF_FE63,
    0x0001_0F37,
    0x074F_0F13,
    0x01EF_E863,
    0x0001_0F37,
    0x084F_0F13,
    0x27EF_E263,
    0x0800_006F,
];

/// LOAD8 for a text from 0x3FE8_0004 to 0x3FE8_0804, which starts at 4 modulo 8.
const LOAD8: [u32; 16] = [
    0xFDF0_3823,
    0xFFE0_3823,
    0xFD80_3F83,
    0x007F_FF13,
    0x380F_1663,
    0x0000_1F37,
    0x39EF_E263,
    0x4000_0F37,
    0x37EF_FE63,
    0x3FE8_0F37,
    0x000F_0F13,
    0x01EF_E863,
    0x3FE8_1F37,
    0x804F_0F13,
    0x37EF_E263,
    0x1440_006F,
];

/// JUMP for the same text.
const JUMP: [u32; 16] = [
    0xFFE0_3823,
    0xFD80_3F83,
    0xFFEF_FF93,
    0x002F_FF13,
    0x240F_1663,
    0x3FE8_0F37,
    0x004F_0F13,
    0x41EF_8FB3,
    0x0000_1F37,
    0x800F_0F13,
    0x23EF_FA63,
    0x004F_9F93,
    0x4000_0F37,
    0x01EF_8FB3,
    0xFF00_3F03,
    0x000F_8067,
];

/// LTAIL and STAIL for 4,095 regions.
const TAILS: [u32; 61] = [
    0x008F_DF13,
    0x002F_1F13,
    0x4300_0FB7,
    0x01FF_0F33,
    0x000F_6F03,
    0xFD80_3F83,
    0x000F_0E63,
    0x008F_1F13,
    0x0FFF_FF93,
    0x01EF_8FB3,
    0x4500_0F37,
    0x01EF_8FB3,
    0xF00F_8F93,
    0xFD00_3F03,
    0x000F_0067,
    0x008F_DF13,
    0x002F_1F13,
    0x4300_0FB7,
    0x01FF_0F33,
    0x000F_6F83,
    0x080F_9063,
    0xFDE0_3423,
    0xFFD0_3423,
    0xFFC0_3023,
    0x4400_0E37,
    0x000E_3E83,
    0x0000_1FB7,
    0xFFFF_8F93,
    0x1BFE_F863,
    0x008E_9F93,
    0x4500_0F37,
    0x01EF_8FB3,
    0xFD80_3F03,
    0xF00F_7F13,
    0x100F_8E93,
    0x000F_3E03,
    0x01CF_B023,
    0x008F_0F13,
    0x008F_8F93,
    0xFFDF_E8E3,
    0x4400_0E37,
    0x000E_3E83,
    0x002E_9F13,
    0x01CF_0F33,
    0xFC80_3F83,
    0x01FF_2423,
    0x001E_8E93,
    0x01DE_3023,
    0x01DF_A023,
    0x000E_8F93,
    0xFE80_3E83,
    0xFE00_3E03,
    0x008F_9F13,
    0x4500_0FB7,
    0x01FF_0F33,
    0xFD80_3F83,
    0x0FFF_FF93,
    0x01EF_8FB3,
    0xF00F_8F93,
    0xFD00_3F03,
    0x000F_0067,
];

/// Whether code closes to these words.
fn is_code(buf: CodeBuf, wanted: &[u32]) -> bool {
    match buf.close() {
        Ok(words) => words.as_slice() == wanted,
        Err(_) => false,
    }
}

fn clear(alloc: Global) -> Result<CodeBuf, NoMemory> {
    let mut buf = CodeBuf::new(alloc);
    emit_clear(&mut buf)?;
    Ok(buf)
}

#[test]
fn clears(rt: HostRuntime) -> Result<(), Fail> {
    assert!(rt; is_code(clear(rt.alloc())?, &CLEAR));
    Ok(())
}

/// The words of the code from LOAD1 to STAIL, or none where it doesn't close.
fn access(alloc: Global, layout: &Layout) -> Result<Vec<u32>, NoMemory> {
    let mut buf = CodeBuf::new(alloc);
    emit_access(&mut buf, layout)?;
    match buf.close() {
        Ok(words) => Ok(words),
        Err(_) => Ok(Vec::new(alloc)),
    }
}

#[test]
fn finds_places_in_a_small_range(rt: HostRuntime) -> Result<(), Fail> {
    let layout = Layout {
        text_start: 0x10078,
        text_end: 0x10084,
        regions: 4096,
        version: Version::One,
    };
    let words = access(rt.alloc(), &layout)?;
    assert_eq!(rt; words.len(), 205);
    assert!(rt; words.get(112..128) == Some(&STORE8[..]));
    Ok(())
}

/// Whether LOAD8, JUMP, LTAIL and STAIL are the words above.
fn has_large_range(words: &[u32]) -> bool {
    words.get(48..64) == Some(&LOAD8[..])
        && words.get(128..144) == Some(&JUMP[..])
        && words.get(144..) == Some(&TAILS[..])
}

#[test]
fn finds_places_in_a_large_range(rt: HostRuntime) -> Result<(), Fail> {
    let layout = Layout {
        text_start: 0x3FE8_0004,
        text_end: 0x3FE8_0804,
        regions: 4095,
        version: Version::Two,
    };
    let words = access(rt.alloc(), &layout)?;
    assert!(rt; has_large_range(&words));
    Ok(())
}

/// A text of four words, and so many regions.
fn small(regions: u32) -> Layout
    ensures { result ≡ record { text_start = 0x1_0000; text_end = 0x1_0010; regions = regions; version = Version.Two } }
{
    Layout {
        text_start: 0x1_0000,
        text_end: 0x1_0010,
        regions,
        version: Version::Two,
    }
}

/// A memory whose bytes from 0x20_0FFF to 0x20_1102 are 5.
fn made(alloc: Global, regions: u32) -> Result<Mem, NoMemory>
    requires { (1 ≤ regions) × (regions ≤ 2) }
    ensures { IfOk result (λ mem. (space_of mem).layout ≡ record { text_start = 0x1_0000; text_end = 0x1_0010; regions = regions; version = Version.Two }) }
{
    let text = vec![in alloc; 1, 2, 3, 4]?;
    let mut mem = Mem::new(alloc, small(regions), text)?;
    mem.fill(0x20_0FFF, &[5; 260])?;
    Ok(mem)
}

/// Fills bytes at an address past the text.
fn filled(mem: &mut Mem, address: u64, bytes: &[u8]) -> Fitted
    requires lawful { IsTrue (is_lawful (space_of mem.old).layout) }
    requires version { (space_of mem.old).layout.version ≡ Version.Two }
    requires above { (space_of mem.old).layout.text_end ≤ address }
    requires below { address + length bytes.now ≤ 0x4000_0000 }
    requires some { 1 ≤ length bytes.now }
    ensures { (space_of mem.new).layout ≡ (space_of mem.old).layout }
{
    fill_copies(mem, address, bytes)
}

/// Whether so many regions have copies, of which two are in these slots.
fn has_slots(mem: &Mem, count: u32, first: Option<u32>, second: Option<u32>) -> bool {
    used(mem) == count && slot_of(mem, 0x2010) == first && slot_of(mem, 0x2011) == second
}

/// The bytes before, in and behind the filled ones.
fn has_bytes(data: &impl Bytes, wanted: [u8; 5]) -> bool {
    data.byte(0x20_0FFF) == Some(wanted[0])
        && data.byte(0x20_1000) == Some(wanted[1])
        && data.byte(0x20_1100) == Some(wanted[2])
        && data.byte(0x20_1101) == Some(wanted[3])
        && data.byte(0x20_1103) == Some(wanted[4])
        && data.byte(0x1_0000) == None
}

/// Whether a shadow sees these bytes.
fn sees(mem: &Mem, wanted: [u8; 5]) -> bool {
    has_bytes(&Shadowed::new(mem), wanted)
}

#[test]
fn too_many_regions_change_nothing(rt: HostRuntime) {
    let Ok(mut mem) = made(rt.alloc(), 1) else {
        panic!(rt; "no memory");
    };
    assert!(rt; has_slots(&mem, 0, None, None));
    assert_eq!(rt; filled(&mut mem, 0x20_1000, &[7; 257]), Fitted::Full);
    assert!(rt; has_slots(&mem, 0, None, None));
    assert!(rt; sees(&mem, [5, 5, 5, 5, 0]));
}

#[test]
fn copies_hold_what_is_filled(rt: HostRuntime) {
    let Ok(mut mem) = made(rt.alloc(), 2) else {
        panic!(rt; "no memory");
    };
    assert_eq!(rt; filled(&mut mem, 0x20_1000, &[7; 257]), Fitted::Done);
    assert!(rt; has_slots(&mem, 2, Some(1), Some(2)));
    assert!(rt; sees(&mem, [5, 7, 7, 5, 0]));
    assert_eq!(rt; filled(&mut mem, 0x20_10FF, &[8, 9, 10]), Fitted::Done);
    assert!(rt; has_slots(&mem, 2, Some(1), Some(2)));
    assert!(rt; sees(&mem, [5, 7, 9, 10, 0]));
    assert!(rt; has_bytes(&mem, [5, 5, 5, 5, 0]));
}
