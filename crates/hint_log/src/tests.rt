//! Words of the listings by llvm-mc (Debian LLVM 14.0.6, `llvm-mc -triple=riscv64 -mattr=+m`), but
//! for the gate instructions.

use crate::{emit_append, emit_box_load, emit_box_save, emit_check};
use rv_encode::CodeBuf;
use spec_base::NoMemory;
use std::alloc::Global;
use std::test::Fail;

/// APPEND.
const APPEND: [u32; 24] = [
    0xFDF0_3823,
    0xFFE0_3823,
    0x0000_3F8B,
    0x040F_8663,
    0xFDF0_3023,
    0xFFD0_3423,
    0x4200_0F37,
    0x008F_3F83,
    0x000F_3E83,
    0x41DF_8EB3,
    0xFC0E_8E93,
    0x100E_8263,
    0x03FF_FE93,
    0x004E_9E93,
    0x01EE_8EB3,
    0xFC00_3F83,
    0x11FE_B023,
    0x10CE_B423,
    0x008F_3F83,
    0x001F_8F93,
    0x01FF_3423,
    0xFE80_3E83,
    0xFD00_3F03,
    0x000F_0067,
];

/// RESTART from its word 12 on.
const BOX_LOAD: [u32; 39] = [
    0x4200_1FB7,
    0x000F_BF03,
    0x004F_0F13,
    0xFDE0_3C23,
    0x0F8F_BF03,
    0xFFE0_3C23,
    0x008F_B083,
    0x010F_B103,
    0x018F_B183,
    0x020F_B203,
    0x028F_B283,
    0x030F_B303,
    0x038F_B383,
    0x040F_B403,
    0x048F_B483,
    0x050F_B503,
    0x058F_B583,
    0x060F_B603,
    0x068F_B683,
    0x070F_B703,
    0x078F_B783,
    0x080F_B803,
    0x088F_B883,
    0x090F_B903,
    0x098F_B983,
    0x0A0F_BA03,
    0x0A8F_BA83,
    0x0B0F_BB03,
    0x0B8F_BB83,
    0x0C0F_BC03,
    0x0C8F_BC83,
    0x0D0F_BD03,
    0x0D8F_BD83,
    0x0E0F_BE03,
    0x0E8F_BE83,
    0x0F0F_BF03,
    0x0000_608B,
    0x4110_0FB7,
    0x200F_8067,
];

/// Whether code closes to these words.
fn is_code(buf: CodeBuf, wanted: &[u32]) -> bool {
    match buf.close() {
        Ok(words) => words.as_slice() == wanted,
        Err(_) => false,
    }
}

fn append(alloc: Global) -> Result<CodeBuf, NoMemory> {
    let mut buf = CodeBuf::new(alloc);
    emit_append(&mut buf)?;
    Ok(buf)
}

fn box_load(alloc: Global) -> Result<CodeBuf, NoMemory> {
    let mut buf = CodeBuf::new(alloc);
    emit_box_load(&mut buf)?;
    Ok(buf)
}

/// The stub, in its two parts.
fn stub(alloc: Global) -> Result<CodeBuf, NoMemory> {
    let mut buf = CodeBuf::new(alloc);
    emit_check(&mut buf)?;
    emit_box_save(&mut buf)?;
    Ok(buf)
}

#[test]
fn appends(rt: HostRuntime) -> Result<(), Fail> {
    assert!(rt; is_code(append(rt.alloc())?, &APPEND));
    Ok(())
}

#[test]
fn loads_the_box(rt: HostRuntime) -> Result<(), Fail> {
    assert!(rt; is_code(box_load(rt.alloc())?, &BOX_LOAD));
    Ok(())
}

/// Places of the stub, and the words there. The check is the stub up to its word 31, and the saving is
/// the rest.
const PLACES: [(usize, u32); 8] = [
    (0, 0xFFF0_3C23),
    (9, 0x05FE_8463),
    (25, 0x0000_600B),
    (30, 0x000F_3423),
    (31, 0x4200_1FB7),
    (36, 0x001F_B423),
    (65, 0x0FEF_B823),
    (70, 0xF49F_F06F),
];

/// Whether code closes to 71 words, of which these are at their places.
fn is_stub(buf: CodeBuf) -> bool {
    match buf.close() {
        Ok(words) => words.len() == 71 && has_places(words.as_slice()),
        Err(_) => false,
    }
}

fn has_places(words: &[u32]) -> bool {
    for (place, word) in &PLACES {
        if words.get(*place) != Some(word) {
            return false;
        }
    }
    true
}

#[test]
fn checks_and_saves(rt: HostRuntime) -> Result<(), Fail> {
    assert!(rt; is_stub(stub(rt.alloc())?));
    Ok(())
}
