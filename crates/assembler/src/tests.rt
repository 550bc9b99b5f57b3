//! Words from the listings of llvm-mc (Debian LLVM 14.0.6, `llvm-mc -triple=riscv64 -mattr=+m`).

use crate::place::{APPEND, LOGFULL, RET, X30, X31};
use crate::{
    add, addi, andi, beq, between, bgeu, bltu, bne, emit, hi, hkey, hsite, jal, jalr, ld, lo, lui,
    lwu, nop, sd, slli, srli, sub, sw, to_helper, to_word, x,
};
use rv_encode::{CodeBuf, encode};
use std::test::Fail;

#[test]
fn operations(rt: HostRuntime) {
    assert_eq!(rt; encode(&lui(x(31), 0x41100)), 0x4110_0FB7);
    assert_eq!(rt; encode(&lui(x(30), 0xFFFFF)), 0xFFFF_FF37);
    assert_eq!(rt; encode(&addi(x(31), x(31), -256)), 0xF00F_8F93);
    assert_eq!(rt; encode(&andi(x(30), x(31), 7)), 0x007F_FF13);
    assert_eq!(rt; encode(&slli(x(31), x(31), 63)), 0x03FF_9F93);
    assert_eq!(rt; encode(&srli(x(30), x(31), 8)), 0x008F_DF13);
    assert_eq!(rt; encode(&nop()), 0x0000_0013);
    assert_eq!(rt; encode(&add(x(31), x(31), x(30))), 0x01EF_8FB3);
    assert_eq!(rt; encode(&sub(x(29), x(31), x(29))), 0x41DF_8EB3);
}

#[test]
fn accesses(rt: HostRuntime) {
    assert_eq!(rt; encode(&ld(x(31), X31, x(0))), 0xFF80_3F83);
    assert_eq!(rt; encode(&lwu(x(30), 0, x(30))), 0x000F_6F03);
    assert_eq!(rt; encode(&sd(x(12), 264, x(29))), 0x10CE_B423);
    assert_eq!(rt; encode(&sw(x(31), 8, x(30))), 0x01FF_2423);
}

#[test]
fn jumps(rt: HostRuntime) {
    assert_eq!(rt; encode(&jal(x(0), -128)), 0xF81F_F06F);
    assert_eq!(rt; encode(&jalr(x(31), 820, x(31))), 0x334F_8FE7);
    assert_eq!(rt; encode(&beq(x(31), x(0), 76)), 0x040F_8663);
    assert_eq!(rt; encode(&bne(x(29), x(12), 40)), 0x02CE_9463);
    assert_eq!(rt; encode(&bltu(x(31), x(30), -1108)), 0xBBEF_E6E3);
    assert_eq!(rt; encode(&bgeu(x(30), x(29), 20)), 0x01DF_7A63);
}

#[test]
fn gates(rt: HostRuntime) {
    assert_eq!(rt; encode(&hkey(x(31))), 0x0000_3F8B);
    assert_eq!(rt; encode(&hsite(x(30))), 0x0000_2F0B);
}

/// What lui and addi make of the two parts of a number is the number.
#[test]
fn numbers(rt: HostRuntime) {
    assert_eq!(rt; (hi(0x1_07FF), lo(0x1_07FF)), (0x10, 0x7FF));
    assert_eq!(rt; (hi(0x1_0800), lo(0x1_0800)), (0x11, -0x800));
    assert_eq!(rt; (hi(0xFFFF_FFFF), lo(0xFFFF_FFFF)), (0, -1));
    assert_eq!(rt; (hi(u64::MAX), lo(u64::MAX)), (0, -1));
}

#[test]
fn distances(rt: HostRuntime) {
    assert_eq!(rt; to_word(4, 23), 76);
    assert_eq!(rt; to_word(25, 21), -16);
    assert_eq!(rt; to_helper(APPEND, 12, LOGFULL), 260);
    assert_eq!(rt; between(0x24, 0x10), -20);
}

#[test]
fn emits_behind_what_was_there(rt: HostRuntime) -> Result<(), Fail> {
    let mut buf = CodeBuf::new(rt.alloc());
    buf.push(0x0000_0073)?;
    emit(&mut buf, &[sd(x(31), RET, x(0)), sd(x(30), X30, x(0))])?;
    let words = buf.close().map_err(|_| "the code closes")?;
    assert_eq!(rt;
        words.as_slice(),
        [0x0000_0073, 0xFDF0_3823, 0xFFE0_3823].as_slice()
    );
    Ok(())
}
