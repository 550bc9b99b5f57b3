//! A walk over the block of an instruction. What walks do is their contract; the law of a call's block says the rest.

use crate::{Walked, walk};
use hart_mem::Mem;
use hart_step::Hart;
use hint_stub::stub;
use shadow_text::{blocks, helpers};
use spec_base::{Layout, SHADOW_START, Version, View};
use std::alloc::Global;
use std::test::Fail;

/// `addi x5, x5, 1`, and `jal x0, -4`.
const TEXT: [u32; 2] = [0x0012_8293, 0xFFDF_F06F];

const LAYOUT: Layout = Layout {
    text_start: 0x1_0078,
    text_end: 0x1_0080,
    regions: 1,
    version: Version::Two,
};

// The memory of this text, with the code of its shadow.
fn memory(alloc: Global) -> Result<Mem, Fail> {
    let mut mem = Mem::new(alloc, LAYOUT, TEXT.to_vec(alloc)?)?;
    let shadow = blocks(alloc, &TEXT, &LAYOUT)?;
    mem.set_code(shadow, helpers(alloc, &LAYOUT)?, stub(alloc)?)?;
    Ok(mem)
}

#[test]
fn walks_over_a_block(rt: HostRuntime) -> Result<(), Fail> {
    let mut mem = memory(rt.alloc())?;
    let mut hart = Hart::new(SHADOW_START + 4, View::Shadow);
    let walked = walk(&mut hart, &mut mem, &LAYOUT, 0);
    assert_eq!(rt; walked, Some(Walked::Arrived(2)));
    Ok(())
}
