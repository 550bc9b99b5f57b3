//! Instructions against vectors from outside, and each gate word in each view.

use crate::vectors::{BRANCHES, OPERANDS, RESULTS};
use crate::{Event, Hart, shadow_steps, step, steps};
use hart_mem::Mem;
use spec_base::{Layout, NoMemory, Park, Reg, STUB_START, Trap, Version, View};
use std::alloc::Global;
use std::process::Abort;
use std::test::Fail;

const TEXT: u64 = 0x1_0000;

const ILLEGAL: Event = Event::Trap(Trap::Illegal);

fn x(number: u32) -> Reg {
    Reg::from_low_bits(number)
}

// A memory with a text, and no spare frame.
fn memory_of(alloc: Global, text: Vec<u32>) -> Result<Mem, NoMemory> {
    let count = text.len();
    if count > 1000 {
        return Err(NoMemory);
    }
    let layout = Layout {
        text_start: TEXT,
        text_end: TEXT + 4 * count as u64,
        regions: 1,
        version: Version::One,
    };
    if !layout.is_lawful() {
        return Err(NoMemory);
    }
    Mem::new(alloc, layout, text)
}

// A memory whose text is the words of these rows.
fn memory_of_rows(alloc: Global, rows: &[(u32, u64, [u64; 5])]) -> Result<Mem, NoMemory> {
    let mut text = Vec::new(alloc);
    for (word, _, _) in rows {
        text.push(*word)?;
    }
    memory_of(alloc, text)
}

// Whether one step here, with x6 and x7 so, completes and computes this: in x5, or of a branch how far
// the pc goes.
fn computes(mem: &mut Mem, pc: u64, operands: (u64, u64), is_branch: bool, want: u64) -> bool {
    let mut hart = Hart::new(pc, View::Plain);
    hart.set_reg(x(6), operands.0);
    hart.set_reg(x(7), operands.1);
    let told = step(&mut hart, mem);
    let result = if is_branch {
        hart.pc().wrapping_sub(pc)
    } else {
        hart.reg(x(5))
    };
    told == Event::Done && result == want
}

// Whether the word here computes the results of a row, one for each first operand.
fn computes_row(mem: &mut Mem, pc: u64, second: u64, results: &[u64; 5], is_branch: bool) -> bool {
    for i in 0..5 {
        if !computes(mem, pc, (OPERANDS[i], second), is_branch, results[i]) {
            return false;
        }
    }
    true
}

// The pc of the first row that computes something else.
fn first_wrong(
    alloc: Global,
    rows: &[(u32, u64, [u64; 5])],
    are_branches: bool,
) -> Result<Option<u64>, NoMemory> {
    let mut mem = memory_of_rows(alloc, rows)?;
    let mut pc = TEXT;
    for (_, second, results) in rows {
        if !computes_row(&mut mem, pc, *second, results, are_branches) {
            return Ok(Some(pc));
        }
        pc = pc.wrapping_add(4);
    }
    Ok(None)
}

#[test]
fn computes_numbers(rt: HostRuntime) -> Result<(), Fail> {
    assert_eq!(rt; first_wrong(rt.alloc(), &RESULTS, false)?, None);
    Ok(())
}

#[test]
fn branches(rt: HostRuntime) -> Result<(), Fail> {
    assert_eq!(rt; first_wrong(rt.alloc(), &BRANCHES, true)?, None);
    Ok(())
}

// A word, what the step tells, the pc and x5 after it. x6 holds the start of the text.
const JUMPS: [(u32, Event, u64, u64); 17] = [
    // jal x5, 16
    (0x0100_02EF, Event::Done, 0x1_0010, 0x1_0004),
    // jal x5, 2
    (0x0020_02EF, Event::Trap(Trap::Misaligned), 0x1_0004, 0),
    // jalr x5, 5(x6)
    (0x0053_02E7, Event::Done, 0x1_0004, 0x1_000C),
    // jalr x5, 3(x6)
    (0x0033_02E7, Event::Trap(Trap::Misaligned), 0x1_000C, 0),
    // beq x0, x0, 2
    (0x0000_0163, Event::Trap(Trap::Misaligned), 0x1_0010, 0),
    // bne x0, x0, 2
    (0x0000_1163, Event::Done, 0x1_0018, 0),
    // lui x5, 0x80000
    (0x8000_02B7, Event::Done, 0x1_001C, 0xFFFF_FFFF_8000_0000),
    // auipc x5, 1
    (0x0000_1297, Event::Done, 0x1_0020, 0x1_101C),
    // addi x0, x6, 1
    (0x0013_0013, Event::Done, 0x1_0024, 0),
    // fence
    (0x0FF0_000F, Event::Done, 0x1_0028, 0),
    // ebreak
    (0x0010_0073, Event::Trap(Trap::Break), 0x1_0028, 0),
    // no instruction
    (0x0000_0000, Event::Trap(Trap::Illegal), 0x1_002C, 0),
    // lh x5, 1(x6)
    (0x0013_1283, Event::Trap(Trap::Misaligned), 0x1_0030, 0),
    // lw x5, 0(x6)
    (0x0003_2283, Event::Trap(Trap::LoadOut), 0x1_0034, 0),
    // sd x7, 4(x6)
    (0x0073_3223, Event::Trap(Trap::Misaligned), 0x1_0038, 0),
    // sd x7, 0(x6)
    (0x0073_3023, Event::Trap(Trap::StoreOut), 0x1_003C, 0),
    // sd x7, -8(x6)
    (0xFE73_3C23, Event::NoMemory, 0x1_0040, 0),
];

// A word, and x5 after it. x6 holds 0x2000, x7 what is stored.
const LOADS: [(u32, u64); 15] = [
    // sd x7, 0(x6)
    (0x0073_3023, 0),
    // lb x5, 0(x6)
    (0x0003_0283, 0xFFFF_FFFF_FFFF_FF98),
    // lh x5, 0(x6)
    (0x0003_1283, 0xFFFF_FFFF_FFFF_BA98),
    // lw x5, 0(x6)
    (0x0003_2283, 0xFFFF_FFFF_FEDC_BA98),
    // ld x5, 0(x6)
    (0x0003_3283, 0x8765_4321_FEDC_BA98),
    // lbu x5, 0(x6)
    (0x0003_4283, 0x98),
    // lhu x5, 0(x6)
    (0x0003_5283, 0xBA98),
    // lwu x5, 0(x6)
    (0x0003_6283, 0xFEDC_BA98),
    // lb x5, 4(x6)
    (0x0043_0283, 0x21),
    // sb x7, 8(x6)
    (0x0073_0423, 0x21),
    // ld x5, 8(x6)
    (0x0083_3283, 0x98),
    // sh x7, 16(x6)
    (0x0073_1823, 0x98),
    // ld x5, 16(x6)
    (0x0103_3283, 0xBA98),
    // sw x7, 24(x6)
    (0x0073_2C23, 0xBA98),
    // ld x5, 24(x6)
    (0x0183_3283, 0xFEDC_BA98),
];

// Whether a step here tells this, and leaves this pc and this x5.
fn goes(mem: &mut Mem, pc: u64, told: Event, next: u64, x5: u64) -> bool {
    let mut hart = Hart::new(pc, View::Plain);
    hart.set_reg(x(6), TEXT);
    step(&mut hart, mem) == told && (hart.pc(), hart.reg(x(5)), hart.reg(x(0))) == (next, x5, 0)
}

// A memory whose text is the words of these rows.
fn memory_of_jumps(alloc: Global, rows: &[(u32, Event, u64, u64)]) -> Result<Mem, NoMemory> {
    let mut text = Vec::new(alloc);
    for (word, _, _, _) in rows {
        text.push(*word)?;
    }
    memory_of(alloc, text)
}

// The pc of the first jump or trap that goes otherwise, or of the end of the text if it can be
// fetched.
fn first_wrong_jump(
    alloc: Global,
    rows: &[(u32, Event, u64, u64)],
) -> Result<Option<u64>, NoMemory> {
    let mut mem = memory_of_jumps(alloc, rows)?;
    let mut pc = TEXT;
    for (_, told, next, x5) in rows {
        if !goes(&mut mem, pc, *told, *next, *x5) {
            return Ok(Some(pc));
        }
        pc = pc.wrapping_add(4);
    }
    if !goes(&mut mem, pc, Event::Trap(Trap::FetchOut), pc, 0) {
        return Ok(Some(pc));
    }
    Ok(None)
}

#[test]
fn jumps_and_traps(rt: HostRuntime) -> Result<(), Fail> {
    assert_eq!(rt; first_wrong_jump(rt.alloc(), &JUMPS)?, None);
    Ok(())
}

#[test]
fn answers_at_the_last_word(rt: HostRuntime) {
    let mut hart = Hart::new(0xFFFF_FFFF_FFFF_FFFC, View::Plain);
    hart.answer(x(5), 9);
    assert_eq!(rt; (hart.pc(), hart.reg(x(5))), (0, 9));
}

// A memory whose text is the words of these rows, with a spare frame.
fn memory_of_loads(alloc: Global, rows: &[(u32, u64)]) -> Result<Mem, NoMemory> {
    let mut text = Vec::new(alloc);
    for (word, _) in rows {
        text.push(*word)?;
    }
    let mut mem = memory_of(alloc, text)?;
    mem.reserve(1)?;
    Ok(mem)
}

// The pc of the first load or store that leaves another x5, and how many frames are spare then.
fn first_wrong_load(alloc: Global, rows: &[(u32, u64)]) -> Result<(Option<u64>, usize), NoMemory> {
    let mut mem = memory_of_loads(alloc, rows)?;
    let mut hart = Hart::new(TEXT, View::Plain);
    hart.set_reg(x(6), 0x2000);
    hart.set_reg(x(7), 0x8765_4321_FEDC_BA98);
    for (_, x5) in rows {
        let pc = hart.pc();
        if step(&mut hart, &mut mem) != Event::Done || hart.reg(x(5)) != *x5 {
            return Ok((Some(pc), mem.spare()));
        }
    }
    Ok((None, mem.spare()))
}

#[test]
fn loads_what_was_stored(rt: HostRuntime) -> Result<(), Fail> {
    assert_eq!(rt; first_wrong_load(rt.alloc(), &LOADS)?, (None, 0));
    Ok(())
}

// HGATE, HLEAVE, HSITE x5, HKEY x5, HSTOP, HRESTART, HCALL 0, HCALL 1, HPARK 1, HPARK 5, HPARK 0
// and ECALL.
const GATES: [u32; 12] = [
    0x000B, 0x100B, 0x228B, 0x328B, 0x400B, 0x500B, 0x600B, 0x608B, 0x708B, 0x728B, 0x700B, 0x0073,
];

// Where the code of a view starts.
fn start_of(view: View) -> u64 {
    match view {
        View::Plain | View::Program => TEXT,
        View::Stub => STUB_START,
        View::Shadow => 0x4000_0000,
    }
}

// The pc, the view and the site that a step leaves behind.
fn place_after(event: Event, pc: u64, view: View) -> (u64, View, u64) {
    match event {
        Event::Gate => (STUB_START, View::Stub, pc),
        Event::Leave => (4, View::Program, 0),
        Event::Done | Event::Stop | Event::Restart | Event::Park(_) => {
            (pc.wrapping_add(4), view, 0)
        }
        _ => (pc, view, 0),
    }
}

// A memory with these words at the start of each view's code.
fn memory_of_gates(alloc: Global) -> Result<Mem, NoMemory> {
    let layout = Layout {
        text_start: TEXT,
        text_end: TEXT + 48,
        regions: 1,
        version: Version::One,
    };
    let mut shadow = [0; 208];
    shadow[..12].copy_from_slice(&GATES);
    let mut stub = [0; 71];
    stub[..12].copy_from_slice(&GATES);
    let mut mem = Mem::new(alloc, layout, Vec::from_array(alloc, GATES)?)?;
    mem.set_code(
        Vec::from_array(alloc, shadow)?,
        vec![in alloc; 0; 282]?,
        Vec::from_array(alloc, stub)?,
    )?;
    Ok(mem)
}

// What a step tells at each gate word in a view, in the order of the words.
fn told_in(view: View) -> [Event; 12] {
    let mut told = [ILLEGAL; 12];
    match view {
        View::Plain => told[11] = Event::Ecall,
        View::Program => told[0] = Event::Gate,
        View::Stub => {
            told[1] = Event::Leave;
            told[2] = Event::Done;
            told[3] = Event::Key(x(5));
            told[4] = Event::Stop;
            told[5] = Event::Restart;
            told[6] = Event::Call(false);
        }
        View::Shadow => {
            told[3] = Event::Key(x(5));
            told[6] = Event::Call(false);
            told[7] = Event::Call(true);
            told[8] = Event::Park(Park::Exit);
            told[9] = Event::Park(Park::Store);
        }
    }
    told
}

// Whether steps, at most so many, pass so many words from here and are then stopped by this.
fn stops_so(mem: &mut Mem, view: View, pc: u64, most: u64, passed: u64, told: Event) -> bool {
    let mut hart = Hart::new(pc, view);
    let at = pc.wrapping_add(passed.wrapping_mul(4));
    let place = if told == Event::Done {
        (at, view, 0)
    } else {
        place_after(told, at, view)
    };
    steps(&mut hart, mem, most) == (passed, told) && (hart.pc(), hart.view(), hart.site()) == place
}

// Whether one step here tells this, and leaves the place that follows from it.
fn meets(mem: &mut Mem, view: View, pc: u64, told: Event) -> bool {
    let mut hart = Hart::new(pc, view);
    step(&mut hart, mem) == told
        && (hart.pc(), hart.view(), hart.site()) == place_after(told, pc, view)
}

// The pc of the first gate word that tells something else in this view.
fn first_wrong_gate(mem: &mut Mem, view: View) -> Option<u64> {
    let mut pc = start_of(view);
    for event in &told_in(view) {
        if !meets(mem, view, pc, *event) {
            return Some(pc);
        }
        pc = pc.wrapping_add(4);
    }
    None
}

#[test]
fn meets_each_gate_word_in_each_view(rt: HostRuntime) -> Result<(), Fail> {
    let mut mem = memory_of_gates(rt.alloc())?;
    assert_eq!(rt; first_wrong_gate(&mut mem, View::Plain), None);
    assert_eq!(rt; first_wrong_gate(&mut mem, View::Program), None);
    assert_eq!(rt; first_wrong_gate(&mut mem, View::Stub), None);
    assert_eq!(rt; first_wrong_gate(&mut mem, View::Shadow), None);
    Ok(())
}

// A program's visit to its stub: HGATE, HSITE x5 and HLEAVE, by what each step tells, and where each
// leaves the hart.
fn visits_the_stub(mem: &mut Mem) -> bool {
    let mut hart = Hart::new(TEXT, View::Program);
    let gate = step(&mut hart, mem);
    hart.set_pc(STUB_START + 8);
    let site = step(&mut hart, mem);
    hart.set_pc(STUB_START + 4);
    let leave = step(&mut hart, mem);
    (gate, site, leave) == (Event::Gate, Event::Done, Event::Leave)
        && (hart.reg(x(5)), hart.pc(), hart.view()) == (TEXT, TEXT + 4, View::Program)
}

#[test]
fn returns_from_the_stub_after_the_site(rt: HostRuntime) -> Result<(), Fail> {
    let mut mem = memory_of_gates(rt.alloc())?;
    assert!(rt; visits_the_stub(&mut mem));
    Ok(())
}

// The view, where to begin in its code, the most steps, how many words they pass, and what stops them.
const STOPS: [(View, u64, u64, u64, Event); 9] = [
    (View::Plain, 44, 3, 0, Event::Ecall),
    (View::Plain, 0, 1, 0, ILLEGAL),
    (View::Program, 0, 2, 0, Event::Gate),
    (View::Program, 48, 2, 0, Event::Trap(Trap::FetchOut)),
    (View::Stub, 8, 0, 0, Event::Done),
    (View::Stub, 8, 1, 1, Event::Done),
    (View::Stub, 4, 2, 0, Event::Leave),
    (View::Shadow, 28, 2, 0, Event::Call(true)),
    (View::Shadow, 36, 2, 0, Event::Park(Park::Store)),
];

// The first row whose steps are stopped otherwise.
fn first_wrong_stop(mem: &mut Mem) -> Option<usize> {
    for (i, (view, offset, most, passed, told)) in STOPS.iter().enumerate() {
        let pc = start_of(*view).wrapping_add(*offset);
        if !stops_so(mem, *view, pc, *most, *passed, *told) {
            return Some(i);
        }
    }
    None
}

#[test]
fn steps_up_to_what_stops_them(rt: HostRuntime) -> Result<(), Fail> {
    let mut mem = memory_of_gates(rt.alloc())?;
    assert_eq!(rt; first_wrong_stop(&mut mem), None);
    assert!(rt; stops_so(&mut mem, View::Stub, STUB_START + 8, 2, 1, Event::Key(x(5))));
    Ok(())
}

// Whether any number of steps at a word that jumps to itself completes.
fn loops(mem: &mut Mem, view: View) -> bool {
    for most in [0, 1, 2, 1000] {
        let mut hart = Hart::new(TEXT, view);
        if steps(&mut hart, mem, most) != (most, Event::Done)
            || (hart.pc(), hart.view()) != (TEXT, view)
        {
            return false;
        }
    }
    true
}

#[test]
fn loops_at_the_last_word(rt: HostRuntime) -> Result<(), Fail> {
    // A text of one word, which jumps to itself.
    let mut mem = memory_of(rt.alloc(), vec![in rt.alloc(); 0x0000_006F; 1]?)?;
    assert!(rt; loops(&mut mem, View::Plain) && loops(&mut mem, View::Program));
    Ok(())
}

#[test]
fn goes_on_past_the_end(rt: HostRuntime) -> Result<(), Fail> {
    // A text of one word: addi x5, x5, 1.
    let mut mem = memory_of(rt.alloc(), vec![in rt.alloc(); 0x0012_8293; 1]?)?;
    assert!(rt;
        stops_so(
            &mut mem,
            View::Plain,
            TEXT,
            9,
            1,
            Event::Trap(Trap::FetchOut)
        )
    );
    Ok(())
}

// A block of a shadow, whose word 6 stores and whose word 12 is illegal, and the guard block. All other words
// are addi x5, x5, 1.
fn memory_of_a_block(alloc: Global) -> Result<Mem, NoMemory> {
    let layout = Layout {
        text_start: TEXT,
        text_end: TEXT + 4,
        regions: 1,
        version: Version::One,
    };
    let mut shadow = [0x0012_8293; 32];
    // sd x5, -8(x0)
    shadow[6] = 0xFE50_3C23;
    shadow[12] = 0;
    let mut mem = Mem::new(alloc, layout, vec![in alloc; 0; 1]?)?;
    mem.set_code(
        Vec::from_array(alloc, shadow)?,
        vec![in alloc; 0; 282]?,
        vec![in alloc; 0; 71]?,
    )?;
    Ok(mem)
}

// Where to begin in the blocks, the most steps, how many complete, what is told then, and where the hart is.
const LOOKS: [(u64, u64, u64, Event, u64); 7] = [
    (0, 0, 0, Event::Done, 0),
    (0, 9, 1, Event::Done, 4),
    (4, 5, 5, Event::Done, 24),
    (4, 9, 6, Event::Done, 28),
    (28, 3, 3, Event::Done, 40),
    (40, 9, 2, ILLEGAL, 48),
    (56, 9, 3, Event::Done, 68),
];

// The first row whose steps end otherwise.
fn first_wrong_look(mem: &mut Mem) -> Option<usize> {
    for (i, (offset, most, completed, told, after)) in LOOKS.iter().enumerate() {
        let start = start_of(View::Shadow);
        let mut hart = Hart::new(start.wrapping_add(*offset), View::Shadow);
        if shadow_steps(&mut hart, mem, *most) != (*completed, *told)
            || hart.pc() != start.wrapping_add(*after)
        {
            return Some(i);
        }
    }
    None
}

#[test]
fn ends_where_a_look_is_due(rt: HostRuntime) -> Result<(), Fail> {
    let mut mem = memory_of_a_block(rt.alloc())?;
    assert_eq!(rt; first_wrong_look(&mut mem), None);
    Ok(())
}
