//! Words made at once and the same words made one by one.

use crate::machines::{Machine, counts, demo_machine, go, go_many};
use runner_parts::{End, Turn};
use spec_base::{Move, Reg, ShadowState};
use std::alloc::Global;
use std::test::Fail;

// Whether two runners are alike, as far as they tell.
fn alike(one: &Machine, other: &Machine) -> bool {
    counts(one) == counts(other)
        && one.runner.shadow() == other.runner.shadow()
        && one.runner.notes() == other.runner.notes()
        && one.runner.own().pc() == other.runner.own().pc()
        && one.runner.own().reg(Reg::from_low_bits(18))
            == other.runner.own().reg(Reg::from_low_bits(18))
}

// Many words at once, where a runner has made few moves.
fn at_once(machine: &mut Machine, step: Move, most: u64) -> u64 {
    if machine.runner.moves() > 1_000_000_000 || most > 1_000_000 {
        return 0;
    }
    if step == Move::S {
        machine.runner.go_shadow(most)
    } else {
        machine.runner.go_own(most)
    }
}

// A program in two runners.
#[derive(Drop)]
struct Pair {
    one: Box<Machine>,
    other: Box<Machine>,
}

// Makes words of a hart at once in one runner, and as many moves in the other. Then one move in both: behind fewer than
// wanted the next is none that is made at once. Answers its turn, where the runners were alike throughout.
fn both(pair: &mut Pair, step: Move, most: u64) -> Option<Turn> {
    let made = at_once(&mut pair.one, step, most);
    go_many(&mut pair.other, step, made);
    let words = alike(&pair.one, &pair.other);
    let turn = go(&mut pair.one, step);
    let same = go(&mut pair.other, step) == turn;
    if words && same && alike(&pair.one, &pair.other) {
        Some(turn)
    } else {
        None
    }
}

// The same move in both: whether its turns are the same.
fn go_both(pair: &mut Pair, step: Move) -> bool {
    go(&mut pair.one, step) == go(&mut pair.other, step)
}

// The shadow runs until it parks. Whether the runners stay alike.
fn both_park(pair: &mut Pair, most: u64) -> bool {
    for _ in 0..20_000 {
        if pair.one.runner.shadow() != ShadowState::Running {
            return true;
        }
        if both(pair, Move::S, most).is_none() {
            return false;
        }
    }
    false
}

// How many instructions of the program the shadow has completed as it parks, where the runners stay alike.
fn parked_at(pair: &mut Pair, most: u64) -> u64 {
    if pair.one.runner.shadow() == ShadowState::Running && both_park(pair, most) {
        pair.one.runner.shadow_done()
    } else {
        0
    }
}

// A program of 40 records at its start.
fn new_pair(alloc: Global) -> Result<Pair, Fail> {
    let one = demo_machine(alloc, 100, 40)?;
    let other = demo_machine(alloc, 100, 40)?;
    Ok(Pair { one, other })
}

// The same, once it has restarted its shadow before its first read.
fn restarted_pair(alloc: Global) -> Result<Pair, Fail> {
    let mut pair = new_pair(alloc)?;
    go_many(&mut pair.one, Move::O, 400);
    go_many(&mut pair.other, Move::O, 400);
    Ok(pair)
}

// From the restart on the shadow makes at most so many words at once, until it parks. Where that is.
fn shadow_done(alloc: Global, most: u64) -> Result<u64, Fail> {
    let mut pair = restarted_pair(alloc)?;
    Ok(parked_at(&mut pair, most))
}

// It hints 39 reads, and assumes the exit behind them.
#[test]
fn words_of_the_shadow_at_once_are_those_made_one_by_one(rt: HostRuntime) -> Result<(), Fail> {
    assert_eq!(rt; shadow_done(rt.alloc(), 1)?, 658);
    assert_eq!(rt; shadow_done(rt.alloc(), 7)?, 658);
    assert_eq!(rt; shadow_done(rt.alloc(), 10_000)?, 658);
    Ok(())
}

// The program runs to its end, in stretches of at most 50 words. The last turn, where the runners stay alike.
fn both_end(pair: &mut Pair) -> Option<Turn> {
    for _ in 0..20_000 {
        let turn = both(pair, Move::O, 50)?;
        if turn != Turn::Went && turn != Turn::Idle {
            return Some(turn);
        }
        if turn == Turn::Idle && !go_both(pair, Move::D) {
            return None;
        }
    }
    None
}

#[test]
fn words_of_the_program_at_once_are_those_made_one_by_one(rt: HostRuntime) -> Result<(), Fail> {
    let mut pair = new_pair(rt.alloc())?;
    assert!(rt; both_end(&mut pair) == Some(Turn::Ended(End::Exit(0))));
    assert_eq!(rt; pair.one.runner.own_done(), 677);
    Ok(())
}
