//! Schedules, and lines over a sink that takes a part or fails.

ghost use Rattle.command_words.specs.Limits.{IsPattern};

use crate::lines::{LineFault, put_made};
use crate::schedule::Schedule;
use spec_base::{List, Move};
use std::alloc::Global;
use std::test::Fail;
use world_io::MemSink;

// The first stretches of a pattern, up to five.
fn stretches(
    alloc: Global,
    pattern: &List<(Move, u32)>,
    turns: u64,
) -> Result<Vec<(Move, u64)>, Fail>
    requires { IsPattern pattern.now }
{
    let mut stretches = Vec::new(alloc);
    let mut schedule = Schedule::new(pattern, turns);
    for _ in 0..5 {
        if let Some(stretch) = schedule.next_stretch() {
            stretches.push(stretch)?;
        }
    }
    Ok(stretches)
}

#[test]
fn a_pattern_is_repeated(rt: HostRuntime) -> Result<(), Fail> {
    let alloc = rt.alloc();
    let pattern = List {
        items: vec![in alloc; (Move::O, 1), (Move::S, 2), (Move::D, 1)]?,
    };
    assert_eq!(rt; stretches(alloc, &pattern, 0)?.len(), 0);
    assert_eq!(rt;
        stretches(alloc, &pattern, 6)?.as_slice(),
        [
            (Move::O, 1),
            (Move::S, 2),
            (Move::D, 1),
            (Move::O, 1),
            (Move::S, 1)
        ]
        .as_slice()
    );
    Ok(())
}

// How many of 21 moves of a pattern are passed with so many of the own hart, and what comes next.
fn passed(pattern: &List<(Move, u32)>, own: u64) -> (u64, Option<(Move, u64)>)
    requires { IsPattern pattern.now }
{
    let mut schedule = Schedule::new(pattern, 21);
    if schedule.own_left() < own {
        return (0, None);
    }
    let moves = schedule.pass_own(own);
    (moves, schedule.next_stretch())
}

#[test]
fn moves_of_the_own_hart_are_passed(rt: HostRuntime) -> Result<(), Fail> {
    let alloc = rt.alloc();
    let pattern = List {
        items: vec![in alloc; (Move::O, 2), (Move::S, 3), (Move::O, 1), (Move::D, 1)]?,
    };
    let rows = [
        (0, 0, (Move::O, 2)),
        (1, 1, (Move::O, 1)),
        (2, 2, (Move::S, 3)),
        (3, 7, (Move::O, 2)),
        (4, 8, (Move::O, 1)),
        (5, 9, (Move::S, 3)),
        (6, 14, (Move::O, 2)),
        (7, 15, (Move::O, 1)),
    ];
    for (own, moves, next) in &rows {
        assert_eq!(rt; passed(&pattern, *own), (*moves, Some(*next)));
    }
    Ok(())
}

// What a sink has of a line of three bytes, and whether that is put whole. The sink takes one byte of
// the first put, and the puts in `fails` fail.
fn line_over(alloc: Global, fails: &[u64]) -> Result<(Vec<u8>, Result<(), LineFault>), Fail> {
    let most = vec![in alloc; 1usize]?;
    let mut sink = MemSink::new(alloc, 8, fails.to_vec(alloc)?, most)?;
    let answer = put_made(&mut sink, Ok(b"ab\n".to_vec(alloc)?));
    Ok((sink.bytes().to_vec(alloc)?, answer))
}

#[test]
fn a_line_is_put_until_it_is_whole(rt: HostRuntime) -> Result<(), Fail> {
    let alloc = rt.alloc();
    let (bytes, answer) = line_over(alloc, &[])?;
    assert_eq!(rt; bytes.as_slice(), b"ab\n".as_slice());
    assert_eq!(rt; answer, Ok(()));
    Ok(())
}

#[test]
fn a_failed_put_is_the_last(rt: HostRuntime) -> Result<(), Fail> {
    let alloc = rt.alloc();
    let (bytes, answer) = line_over(alloc, &[2])?;
    assert_eq!(rt; bytes.as_slice(), b"a".as_slice());
    assert_eq!(rt; answer, Err(LineFault::Sink));
    Ok(())
}
