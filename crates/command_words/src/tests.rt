use crate::{Command, Request, read_words};
use spec_base::{Move, NoMemory, Version};
use std::alloc::Global;
use std::test::Fail;

// The words between the spaces of a line.
fn words(alloc: Global, line: &str) -> Result<Vec<String>, NoMemory> {
    let mut words = Vec::new(alloc);
    for word in line.split(' ') {
        words.push(String::from_str(alloc, word)?)?;
    }
    Ok(words)
}

fn read(alloc: Global, line: &str) -> Result<Option<Request>, NoMemory> {
    read_words(alloc, &words(alloc, line)?)
}

fn is_read(alloc: Global, line: &str) -> Result<bool, NoMemory> {
    Ok(read(alloc, line)?.is_some())
}

fn is_second(request: &Request, word: &str) -> bool {
    match request.arguments.as_slice() {
        [_, second, ..] => second.as_str() == word,
        _ => false,
    }
}

// The command, the turns, the regions, the blocks, the depth, `every` and the number.
type Numbers = (Command, u64, u32, u32, u32, u64, u64);

// The layout, whether there is a report, whether uses are told, and the count of arguments.
type Choices = (Version, bool, bool, usize);

fn numbers(request: &Request) -> Numbers {
    let options = &request.options;
    (
        request.command,
        options.turns,
        options.regions,
        options.blocks,
        options.depth,
        options.every,
        request.number,
    )
}

fn choices(request: &Request) -> Choices {
    let options = &request.options;
    let count = request.arguments.as_slice().len();
    (options.layout, options.report, options.uses, count)
}

fn has_moves(request: &Request, moves: &[(Move, u32)]) -> bool {
    request.options.pattern.items.as_slice() == moves
}

// A line with a word of `count` letters between these two parts.
fn long_line(alloc: Global, before: &str, count: usize, after: &str) -> Result<String, NoMemory> {
    let mut line = String::from_str(alloc, before)?;
    for _ in 0..count {
        line.push_str("a")?;
    }
    line.push_str(after)?;
    Ok(line)
}

fn many_words(alloc: Global, count: usize) -> Result<String, NoMemory> {
    let mut line = String::from_str(alloc, "run")?;
    for _ in 0..count {
        line.push_str(" a")?;
    }
    Ok(line)
}

const REFUSED: [&str; 46] = [
    "",
    "walk m1",
    "plain",
    "run --pattern X1 m1",
    "run --pattern O01 m1",
    "run --pattern O0S1 m1",
    "run --pattern O m1",
    "run --pattern OS1 m1",
    "run --pattern O1000001 m1",
    "run --pattern= m1",
    "run --regions 0 m1",
    "run --regions 65537 m1",
    "run --turns 5 --turns 6 m1",
    "run --turns 0 m1",
    "run --turns 1000000000000001 m1",
    "run --turns=00000000000000001 m1",
    "run --turns= m1",
    "run --turns +5 m1",
    "run --turns -5 m1",
    "run m1 --turns",
    "run --turns -- 5 m1",
    "run --report --report m1",
    "run --report=1 m1",
    "run --layout 3 m1",
    "run -x m1",
    "run - m1",
    "run --Turns 5 m1",
    "plain --report m1",
    "plain --regions 5 m1",
    "trace --report m1",
    "run --uses m1",
    "rewrite --turns 5 m1",
    "rewrite m1 m2",
    "replay t1 t2",
    "replay --every 0 t1",
    "plan --depth 5 t1",
    "plan --blocks 65537 t1",
    "demo",
    "demo 200001",
    "demo x",
    "demo 1 2",
    "demo --layout 1 1",
    "run  m1",
    "run \0 m1",
    "run m1 a\0",
    "run m1 \0",
];

// The first of the lines above that is read.
fn first_read(alloc: Global) -> Result<Option<usize>, NoMemory> {
    for (i, line) in REFUSED.iter().enumerate() {
        if is_read(alloc, line)? {
            return Ok(Some(i));
        }
    }
    Ok(None)
}

#[test]
fn refused_lines(rt: HostRuntime) -> Result<(), Fail> {
    assert_eq!(rt; first_read(rt.alloc())?, None);
    assert!(rt; read_words(rt.alloc(), &[])?.is_none());
    Ok(())
}

// Whether a line with a word of so many letters between these two parts is read.
fn is_read_with(alloc: Global, before: &str, count: usize, after: &str) -> Result<bool, NoMemory> {
    let line = long_line(alloc, before, count, after)?;
    is_read(alloc, line.as_str())
}

fn are_read(alloc: Global, count: usize) -> Result<bool, NoMemory> {
    let line = many_words(alloc, count)?;
    is_read(alloc, line.as_str())
}

#[test]
fn limits_on_words(rt: HostRuntime) -> Result<(), Fail> {
    assert!(rt; is_read_with(rt.alloc(), "run ", 255, "")?);
    assert!(rt; !is_read_with(rt.alloc(), "run ", 256, "")?);
    assert!(rt; are_read(rt.alloc(), 64)?);
    assert!(rt; !are_read(rt.alloc(), 65)?);
    assert!(rt; is_read_with(rt.alloc(), "run m1 ", 65_532, "")?);
    assert!(rt; !is_read_with(rt.alloc(), "run m1 ", 65_533, "")?);
    assert!(rt; is_read_with(rt.alloc(), "run m1 ", 65_530, " b")?);
    assert!(rt; !is_read_with(rt.alloc(), "run m1 ", 65_531, " b")?);
    Ok(())
}

// Whether a line gives these numbers and choices.
fn gives(alloc: Global, line: &str, wanted: &Numbers, chosen: &Choices) -> Result<bool, NoMemory> {
    match read(alloc, line)? {
        Some(request) => Ok(numbers(&request) == *wanted && choices(&request) == *chosen),
        None => Ok(false),
    }
}

// Whether a line gives this pattern.
fn gives_moves(alloc: Global, line: &str, moves: &[(Move, u32)]) -> Result<bool, NoMemory> {
    match read(alloc, line)? {
        Some(request) => Ok(has_moves(&request, moves)),
        None => Ok(false),
    }
}

// Lines with a command and its arguments alone.
const BARE: [(&str, Command); 7] = [
    ("plain m1", Command::Plain),
    ("rewrite m1", Command::Rewrite),
    ("run m1", Command::Run),
    ("trace m1", Command::Trace),
    ("replay t1", Command::Replay),
    ("plan t1", Command::Plan),
    ("demo 00", Command::Demo),
];

// The first of them that doesn't give the defaults.
fn first_other_default(alloc: Global) -> Result<Option<usize>, NoMemory> {
    let moves = [(Move::O, 1), (Move::S, 600), (Move::D, 1)];
    for (i, (line, command)) in BARE.iter().enumerate() {
        let wanted = (*command, 10_000_000_000, 4096, 256, 64, 1, 0);
        if !gives(alloc, line, &wanted, &(Version::Two, false, false, 1))?
            || !gives_moves(alloc, line, &moves)?
        {
            return Ok(Some(i));
        }
    }
    Ok(None)
}

#[test]
fn defaults(rt: HostRuntime) -> Result<(), Fail> {
    assert_eq!(rt; first_other_default(rt.alloc())?, None);
    Ok(())
}

const OPTIONS: [(&str, Numbers, Choices); 7] = [
    (
        "plain --turns 1000000000000000 --layout 01 m1",
        (Command::Plain, 1_000_000_000_000_000, 4096, 256, 64, 1, 0),
        (Version::One, false, false, 1),
    ),
    (
        "rewrite --regions=65536 m1 --layout=2",
        (Command::Rewrite, 10_000_000_000, 65_536, 256, 64, 1, 0),
        (Version::Two, false, false, 1),
    ),
    (
        "run m1 --turns 0000000000000005 a --report b --regions 1 --pattern T1 --layout 1",
        (Command::Run, 5, 1, 256, 64, 1, 0),
        (Version::One, true, false, 3),
    ),
    (
        "trace --uses --regions 7 --turns 1 --pattern D1 --layout 1 m1",
        (Command::Trace, 1, 7, 256, 64, 1, 0),
        (Version::One, false, true, 1),
    ),
    (
        "replay --blocks 1 t1 --depth 65536 --every 1000000000000000",
        (
            Command::Replay,
            10_000_000_000,
            4096,
            1,
            65_536,
            1_000_000_000_000_000,
            0,
        ),
        (Version::Two, false, false, 1),
    ),
    (
        "plan --blocks=65536 t1",
        (Command::Plan, 10_000_000_000, 4096, 65_536, 64, 1, 0),
        (Version::Two, false, false, 1),
    ),
    (
        "demo 200000",
        (Command::Demo, 10_000_000_000, 4096, 256, 64, 1, 200_000),
        (Version::Two, false, false, 1),
    ),
];

// The first line that gives other numbers or choices.
fn first_wrong_option(alloc: Global) -> Result<Option<usize>, NoMemory> {
    for (i, (line, wanted, chosen)) in OPTIONS.iter().enumerate() {
        if !gives(alloc, line, wanted, chosen)? {
            return Ok(Some(i));
        }
    }
    Ok(None)
}

#[test]
fn options_of_each_command(rt: HostRuntime) -> Result<(), Fail> {
    assert_eq!(rt; first_wrong_option(rt.alloc())?, None);
    Ok(())
}

#[test]
fn patterns_of_moves(rt: HostRuntime) -> Result<(), Fail> {
    let moves = [
        (Move::S, 1_000_000),
        (Move::T, 20),
        (Move::O, 3),
        (Move::D, 1),
    ];
    assert!(rt; gives_moves(rt.alloc(), "run --pattern S1000000T20O3D1 m1", &moves)?);
    Ok(())
}

// Lines, and the second argument that each gives.
const BEHIND: [(&str, &str); 7] = [
    ("plain -- -x -y", "-y"),
    ("plain -- m1 --turns", "--turns"),
    ("plain m1 -- --turns 5", "--turns"),
    ("plain m1 --turns 5 a b", "a"),
    ("plain m1 -- --", "--"),
    ("plain m1  b", ""),
    ("plain m1 a-b", "a-b"),
];

// The first line that gives another second argument.
fn first_wrong_argument(alloc: Global) -> Result<Option<usize>, NoMemory> {
    for (i, (line, second)) in BEHIND.iter().enumerate() {
        match read(alloc, line)? {
            Some(request) if is_second(&request, second) => {}
            _ => return Ok(Some(i)),
        }
    }
    Ok(None)
}

#[test]
fn words_behind_the_options(rt: HostRuntime) -> Result<(), Fail> {
    assert_eq!(rt; first_wrong_argument(rt.alloc())?, None);
    assert!(rt; !is_read(rt.alloc(), "plain m1 -y")?);
    Ok(())
}
