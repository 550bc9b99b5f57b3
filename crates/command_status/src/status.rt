//! How a command ends, with its exit code and its text.

ghost use Rattle.std.specs.Prelude.{◌≡◌, false, ◌++◌, ◌≤◌, ◌<◌, ◌^◌, length, drop, decimal};
ghost use Rattle.world_io.specs.Texts.{PutsText};
ghost use Rattle.std.specs.Fmt.{digits, digit_glyph};
ghost use Rattle.command_status.specs.Texts.{code_of, opening, subject, joint, closing, detail, gap, reason, pc_of, count_of, Tells};
ghost use Rattle.command_status.specs.Common.{EndingStatus};

use elf_image::Refusal;
use itoa::Buffer;
use plain_runner::Ending;
use spec_base::Trap;
use trace_text::trap_text;
use world_io::{Sink, put_all};

/// How a command ends.
#[derive(Clone, Copy, Debug, PartialEq, Eq)]
pub enum Status {
    /// The command has done what it should.
    Done,
    /// The program exited with this code.
    Exited(u8),
    /// The program trapped at this pc.
    Trapped(Trap, u64),
    /// So many instructions were completed, as many as were allowed.
    TurnsOver(u64),
    /// The words are no command line.
    Usage,
    /// The store has no file of the name.
    Absent,
    /// The file isn't an image of the profile.
    Refused(Refusal),
    /// The line of this number, from 1, is the first of the file that is no line of a trace.
    BadLine(u64),
    /// The lines of the trace need more than 4,000,000 blocks.
    TooMany,
    /// The store failed.
    StoreFault,
    /// A sink failed.
    SinkFault,
    /// An allocation was refused.
    NoMemory,
}

impl Status {
    /// The exit code: the program's own, or one from 117 on.
    pub fn code(&self) -> u8
        ensures { result ≡ code_of self.now }
    {
        match self {
            Status::Done => 0,
            Status::Exited(code) => *code,
            Status::TooMany => 117,
            Status::BadLine(_) => 118,
            Status::Absent => 119,
            Status::Usage => 120,
            Status::Refused(_) => 121,
            Status::StoreFault => 122,
            Status::SinkFault => 123,
            Status::TurnsOver(_) => 124,
            Status::NoMemory => 125,
            Status::Trapped(_, _) => 126,
        }
    }

    fn opening(&self) -> &'static [u8]
        ensures { result.now ≡ opening self.now }
    {
        match self {
            Status::Done | Status::Exited(_) | Status::SinkFault => b"",
            Status::Absent => b"spechint: cannot find ",
            Status::Usage => {
                b"spechint: usage: spechint plain|rewrite|run|trace [OPTIONS] IMAGE [ARGS], or spechint demo N"
            }
            Status::Refused(_) | Status::BadLine(_) | Status::TooMany => b"spechint: ",
            Status::StoreFault => b"spechint: read fault",
            Status::NoMemory => b"spechint: out of memory",
            Status::Trapped(_, _) => b"spechint: trap ",
            Status::TurnsOver(_) => b"spechint: turns over after ",
        }
    }

    fn subject<'a>(&self, name: &'a [u8]) -> &'a [u8]
        ensures { result.now ≡ subject self.now name.now }
    {
        match self {
            Status::Absent | Status::Refused(_) | Status::BadLine(_) | Status::TooMany => name,
            Status::Trapped(cause, _) => trap_text(*cause),
            _ => b"",
        }
    }

    fn joint(&self) -> &'static [u8]
        ensures { result.now ≡ joint self.now }
    {
        match self {
            Status::Refused(_) => b": refused: E",
            Status::BadLine(_) => b": bad line ",
            Status::TooMany => b": too many needs",
            Status::Trapped(_, _) => b" at 0x",
            _ => b"",
        }
    }

    // The pc of a trap, and else 0.
    fn pc(&self) -> u64
        ensures { result ≡ pc_of self.now }
    {
        match self {
            Status::Trapped(_, pc) => *pc,
            _ => 0,
        }
    }

    // How many instructions were completed where all turns are over, the number of a refusal
    // or of a bad line, and else 0.
    fn count(&self) -> u64
        ensures { result ≡ count_of self.now }
    {
        match self {
            Status::TurnsOver(count) => *count,
            Status::Refused(why) => u64::from(why.number()),
            Status::BadLine(number) => *number,
            _ => 0,
        }
    }

    fn detail<'a>(&self, pc: &'a [u8], count: &'a [u8]) -> &'a [u8]
        requires pc { pc.now ≡ digits 16 false (pc_of self.now) }
        requires count { count.now ≡ decimal (count_of self.now) }
        ensures { result.now ≡ detail self.now }
    {
        match self {
            Status::Trapped(_, _) => pc,
            Status::TurnsOver(_) | Status::Refused(_) | Status::BadLine(_) => count,
            _ => b"",
        }
    }

    fn gap(&self) -> &'static [u8]
        ensures { result.now ≡ gap self.now }
    {
        match self {
            Status::Refused(_) => b" ",
            _ => b"",
        }
    }

    fn reason(&self) -> &'static [u8]
        ensures { result.now ≡ reason self.now }
    {
        match self {
            Status::Refused(why) => why.name().as_bytes(),
            _ => b"",
        }
    }

    fn closing(&self) -> &'static [u8]
        ensures { result.now ≡ closing self.now }
    {
        match self {
            Status::Done | Status::Exited(_) | Status::SinkFault => b"",
            Status::TurnsOver(_) => b" instructions\n",
            _ => b"\n",
        }
    }
}

/// How a command ends whose program came to this ending.
pub fn status_of(ending: Ending) -> Status
    ensures { EndingStatus ending result }
{
    match ending {
        Ending::Exited(code) => Status::Exited(code),
        Ending::Trapped(cause, pc) => Status::Trapped(cause, pc),
        Ending::TurnsOver(count) => Status::TurnsOver(count),
        Ending::StoreFault => Status::StoreFault,
        Ending::SinkFault => Status::SinkFault,
        Ending::NoMemory => Status::NoMemory,
    }
}

fn digit(value: u64) -> u8
    requires { value < 16 }
    ensures { result ≡ digit_glyph false value }
{
    if value < 10 {
        b'0' + value as u8
    } else {
        b'a' + (value - 10) as u8
    }
}

// Writes the hexadecimal digits of a number to the end of a buffer, and says where they begin.
fn write_hexadecimal(number: u64, buffer: &mut [u8]) -> usize
    requires { length buffer.old ≡ 16 }
    ensures within { result ≤ length buffer.new }
    ensures digits { drop result buffer.new ≡ digits 16 false number }
{
    let mut rest = number;
    let mut at = buffer.len() - 1;
    while rest >= 16 && at > 0 {
        buffer[at] = digit(rest % 16);
        rest /= 16;
        at -= 1;
    }
    buffer[at] = digit(rest % 16);
    at
}

// Puts three texts, one after the other, up to a put that fails.
fn put_three<E: Sink>(err: &mut E, first: &[u8], second: &[u8], third: &[u8]) -> bool
    ensures { PutsText (E.state err.old) (first.now ++ (second.now ++ third.now)) result (E.state err.new) }
{
    if !put_all(err, first) {
        return false;
    }
    if !put_all(err, second) {
        return false;
    }
    put_all(err, third)
}

// Puts five texts, one after the other, up to a put that fails.
fn put_five<E: Sink>(
    err: &mut E,
    first: &[u8],
    second: &[u8],
    third: &[u8],
    fourth: &[u8],
    fifth: &[u8],
) -> bool
    ensures { PutsText (E.state err.old) (first.now ++ (second.now ++ (third.now ++ (fourth.now ++ fifth.now)))) result (E.state err.new) }
{
    if !put_all(err, first) {
        return false;
    }
    if !put_all(err, second) {
        return false;
    }
    put_three(err, third, fourth, fifth)
}

// Puts seven texts, one after the other, up to a put that fails.
fn put_seven<E: Sink>(
    err: &mut E,
    first: &[u8],
    second: &[u8],
    third: &[u8],
    fourth: &[u8],
    fifth: &[u8],
    sixth: &[u8],
    seventh: &[u8],
) -> bool
    ensures { PutsText (E.state err.old) (first.now ++ (second.now ++ (third.now ++ (fourth.now ++ (fifth.now ++ (sixth.now ++ seventh.now)))))) result (E.state err.new) }
{
    if !put_all(err, first) {
        return false;
    }
    if !put_all(err, second) {
        return false;
    }
    put_five(err, third, fourth, fifth, sixth, seventh)
}

/// Puts the text of a status. A put that fails ends it. The name is the word for IMAGE or TRACE.
pub fn tell<E: Sink>(status: &Status, name: &[u8], err: &mut E)
    ensures { Tells status.now name.now (E.state err.old) (E.state err.new) }
{
    let mut buffer = [0u8; 16];
    let at = write_hexadecimal(status.pc(), &mut buffer);
    let mut decimal = Buffer::new();
    let count = decimal.format(status.count());
    let _ = put_seven(
        err,
        status.opening(),
        status.subject(name),
        status.joint(),
        status.detail(&buffer[at..], count.as_bytes()),
        status.gap(),
        status.reason(),
        status.closing(),
    );
}
