//! What a command line asks for.

ghost use Rattle.std.specs.Prelude.{◌≡◌, ◌&&◌, if◌then◌else◌, None, IfOk, IfSome, map, string_bytes};
ghost use Rattle.std.specs.List.{list_all};
ghost use Rattle.command_words.specs.Limits.{IsWithinLimits};
ghost use Rattle.command_words.specs.CommandLine.{has_no_zero, is_file_name, is_count_of, fit_in_memory, are_arguments, is_complete, number_for, request_of, command_of};

use crate::arguments::Arguments;
use crate::command::Command;
use crate::number::number;
use crate::options::Options;
use crate::reading::Reading;
use spec_base::NoMemory;
use std::alloc::Global;

/// The most words that a command acts on.
const MAX_WORDS: usize = 64;

/// How many bytes these words take at most, with a zero byte behind each.
const MAX_BYTES: usize = 65_536;

/// The highest number of `demo`.
const MAX_NUMBER: u64 = 200_000;

/// What a command line asks for.
#[derive(Debug, Drop)]
pub struct Request {
    /// What is to be done.
    pub command: Command,
    /// How it is done.
    pub options: Options,
    /// The words that the command acts on, at least one and at most 64. The first is the name of
    /// the image or trace, of 1 to 255 bytes. No word has a zero byte.
    pub arguments: Arguments,
    /// The number of `demo`, 0 to 200,000. It is 0 for every other command.
    pub number: u64,
}

fn has_no_zero(word: &str) -> bool
    ensures { result ≡ has_no_zero word.now }
{
    word.as_bytes().iter().all(|byte| *byte != 0)
}

fn have_no_zero(words: &[String]) -> bool
    ensures { result ≡ list_all has_no_zero (map string_bytes words.now) }
{
    words.iter().all(|word| has_no_zero(word))
}

fn is_file_name(word: &str) -> bool
    ensures { result ≡ is_file_name word.now }
{
    1 <= word.len() && word.len() <= 255
}

fn fit_in_memory(words: &[String]) -> bool
    ensures { result ≡ fit_in_memory (map string_bytes words.now) }
{
    let mut left = MAX_BYTES;
    for word in words {
        let length = word.as_str().len();
        if length >= left {
            return false;
        }
        left -= length + 1;
    }
    true
}

#[tactic(auto, unfolding(crate::specs::CommandLine::are_arguments))]
fn are_arguments(command: Command, words: &[String]) -> bool
    ensures { result ≡ are_arguments command (map string_bytes words.now) }
{
    let [first, ..] = words else {
        return false;
    };
    let most = if command.is_single() { 1 } else { MAX_WORDS };
    is_file_name(first) && words.len() <= most && have_no_zero(words) && fit_in_memory(words)
}

#[tactic(auto, unfolding(crate::specs::CommandLine::number_for))]
fn number_for(command: Command, words: &[String]) -> Option<u64>
    ensures { result ≡ number_for command (map string_bytes words.now) }
{
    match (command, words) {
        (Command::Demo, [word, ..]) => number(word, 0, MAX_NUMBER),
        (Command::Demo, []) => None,
        _ => Some(0),
    }
}

// The number, where nothing waits for its value and the words are those of the command.
fn number_asked(command: Command, reading: &Reading) -> Option<u64>
    ensures { result ≡ (if is_complete reading.now.stage && are_arguments command reading.now.arguments then number_for command reading.now.arguments else None) }
{
    let words = reading.arguments.as_slice();
    if !reading.stage.is_complete() || !are_arguments(command, words) {
        return None;
    }
    number_for(command, words)
}

#[tactic(auto, unfolding(crate::specs::CommandLine::request_of))]
fn finish(alloc: Global, command: Command, reading: Reading) -> Result<Option<Request>, NoMemory>
    ensures { IfOk result (λ request. request ≡ request_of command reading) }
{
    let Some(number) = number_asked(command, &reading) else {
        return Ok(None);
    };
    Ok(Some(Request {
        command,
        options: reading.chosen.options(alloc)?,
        arguments: reading.arguments,
        number,
    }))
}

// The request of a command line's words.
#[tactic(auto, unfolding(crate::specs::CommandLine::command_of))]
fn request_of_words(alloc: Global, words: &[String]) -> Result<Option<Request>, NoMemory>
    ensures { IfOk result (λ request. request ≡ command_of (map string_bytes words.now)) }
{
    let [first, rest @ ..] = words else {
        return Ok(None);
    };
    let Some(command) = Command::named(first) else {
        return Ok(None);
    };
    let mut reading = Reading::new(alloc);
    if !reading.read_all(alloc, command, rest)? {
        return Ok(None);
    }
    finish(alloc, command, reading)
}

/// What the words of a command line ask for, or None where they are no command line. Only want of
/// memory is an error.
pub fn read_words(alloc: Global, words: &[String]) -> Result<Option<Request>, NoMemory>
    ensures answer { IfOk result (λ request. request ≡ command_of (map string_bytes words.now)) }
    ensures limits { IfOk result (λ request. IfSome request IsWithinLimits) }
{
    request_of_words(alloc, words)
}
