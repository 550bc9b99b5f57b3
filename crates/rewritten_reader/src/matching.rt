//! A sink that compares what it takes with a file.

ghost use Rattle.std.specs.Prelude.{◌≡◌, ◌≢◌, ◌+◌, ◌≤◌, ◌<◌, length, take, slice_index, Some, None};
ghost use Rattle.world_io.specs.Outside.{Sure};
ghost use Rattle.world_io.specs.Puts.{PutSays, Fits};
ghost use Rattle.rewritten_reader.specs.Matches.{IsMatch, told_of_match};
ghost use Rattle.rewritten_reader.specs.Finds.{found_of};

use crate::comparing::Found;
use std::marker::Model;
use world_io::{Put, Sink};

/// Takes bytes as long as they are those of a file, and then one more; after that each put fails.
/// So of two files it holds one, and the other's bytes up to the first difference are known.
#[derive(Drop)]
pub struct Matching<'a> {
    file: &'a [u8],
    at: usize,
    other: Option<u8>,
    faults: u64,
}

impl<'a> Model for Matching<'a> {
    ghost use Rattle.rewritten_reader.specs.Matches.{MatchState, IsMatch};

    ghost Value = { MatchState };

    ghost view = { λ s. record { file = s.file.now; at = s.at; other = s.other; faults = s.faults } };

    ghost invariant = { λ s. IsMatch s.file.now s.at s.other s.faults };
}

/// How many bytes two slices have in common from their starts on. Where all are, they are compared
/// whole, which is quicker than one by one.
fn common_length(file: &[u8], bytes: &[u8]) -> usize
    ensures same { take result file.now ≡ take result bytes.now }
    ensures in_file { result ≤ length file.now }
    ensures in_bytes { result ≤ length bytes.now }
    ensures next { result < length file.now → result < length bytes.now → slice_index file.now result ≢ slice_index bytes.now result }
{
    let most = file.len().min(bytes.len());
    if file[..most] == bytes[..most] {
        return most;
    }
    for i in 0..most {
        if file[i] != bytes[i] {
            return i;
        }
    }
    most
}

impl<'a> Matching<'a> {
    /// A sink that has taken nothing yet.
    pub fn new(file: &'a [u8]) -> Self
        ensures { result ≡ record { file = file.now; at = 0; other = None; faults = 0 } }
    {
        Matching {
            file,
            at: 0,
            other: None,
            faults: 0,
        }
    }

    /// What it shows of a text that was put whole, or until it failed, where its file has so many
    /// bytes.
    pub(crate) fn found(&self, file_length: usize) -> Found
        ensures value { result ≡ found_of self.now file_length }
        ensures holds { IsMatch self.now.file self.now.at self.now.other self.now.faults }
    {
        match self.other {
            Some(_) if self.at < file_length => Found::At(self.at as u64),
            Some(_) => Found::Length,
            None if self.at < file_length => Found::Length,
            None => Found::Same,
        }
    }
}

impl<'a> Sink for Matching<'a> {
    ghost state = { told_of_match };

    fn put(&mut self, bytes: &[u8]) -> Put {
        if bytes.is_empty() {
            return Put::Took(0);
        }
        if self.other.is_some() {
            self.faults = self.faults.saturating_add(1);
            return Put::Failed;
        }
        let count = common_length(&self.file[self.at..], bytes);
        if 0 < count {
            self.at += count;
            return Put::Took(count);
        }
        self.other = Some(bytes[0]);
        Put::Took(1)
    }
}
