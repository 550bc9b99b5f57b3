//! `spechint`: commands over the images of RV64IM programs.
#![tactic(auto)]

use spechint_commands::{Status, spechint};
use std::alloc::Global;
use std::env;
use std::io::ErrorKind;
use std::process::ExitCode;
use world_io::{HostSink, HostStore, put_all};

// The words after the program's name: none where they can't be had as text. No answer where memory is wanting.
fn given_words(rt: &HostRuntime, alloc: Global) -> Option<Vec<String>> {
    match env::args(rt) {
        Ok(args) => args.skip(1).collect(alloc).ok(),
        Err(error) if error.kind() == ErrorKind::OutOfMemory => None,
        Err(_) => Some(Vec::new(alloc)),
    }
}

fn main(rt: HostRuntime) -> ExitCode {
    let alloc = rt.alloc();
    let mut err = HostSink::new(rt.stderr());
    let Some(words) = given_words(&rt, alloc) else {
        put_all(&mut err, b"spechint: out of memory\n");
        return ExitCode::from(Status::NoMemory.code());
    };
    let mut store = HostStore::new(rt);
    let mut out = HostSink::new(rt.stdout());
    let status = spechint(alloc, &words, &mut store, &mut out, &mut err);
    ExitCode::from(status.code())
}
