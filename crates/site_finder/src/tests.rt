//! A text with calls and gate instructions.

use crate::{patch, patched, sites};
use spec_base::NoMemory;
use std::alloc::Global;
use std::test::Fail;

/// Two calls and three words of custom-0, of which the last is no gate instruction; and words of
/// other opcodes, of which one differs from a call in one bit.
const TEXT: [u32; 9] = [
    0x0070_0513,
    0x0000_0073,
    0x0000_100B,
    0x0010_0073,
    0x0000_0073,
    0x0000_000B,
    0xFFFF_FF8B,
    0x0000_002B,
    0x0000_000F,
];

/// The text as it is patched.
const PATCHED: [u32; 9] = [
    0x0070_0513,
    0x0000_000B,
    0,
    0x0010_0073,
    0x0000_000B,
    0,
    0,
    0x0000_002B,
    0x0000_000F,
];

#[test]
fn finds_calls_and_specials(rt: HostRuntime) -> Result<(), Fail> {
    let found = sites(rt.alloc(), &TEXT)?;
    assert_eq!(rt; found.calls.as_slice(), [1, 4].as_slice());
    assert_eq!(rt; found.specials.as_slice(), [2, 5, 6].as_slice());
    Ok(())
}

#[test]
fn finds_none_in_no_text(rt: HostRuntime) -> Result<(), Fail> {
    let found = sites(rt.alloc(), &[])?;
    assert!(rt; found.calls.is_empty() && found.specials.is_empty());
    Ok(())
}

/// The text with the sites in it replaced.
fn patched_text(alloc: Global, mut text: [u32; 9]) -> Result<[u32; 9], NoMemory> {
    let found = sites(alloc, &text)?;
    patch(&mut text, &found);
    Ok(text)
}

#[test]
fn replaces_these_alone(rt: HostRuntime) -> Result<(), Fail> {
    let text = patched_text(rt.alloc(), TEXT)?;
    assert_eq!(rt; text, PATCHED);
    Ok(())
}

#[test]
fn patches_word_by_word(rt: HostRuntime) {
    for (word, expected) in TEXT.iter().zip(PATCHED.iter()) {
        assert_eq!(rt; patched(*word), *expected);
    }
}
