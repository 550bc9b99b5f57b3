//! The arguments and the stack with which a program starts.

ghost use Rattle.std.specs.Prelude.{◌≡◌, ℕ, ◌+◌, ◌*◌, ◌^◌, ◌<◌, ◌++◌, List, [], ◌∷◌, length, map, string_bytes, IfOk};
ghost use Rattle.program_model.specs.Loading.{argument_addresses, argument_bytes, bytes_of_words};

use spec_base::NoMemory;
use std::alloc::Global;

/// The arguments' bytes, a zero byte behind each argument.
pub fn argument_bytes(alloc: Global, arguments: &[String]) -> Result<Vec<u8>, NoMemory>
    ensures { IfOk result (λ v. v.items ≡ argument_bytes (map string_bytes arguments.now)) }
{
    let mut bytes = Vec::new(alloc);
    for argument in arguments {
        bytes.extend_from_slice(argument.as_bytes())?;
        bytes.push(0)?;
    }
    Ok(bytes)
}

/// The address of each argument, where the first stands at `start`.
fn argument_addresses(alloc: Global, start: u64, arguments: &[String]) -> Result<Vec<u64>, NoMemory>
    requires { start + length (argument_bytes (map string_bytes arguments.now)) < 2 ^ 64 }
    ensures { IfOk result (λ v. v.items ≡ argument_addresses start (map string_bytes arguments.now)) }
{
    let mut addresses = Vec::new(alloc);
    let mut at = start;
    for argument in arguments {
        addresses.push(at)?;
        at += argument.as_bytes().len() as u64 + 1;
    }
    Ok(addresses)
}

/// The words at the stack's start: the count of the arguments, the address of each, and four words
/// of 0.
fn stack_words(alloc: Global, start: u64, arguments: &[String]) -> Result<Vec<u64>, NoMemory>
    requires { start + length (argument_bytes (map string_bytes arguments.now)) < 2 ^ 64 }
    ensures { IfOk result (λ v. v.items ≡ length arguments.now ∷ (argument_addresses start (map string_bytes arguments.now) ++ 0 ∷ 0 ∷ 0 ∷ 0 ∷ [])) }
{
    let mut words = vec![in alloc; arguments.len() as u64]?;
    words.extend_from_slice(&argument_addresses(alloc, start, arguments)?)?;
    words.extend_from_slice(&[0; 4])?;
    Ok(words)
}

/// Appends the eight bytes of a word, the lowest first.
fn push_word(bytes: &mut Vec<u8>, word: u64) -> Result<(), NoMemory>
    ensures { IfOk result (λ _. (words : List ℕ) → bytes.old.items ≡ bytes_of_words words → bytes.new.items ≡ bytes_of_words (words ++ word ∷ [])) }
{
    let mut rest = word;
    for _ in 0..8usize {
        bytes.push((rest % 256) as u8)?;
        rest /= 256;
    }
    Ok(())
}

/// The bytes of words, the lowest of each first.
fn bytes_of_words(alloc: Global, words: &[u64]) -> Result<Vec<u8>, NoMemory>
    ensures { IfOk result (λ v. v.items ≡ bytes_of_words words.now) }
{
    let mut bytes = Vec::new(alloc);
    for word in words {
        push_word(&mut bytes, *word)?;
    }
    Ok(bytes)
}

/// The bytes at the stack's start, where the first argument stands at `start`.
pub fn stack_bytes(alloc: Global, start: u64, arguments: &[String]) -> Result<Vec<u8>, NoMemory>
    requires { start + length (argument_bytes (map string_bytes arguments.now)) < 2 ^ 64 }
    ensures { IfOk result (λ v. v.items ≡ bytes_of_words (length arguments.now ∷ (argument_addresses start (map string_bytes arguments.now) ++ 0 ∷ 0 ∷ 0 ∷ 0 ∷ []))) }
{
    let words = stack_words(alloc, start, arguments)?;
    bytes_of_words(alloc, &words)
}
