//! Numbers and bytes in words.

ghost use Rattle.std.specs.Prelude.{◌≡◌, ◌≤◌, ◌^◌, ◌-◌, ◌<◌, ◌+◌, ◌*◌, IfSome, MatchOption};
ghost use Rattle.trace_text.specs.Grammar.{digit_of, are_digits, has_no_leading_zero, is_hex, is_name, number_in, decimal_in, answer_in, address_in, name_in, text_count_in};

use spec_base::Name;

/// The value of a digit: 0 to 9, then a to f in lower case. It is 16 of any other byte.
pub fn digit(byte: u8) -> u8
    ensures value { result ≡ digit_of byte }
    ensures few { result ≤ 16 }
{
    match byte {
        b'0'..=b'9' => byte - b'0',
        b'a'..=b'f' => byte - b'a' + 10,
        _ => 16,
    }
}

/// Whether a word has a first byte, which is 0 only where it is the last as well.
fn begins_as_number(word: &[u8]) -> bool
    ensures { result ≡ has_no_leading_zero word.now }
{
    match word {
        [] => false,
        [_] => true,
        [first, ..] => *first != b'0',
    }
}

/// A number with one more digit, if it has 64 bits.
fn with_digit(value: u64, base: u64, digit: u64) -> Option<u64>
    ensures { MatchOption result (2 ^ 64 ≤ value * base + digit) (λ n. n ≡ value * base + digit) }
{
    value.checked_mul(base)?.checked_add(digit)
}

/// A number of at most `most` without leading zeros, in a base of at most 16.
pub fn number(word: &[u8], base: u64, most: u64) -> Option<u64>
    requires some { 0 < base }
    requires few { base ≤ 16 }
    ensures value { result ≡ number_in base most word.now }
    ensures bound { IfSome result (λ n. n ≤ most) }
{
    if !begins_as_number(word) {
        return None;
    }
    let mut value: u64 = 0;
    for byte in word {
        let digit = u64::from(digit(*byte));
        if digit >= base {
            return None;
        }
        value = with_digit(value, base, digit)?;
    }
    if value <= most { Some(value) } else { None }
}

/// The value of a decimal digit. It is 10 of any other byte.
fn decimal_digit(byte: u8) -> u8
    ensures few { result < 10 → result ≡ digit_of byte }
    ensures other { 10 ≤ result → 10 ≤ digit_of byte }
{
    match byte {
        b'0'..=b'9' => byte - b'0',
        _ => 10,
    }
}

/// A decimal number of at most `most` without leading zeros.
pub fn decimal_within(word: &[u8], most: u64) -> Option<u64>
    ensures value { result ≡ number_in 10 most word.now }
    ensures bound { IfSome result (λ n. n ≤ most) }
{
    if !begins_as_number(word) {
        return None;
    }
    let mut value: u64 = 0;
    for byte in word {
        let digit = decimal_digit(*byte);
        if digit >= 10 {
            return None;
        }
        value = with_digit(value, 10, u64::from(digit))?;
    }
    if value <= most { Some(value) } else { None }
}

/// A decimal number of 64 bits.
pub fn decimal(word: &[u8]) -> Option<u64>
    ensures { result ≡ decimal_in word.now }
{
    decimal_within(word, u64::MAX)
}

/// A signed decimal number of 64 bits. `-0` is none.
#[tactic(auto, unfolding(crate::specs::Grammar::answer_in))]
pub fn answer(word: &[u8]) -> Option<i64>
    ensures { result ≡ answer_in word.now }
{
    match word.strip_prefix(b"-") {
        Some(digits) => {
            let magnitude = decimal_within(digits, 1 << 63)?;
            if magnitude == 0 {
                None
            } else {
                Some(-1 - (magnitude - 1) as i64)
            }
        }
        None => Some(decimal_within(word, i64::MAX as u64)? as i64),
    }
}

/// A hexadecimal number of 64 bits behind `0x`.
#[tactic(auto, unfolding(crate::specs::Grammar::address_in))]
pub fn address(word: &[u8]) -> Option<u64>
    ensures { result ≡ address_in word.now }
{
    let digits = word.strip_prefix(b"0x")?;
    number(digits, 16, u64::MAX)
}

fn are_hex_digits(word: &[u8]) -> bool
    ensures { result ≡ are_digits 16 word.now }
{
    word.iter().all(|byte| digit(*byte) < 16)
}

/// Whether a word is pairs of hexadecimal digits.
fn is_pairs(word: &[u8]) -> bool
    ensures { result ≡ is_hex word.now }
{
    are_hex_digits(word) && word.len() % 2 == 0
}

fn spells_name(word: &[u8]) -> bool
    ensures { result ≡ is_name word.now }
{
    is_pairs(word) && word.len() >= 2 && word.len() <= 510
}

/// The file name that pairs of digits write.
pub fn name_of(word: &[u8]) -> Option<Name>
    ensures { result ≡ name_in word.now }
{
    if !spells_name(word) {
        return None;
    }
    let mut bytes = [0; 255];
    let length = word.len() / 2;
    for i in 0..length {
        bytes[i] = 16 * digit(word[2 * i]) + digit(word[2 * i + 1]);
    }
    Name::new(&bytes[..length])
}

/// How many bytes pairs of digits write, where they write any.
#[tactic(auto, unfolding(crate::specs::Grammar::text_count_in))]
pub fn text_count(word: &[u8]) -> Option<usize>
    ensures { result ≡ text_count_in word.now }
{
    if is_pairs(word) && word.len() >= 2 {
        Some(word.len() / 2)
    } else {
        None
    }
}
