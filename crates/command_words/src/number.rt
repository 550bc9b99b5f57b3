//! Numbers in words.

ghost use Rattle.std.specs.Prelude.{◌≡◌, ◌≤◌, ◌<◌, ◌^◌, IfSome};
ghost use Rattle.std.specs.Char.{is_ascii_digit};
ghost use Rattle.std.specs.List.{list_all};
ghost use Rattle.command_words.specs.Values.{number_in, version_in, is_number};

use spec_base::Version;

fn are_digits(word: &str) -> bool
    ensures { result ≡ list_all is_ascii_digit word.now }
{
    word.as_bytes().iter().all(|byte| byte.is_ascii_digit())
}

fn is_number(word: &str) -> bool
    ensures { result ≡ is_number word.now }
{
    1 <= word.len() && word.len() <= 16 && are_digits(word)
}

/// The number that 1 to 16 decimal digits write, if it lies between these two.
#[tactic(auto, unfolding(crate::specs::Values::number_in))]
pub fn number(word: &str, least: u64, most: u64) -> Option<u64>
    ensures value { result ≡ number_in least most word.now }
    ensures bound { IfSome result (λ n. n ≤ most) }
{
    if !is_number(word) {
        return None;
    }
    match word.parse::<u64>() {
        Ok(number) if least <= number && number <= most => Some(number),
        _ => None,
    }
}

/// As `number`, where the bounds are numbers of 32 bits.
pub fn small_number(word: &str, least: u32, most: u32) -> Option<u32>
    ensures { result ≡ number_in least most word.now }
{
    let number = number(word, u64::from(least), u64::from(most))?;
    Some(number as u32)
}

/// The version of the program range with this number, 1 or 2.
#[tactic(auto, unfolding(crate::specs::Values::version_in))]
pub fn version(word: &str) -> Option<Version>
    ensures { result ≡ version_in word.now }
{
    if number(word, 1, 2)? == 1 {
        Some(Version::One)
    } else {
        Some(Version::Two)
    }
}
