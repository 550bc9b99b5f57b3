//! The numbers that instructions hold.

ghost use Rattle.std.specs.Prelude.{◌≡◌, ◌+◌, ◌-◌, ◌*◌, ◌^◌, ◌<◌, ◌≤◌};
ghost use Rattle.code_model.specs.Assembly.{diff, hi, lo};

/// The field that lui gets to build `value`, together with `lo`: 20 bits.
pub fn hi(value: u64) -> u32
    ensures field { result ≡ hi value }
    ensures below { result < 2 ^ 20 }
{
    (value.wrapping_add(0x800) / 4096 % 0x10_0000) as u32
}

/// What addi adds to the number that lui made of `hi`: the lower 12 bits, with their sign.
pub fn lo(value: u64) -> i64
    ensures { result ≡ lo value }
{
    let low = (value % 4096) as i64;
    if low < 2048 { low } else { low - 4096 }
}

/// The distance from one word to another of the same list, whose words are counted from 1.
pub fn to_word(from: u64, to: u64) -> i64
    requires from { from < 2 ^ 32 }
    requires to { to < 2 ^ 32 }
    ensures { result ≡ diff (4 * to) (4 * from) }
{
    between(4 * from, 4 * to)
}

/// The distance from word `word` of a helper, counted from 1, to another helper. Helpers are given
/// as their offsets from the first.
pub fn to_helper(helper: u64, word: u64, to: u64) -> i64
    requires helper { helper < 2 ^ 32 }
    requires word { (1 ≤ word) × (word < 2 ^ 28) }
    requires to { to < 2 ^ 32 }
    ensures { result ≡ diff to (helper + 4 * (word - 1)) }
{
    between(helper + 4 * (word - 1), to)
}

/// The distance from one place of code to another, both in bytes from one start.
pub fn between(from: u64, to: u64) -> i64
    requires from { from < 2 ^ 48 }
    requires to { to < 2 ^ 48 }
    ensures { result ≡ diff to from }
{
    to as i64 - from as i64
}
