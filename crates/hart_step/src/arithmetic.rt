//! What the computing instructions compute (RISC-V Unprivileged ISA 20191213, sections 2.4, 5.2,
//! 7.1 and 7.2).

ghost use Rattle.std.specs.Prelude.{◌≡◌, ◌+◌, ◌*◌, ◌%◌, ◌^◌, ◌<◌, ◌≤◌, ◌*ℤ◌, unsigned_abs, pos, ℤ};
ghost use Rattle.std.specs.Int.{int_shr};
ghost use Rattle.spec_base.specs.Word.{plus_int, word_of_int};
ghost use Rattle.rv_model.specs.Arithmetic.{quotient, remainder, is_taken, reg_result, reg_w_result, imm_result, imm_w_result, word_quotient, word_remainder, extended_word, low, extended, load_width, register_form, register_w_form};

use rv_decode::{BranchOp, ImmOp, ImmWOp, LoadOp, RegOp, RegWOp};

/// The 64 bits of a signed number.
pub(crate) fn word_of(number: i64) -> u64
    ensures { result ≡ word_of_int number }
{
    number.cast_unsigned()
}

/// A word plus a signed number, modulo 2^64.
pub(crate) fn offset(word: u64, by: i64) -> u64
    ensures { result ≡ plus_int word by }
{
    word.wrapping_add(word_of(by))
}

/// The result of an operation on two registers.
#[inline(always)]
pub(crate) fn reg_result(op: RegOp, x: u64, y: u64) -> u64
    ensures { result ≡ reg_result op x y }
{
    match op {
        RegOp::Add => x.wrapping_add(y),
        RegOp::Sll => x << (y % 64) as u32,
        RegOp::Slt => u64::from(x.cast_signed() < y.cast_signed()),
        RegOp::Sltu => u64::from(x < y),
        RegOp::Xor => x ^ y,
        RegOp::Srl => x >> (y % 64) as u32,
        RegOp::Or => x | y,
        RegOp::And => x & y,
        RegOp::Sub => x.wrapping_sub(y),
        RegOp::Sra => (x.cast_signed() >> (y % 64) as u32).cast_unsigned(),
        RegOp::Mul => x.wrapping_mul(y),
        RegOp::Mulh => mulh(x, y),
        RegOp::Mulhsu => mulhsu(x, y),
        RegOp::Mulhu => mulhu(x, y),
        RegOp::Div => quotient(x, y),
        RegOp::Divu => { if y == 0 { u64::MAX } else { x / y } }
        RegOp::Rem => remainder(x, y),
        RegOp::Remu => { if y == 0 { x } else { x % y } }
    }
}

/// The high half of the product of two signed words.
fn mulh(x: u64, y: u64) -> u64
    ensures { result ≡ reg_result RegOp.Mulh x y }
{
    high(product(x.cast_signed(), y.cast_signed())).cast_unsigned()
}

/// The high half of the product of a signed and an unsigned word.
fn mulhsu(x: u64, y: u64) -> u64
    ensures { result ≡ reg_result RegOp.Mulhsu x y }
{
    high(mixed_product(x.cast_signed(), y)).cast_unsigned()
}

/// The high half of the product of two unsigned words.
fn mulhu(x: u64, y: u64) -> u64
    ensures { result ≡ reg_result RegOp.Mulhu x y }
{
    ((x as u128 * y as u128) >> 64) as u64
}

fn product(x: i64, y: i64) -> i128
    ensures value { result ≡ x *ℤ y }
    ensures bound { unsigned_abs result < 2 ^ 127 }
{
    x as i128 * y as i128
}

fn mixed_product(x: i64, y: u64) -> i128
    ensures value { result ≡ x *ℤ pos y }
    ensures bound { unsigned_abs result < 2 ^ 127 }
{
    x as i128 * y as i128
}

fn high(product: i128) -> i64
    requires { unsigned_abs product < 2 ^ 127 }
    ensures { result ≡ int_shr product 64 }
{
    (product >> 64) as i64
}

/// The quotient of two signed words. Only the least word divided by -1 overflows, and wraps to
/// itself.
fn quotient(x: u64, y: u64) -> u64
    ensures { result ≡ quotient x y }
{
    if y == 0 {
        return u64::MAX;
    }
    let quotient = x.cast_signed().wrapping_div(y.cast_signed());
    quotient.cast_unsigned()
}

/// The remainder of two signed words, whose sign is the dividend's.
fn remainder(x: u64, y: u64) -> u64
    ensures { result ≡ remainder x y }
{
    if y == 0 {
        return x;
    }
    let remainder = x.cast_signed().wrapping_rem(y.cast_signed());
    remainder.cast_unsigned()
}

/// The result of an operation on the low words of two registers.
#[inline(always)]
pub(crate) fn reg_w_result(op: RegWOp, x: u64, y: u64) -> u64
    ensures { result ≡ reg_w_result op x y }
{
    match op {
        RegWOp::Addw => extended_word(low(x.wrapping_add(y))),
        RegWOp::Sllw => extended_word(low(x << (y % 32) as u32)),
        RegWOp::Srlw => extended_word(low(x) >> (y % 32) as u32),
        RegWOp::Subw => extended_word(low(x.wrapping_sub(y))),
        RegWOp::Sraw => ((low(x).cast_signed() >> (y % 32) as u32) as i64).cast_unsigned(),
        RegWOp::Mulw => extended_word(low(x.wrapping_mul(y))),
        RegWOp::Divw => word_quotient(low(x), low(y)),
        RegWOp::Divuw => {
            if low(y) == 0 {
                u64::MAX
            } else {
                extended_word(low(x) / low(y))
            }
        }
        RegWOp::Remw => word_remainder(low(x), low(y)),
        RegWOp::Remuw => {
            if low(y) == 0 {
                extended_word(low(x))
            } else {
                extended_word(low(x) % low(y))
            }
        }
    }
}

/// The low 32 bits.
fn low(x: u64) -> u32
    ensures { result ≡ low x }
{
    (x % (1 << 32)) as u32
}

/// 32 bits with their sign extended to 64.
fn extended_word(n: u32) -> u64
    ensures { result ≡ extended_word n }
{
    (n.cast_signed() as i64).cast_unsigned()
}

fn word_quotient(x: u32, y: u32) -> u64
    ensures { result ≡ word_quotient x y }
{
    if y == 0 {
        return u64::MAX;
    }
    extended_word(
        x.cast_signed()
            .wrapping_div(y.cast_signed())
            .cast_unsigned(),
    )
}

fn word_remainder(x: u32, y: u32) -> u64
    ensures { result ≡ word_remainder x y }
{
    if y == 0 {
        return extended_word(x);
    }
    (x.cast_signed().wrapping_rem(y.cast_signed()) as i64).cast_unsigned()
}

/// The result of an operation on a register and an immediate.
#[inline(always)]
pub(crate) fn imm_result(op: ImmOp, x: u64, imm: i64) -> u64
    ensures { result ≡ imm_result op x imm }
{
    reg_result(register_form(op), x, word_of(imm))
}

/// The operation on two registers that an operation on an immediate is.
#[inline(always)]
fn register_form(op: ImmOp) -> RegOp
    ensures { result ≡ register_form op }
{
    match op {
        ImmOp::Addi => RegOp::Add,
        ImmOp::Slti => RegOp::Slt,
        ImmOp::Sltiu => RegOp::Sltu,
        ImmOp::Xori => RegOp::Xor,
        ImmOp::Ori => RegOp::Or,
        ImmOp::Andi => RegOp::And,
        ImmOp::Slli => RegOp::Sll,
        ImmOp::Srli => RegOp::Srl,
        ImmOp::Srai => RegOp::Sra,
    }
}

/// The result of an operation on the low word of a register and an immediate.
#[inline(always)]
pub(crate) fn imm_w_result(op: ImmWOp, x: u64, imm: i64) -> u64
    ensures { result ≡ imm_w_result op x imm }
{
    reg_w_result(register_w_form(op), x, word_of(imm))
}

/// The operation on the low words of two registers that an operation on an immediate is.
#[inline(always)]
fn register_w_form(op: ImmWOp) -> RegWOp
    ensures { result ≡ register_w_form op }
{
    match op {
        ImmWOp::Addiw => RegWOp::Addw,
        ImmWOp::Slliw => RegWOp::Sllw,
        ImmWOp::Srliw => RegWOp::Srlw,
        ImmWOp::Sraiw => RegWOp::Sraw,
    }
}

/// Whether a branch is taken.
#[inline(always)]
pub(crate) fn is_taken(op: BranchOp, x: u64, y: u64) -> bool
    ensures { result ≡ is_taken op x y }
{
    match op {
        BranchOp::Beq => x == y,
        BranchOp::Bne => x != y,
        BranchOp::Blt => x.cast_signed() < y.cast_signed(),
        BranchOp::Bge => x.cast_signed() >= y.cast_signed(),
        BranchOp::Bltu => x < y,
        BranchOp::Bgeu => x >= y,
    }
}

/// What a load puts into its register, of the number of its bytes.
#[inline(always)]
pub(crate) fn extended(op: LoadOp, n: u64) -> u64
    requires { n < 2 ^ (8 * load_width op) }
    ensures { result ≡ extended op n }
{
    match op {
        LoadOp::Lb => ((n as u8).cast_signed() as i64).cast_unsigned(),
        LoadOp::Lh => ((n as u16).cast_signed() as i64).cast_unsigned(),
        LoadOp::Lw => extended_word(n as u32),
        LoadOp::Ld | LoadOp::Lbu | LoadOp::Lhu | LoadOp::Lwu => n,
    }
}
