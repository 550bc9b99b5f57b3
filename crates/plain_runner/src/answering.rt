//! The arguments and the answer of a call.

ghost use Rattle.std.specs.Prelude.{◌≡◌, ◌<◌};
ghost use Rattle.spec_base.specs.Word.{word_of_int};
ghost use Rattle.rv_model.specs.Registers.{reg};
ghost use Rattle.hart_step.specs.Core.{core_of};
ghost use Rattle.file_calls.specs.Plans.{changed, KeepsBreak};
ghost use Rattle.plain_runner.specs.Outcomes.{answered_core};

use file_calls::{Change, Files};
use hart_step::Hart;
use spec_base::Reg;

/// The argument in a register.
pub fn argument(hart: &Hart, number: u32) -> u64
    requires { number < 32 }
    ensures { result ≡ reg (core_of hart.now).registers number }
{
    hart.reg(Reg::from_low_bits(number))
}

/// Answers a call.
pub fn answer(hart: &mut Hart, value: u64)
    ensures { core_of hart.new ≡ answered_core (core_of hart.old) value }
{
    hart.answer(Reg::from_low_bits(10), value);
}

/// The 64 bits of an answer.
fn word_of(value: &i64) -> u64
    ensures { result ≡ word_of_int value.now }
{
    let value = *value;
    value.cast_unsigned()
}

/// Makes the change of a call, and answers it.
pub fn settle(hart: &mut Hart, files: &mut Files, change: &Change, value: &i64)
    requires { KeepsBreak files.old change.now }
    ensures files { files.new ≡ changed files.old change.now }
    ensures hart { core_of hart.new ≡ answered_core (core_of hart.old) (word_of_int value.now) }
{
    files.make(*change);
    answer(hart, word_of(value));
}
