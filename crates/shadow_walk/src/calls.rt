//! The call of a block: the word between the walk to it and the walk behind it.

ghost use Rattle.shadow_walk.specs.Performed.{CallsArePerformed};

/// The HCALL in the block of a call performs it: where a walk has come to it, the shadow goes on at
/// the word behind it with the state's next state, but for the bytes of a read that isn't filled, or
/// it is parked, by an exit, or by a look at which the store has failed. With the walk to it and the
/// one behind it a call's block is one instruction, as each other block is.
pub fn calls_are_performed()
    ensures { CallsArePerformed }
{}
