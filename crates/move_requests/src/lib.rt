//! What a move of a run asks of a store and of two sinks: looks, fetches and puts, the answers that
//! may come, and the calls that so are made. A runner's move is specified by it (`Hears` and `GoesTo`
//! of specs/Hears), and so is the loop over moves of `run`, `trace` and `demo` (`AreHeard`). The
//! functions do nothing: their contracts are the laws, whose statements stand in specs/Laws.
#![tactic(auto)]

ghost use Rattle.move_requests.specs.Laws.{HearsWhatItAsks, ShadowLooksAlone, MovesAddUp, NothingIsHeard, NextIsHeard};

/// A move hears the outside only where it asks, and a move of the shadow asks for no more than a look.
#[tactic(auto, using(crate::proofs::Deaf::hears_what_it_asks, crate::proofs::Looks::shadow_looks_alone))]
pub fn little_is_asked()
    ensures hears { HearsWhatItAsks }
    ensures looks { ShadowLooksAlone }
{}

/// What moves do to a run and to the outside one by one, they do together.
pub fn moves_add_up()
    ensures adds { MovesAddUp }
    ensures none { NothingIsHeard }
    ensures next { NextIsHeard }
{}
