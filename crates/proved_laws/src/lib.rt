//! What is proved of every run of a rewritten program, whatever moves are made and whatever the outside
//! answers. Two functions carry all laws of `run_laws`; their proofs stand in the crates below.
#![tactic(auto)]

ghost use Rattle.run_laws.specs.OwnLaws.{Preserved, ShadowIsInvisible, RegionsBounded, Progress, RoundsProgress, OwnFollows};
ghost use Rattle.run_laws.specs.StubLaws.{StubIsOneCall, StubWordsComplete, StubEndsAtCall, StubKeepsLog, StubTakesOldest, StubStopsFirst, RestartHasBox};
ghost use Rattle.run_laws.specs.SoundLaws.{RunsAreSized, NoWordTraps, TablesAreConsistent};
ghost use Rattle.run_laws.specs.LogLaws.{LogIsQueue, EmptyingLeavesTail, ShadowAppends, LogIsKept, CallAppends, BoxIsKept};

/// The rewritten program does what the plain program does in as many instructions: its calls with
/// their answers, the bytes that it put and how many of each put were taken, and its end. A move of
/// the shadow leaves all that is the program's, puts nothing, and hears from the outside only that a
/// look failed, where it makes one. At most the layout's regions are in use. 200 stretches of moves,
/// each with an own move and a fetch, complete an instruction or end the run, and so do 200 rounds of
/// a pattern that has both. While each put since the last restart was taken whole, what was done
/// since then is what the plain program does from the restart on.
///
/// Behind the stub's call the own hart has done the call that it met at its gate, and nothing else.
/// No word of the stub traps, and a run that ends there ends at the call, by an exit or a fault. A
/// call without key leaves the hint log; a keyed one takes the oldest pair where that is the call's,
/// and else empties the log, saves site and registers in the box, and restarts the shadow once before
/// it. Whatever the shadow does, an own move changes no more of what they share than the log's head
/// before it has stopped the shadow.
///
/// The shadow's registers are numbers of 64 bits, all that it loads from has bytes, and its files are
/// smaller than 2^56. No word of a running shadow traps. The region table and the region list are
/// consistent, whatever the shadow is doing. In runs of fewer than 2^64 - 1 moves the hint log is a
/// queue of at most 64 pairs, but between words 30 and 31 of the stub, where its head is 0 and its
/// tail as before; a move of the shadow only appends to it; in a call's block it gets the key of the
/// planned call with x12, or nothing where there is no key; and from a restart until word 34 of the
/// stub is executed again the box holds the registers and the site of the restarting gate.
pub fn preserved()
    ensures preservation { Preserved }
    ensures invisible { ShadowIsInvisible }
    ensures regions { RegionsBounded }
    ensures progress { Progress }
    ensures rounds { RoundsProgress }
    ensures own_follows { OwnFollows }
    ensures one_call { StubIsOneCall }
    ensures stub_completes { StubWordsComplete }
    ensures stub_ends { StubEndsAtCall }
    ensures log { StubKeepsLog }
    ensures takes { StubTakesOldest }
    ensures stops_first { StubStopsFirst }
    ensures restart { RestartHasBox }
    ensures sized { RunsAreSized }
    ensures traps { NoWordTraps }
    ensures tables { TablesAreConsistent }
    ensures queue { LogIsQueue }
    ensures emptying { EmptyingLeavesTail }
    ensures appends { ShadowAppends }
    ensures passage { LogIsKept }
    ensures call_appends { CallAppends }
    ensures box_kept { BoxIsKept }
{}

ghost use Rattle.run_laws.specs.HintLaws.{HintsAreReads, WordsBounded, ShadowFollows, HintsUntilUse, UseIsAfterHorizon, HintsAreMet};

/// As long as the own hart hasn't been past the shadow since the restart and each put was taken
/// whole: up to the horizon the hints given since are the next reads, up to where the shadow has
/// come, and at word 1 of a block the shadow has the registers, the descriptors and, outside unfilled
/// bytes, the memory of the run from the restart. Up to the first use of a marked value the same
/// holds outside marked registers and bytes. That use is never before the horizon. A program is
/// accepted, one of whose runs is so and has given hints. A shadow that isn't parked has executed at
/// most 512 words for each of its arrivals since the restart, 8 for each region that was in use then,
/// and 128.
pub fn hinted()
    ensures hints { HintsAreReads }
    ensures words { WordsBounded }
    ensures follows { ShadowFollows }
    ensures until_use { HintsUntilUse }
    ensures after_horizon { UseIsAfterHorizon }
    ensures met { HintsAreMet }
{}
