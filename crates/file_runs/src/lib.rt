//! What running a file comes to: the rewritten file that is executed, its world, and that its moves do
//! as the program by itself. The commands `run` and `trace` are to cite it: with what is shown of their
//! moves it says what the sinks got. The function does nothing: its contract is the laws, whose
//! statements stand in specs/.
#![tactic(auto)]

ghost use Rattle.file_runs.specs.Runs.{RunWorldsAreAccepted, RunsAreAsPlain, RunsFinish, RunsGetOn};

/// Each file for which there is a rewritten file to execute, for each number of regions, all arguments
/// that a command line lets through, and files below 2^56 bytes: the laws of runs speak of its world,
/// and where the moves of a pattern are made over a store and two sinks, the sinks take what the
/// program puts by itself, in the same puts, and its end is the one that is told. Where the sinks take
/// all, it comes to the program's end if there are rounds enough, and where the turns are over, 200
/// rounds have completed an instruction. The program of an accepted file is the one that `plain` runs.
pub fn runs_are_as_plain()
    ensures worlds { RunWorldsAreAccepted }
    ensures plain { RunsAreAsPlain }
    ensures finish { RunsFinish }
    ensures rounds { RunsGetOn }
{}
