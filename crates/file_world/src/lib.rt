//! The world of a file: the laws of runs, said of files. The functions do nothing: their contracts are
//! the laws, whose statements stand in specs/.
#![tactic(auto)]

ghost use Rattle.file_world.specs.Promises.{FilesAreAccepted, RecoveredAreAccepted, FilesKeepPromises, RewrittenRunsAsPlain};

/// The rewritten program of each file that the profile accepts is one of which the laws of runs speak,
/// for each number of regions, all arguments that a command line lets through, and files below 2^56
/// bytes; and so is the program that a rewritten file carries.
pub fn worlds_are_accepted()
    ensures files { FilesAreAccepted }
    ensures recovered { RecoveredAreAccepted }
{}

/// In every run of the rewritten program of an accepted file, whatever moves and answers there are: it
/// does what `plain` does of the file, and its hints are the next reads.
pub fn files_keep_promises()
    ensures { FilesKeepPromises }
{}

/// What `rewrite` puts is recovered, and in every run of the program that it carries, whatever moves
/// and answers there are: it does what `plain` does of the file that was rewritten, and its hints are
/// the next reads.
pub fn rewritten_runs_as_plain()
    ensures { RewrittenRunsAsPlain }
{}
