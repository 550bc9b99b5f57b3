//! What is promised of every run of a rewritten program: the statements of its laws, and all that they
//! are written in beside the run itself. They stand in specs/, and are proved in the crates above.
#![tactic(auto)]
