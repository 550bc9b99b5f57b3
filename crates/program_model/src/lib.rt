//! The meaning of a program that runs by itself: its files and calls, its state after each
//! instruction, what others see of it, and the lists of the cache. All of it stands in specs/.
#![tactic(auto)]
