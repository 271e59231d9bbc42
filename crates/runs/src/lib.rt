// Runs of rounds on a board.
#![tactic(auto)]

pub mod run;
