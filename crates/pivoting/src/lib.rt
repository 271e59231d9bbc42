// The pivot of a round on a board: the step round the loop that a lane closes, and the board after it.
#![tactic(auto)]

pub mod pivot;
pub mod step;
