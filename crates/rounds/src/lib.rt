// One round on flat arrays, and what is kept from one to the next.
#![tactic(auto)]

pub mod round;
