// What the calls on tableaux and those on plans share: the first tableau, the tableau of an answer that gives none, and the prices that an answer shows.
#![tactic(auto)]

pub mod corner;
pub mod tableau;
