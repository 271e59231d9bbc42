// What a plan text is made of: the lines of its lanes, and its five sections from the figures that they show.
#![tactic(auto)]

pub mod lanes;
pub mod plan_sections;
