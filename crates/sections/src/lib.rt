// What sheet texts and plan texts are made of: numbers in decimal, lines of numbers, and sections.
#![tactic(auto)]

pub mod lines;
pub mod section;
