// The steps of an edit of a standing sheet: its lists, and where its rounds begin.
#![tactic(auto)]

pub mod begin;
pub mod lists;
