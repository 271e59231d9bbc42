// Plan texts: write plan.
#![tactic(auto)]

pub mod writer;

pub use writer::write_plan;
