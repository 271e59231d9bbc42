// The tree of a basis as its fundamental cuts. Nodes and lanes are numbered as in the crate tree.
#![tactic(auto)]

pub mod cut;
