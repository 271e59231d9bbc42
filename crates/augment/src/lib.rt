// Augmenting: bags brought onto a lane from later lanes of its row, along a path of tight lanes that alternates between lanes that lose and lanes that gain.
// Lanes lie as in the crate tree.
#![tactic(auto)]

pub mod bags;
pub mod search;
pub mod way;
