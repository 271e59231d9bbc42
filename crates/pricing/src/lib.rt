// Pricing: the costs spread by column, and the scan of the reduced costs for the lane that enters.
#![tactic(auto)]

pub mod scan;
