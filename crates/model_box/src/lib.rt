//! Definitions: bounds of what a family can reach, the closure rules, and their laws over all later runs. No code but
//! functions that do nothing and carry a law each.
#![tactic(auto)]

pub mod laws;
