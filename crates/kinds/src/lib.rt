// Rules and names as kinds of entry.

#![tactic(auto)]

pub mod names;
pub mod rules;
