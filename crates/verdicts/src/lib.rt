// What is said of rules: of one, of two, and of a table that takes the place of another.

#![tactic(auto)]

pub mod answer;
pub mod census;
pub mod comparison;
pub mod names;
pub mod outcome;
pub mod pairs;
pub mod rules;
pub mod survey;
#[cfg(test)]
mod tests;
pub mod verdict;
