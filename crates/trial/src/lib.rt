// The pair table that the comparison of two rules records partners in, and the guard of a trial.

#![tactic(auto)]

pub mod guard;
pub mod pairs;
#[cfg(test)]
mod tests;
