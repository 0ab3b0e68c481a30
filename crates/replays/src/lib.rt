// Performs the calls of a script on a catalogue.

#![tactic(auto)]

pub mod answer;
pub mod perform;
pub mod store;
#[cfg(test)]
mod tests;
