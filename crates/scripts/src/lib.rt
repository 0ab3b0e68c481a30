// Reads the text of a script: the heading of a catalogue, and then its calls, one to a line.

#![tactic(auto)]

pub mod call;
pub mod fault;
pub mod heading;
mod label;
mod named;
mod narrow;
mod pieces;
pub mod script;
#[cfg(test)]
mod tests;
mod units;
mod verb;
