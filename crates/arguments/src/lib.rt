// What the arguments of the program ask for.

#![tactic(auto)]

pub mod command;
pub mod files;
pub mod hashed;
pub mod judging;
pub mod misuse;
#[cfg(test)]
mod tests;
