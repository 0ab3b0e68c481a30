// Reads the text of rule tables: a rule to a line, its name, a colon and its run of words.

#![tactic(auto)]

pub mod blanks;
pub mod fault;
pub mod line;
pub mod pieces;
pub mod table;
#[cfg(test)]
mod tests;
pub mod word;
