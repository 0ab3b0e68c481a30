// Runs of words as rules: the grounds on which a run is refused, and the nodes of one that is not.

#![tactic(auto)]

mod classes;
pub mod codes;
pub mod comparison;
pub mod fault;
pub mod intake;
pub mod lookup;
pub mod nodes;
pub mod rows;
mod scopes;
mod tree;
mod words;
