#![tactic(auto)]

pub mod asking;
pub mod calls;
pub mod fault;
pub mod kind;
pub mod record;
mod search;
