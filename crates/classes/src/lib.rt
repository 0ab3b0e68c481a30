// A whole table of rules in a catalogue.

#![tactic(auto)]

pub mod table;
