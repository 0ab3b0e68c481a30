// Hashers of 64-bit words: the interface, a word-wise hasher and a byte-wise one.

#![tactic(auto)]

pub mod fnv1a;
pub mod hasher;
pub mod named;
pub mod rotating;
#[cfg(test)]
mod tests;
pub mod words;
