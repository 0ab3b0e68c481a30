// Catalogues of names on many cases, under both hashers.

#![tactic(auto)]

#[cfg(test)]
mod histories;
#[cfg(test)]
mod memory;
pub mod model;
#[cfg(test)]
mod picks;
#[cfg(test)]
mod rubbish;
#[cfg(test)]
mod scripts;
#[cfg(test)]
mod tests;
pub mod words;
