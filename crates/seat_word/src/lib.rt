//! The word of a seat, in which a clock's stamp and the length of its log are changed at once.
#![tactic(auto)]

mod word;

pub use word::{NUMBER_MAX, Word, pack, unpack};

#[cfg(test)]
mod tests;
