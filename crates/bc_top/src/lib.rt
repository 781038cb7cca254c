//! The top calls: from the words, the source and the sink of one run to its end. `offline` is on
//! one thread; `top` has a run by threads besides.
#![tactic(auto)]

mod call;
mod made;
mod one_thread;
mod outcome;
mod read;
mod summary;
mod threads;
mod words;
mod write;

pub use one_thread::offline;
pub use outcome::End;
pub use text_io::Reason;
pub use threads::top;

#[cfg(test)]
mod tests;
