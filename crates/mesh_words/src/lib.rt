//! The arguments of a call, from the words of its command line.
//!
//! `read_arguments` reads the words by `clap` as the command
//! `parthenon_whole (-i FILE | -g N [-l]) [-w N] [-d PREFIX] [-t] [-n] [block/name=value ..]` and then tests the rules
//! between its options. Contracts say what words give by clap's own promise for that command.
#![tactic(auto)]

mod arguments;
mod command;
mod fault;
mod numbers;
mod raw_arguments;
#[cfg(test)]
mod tests;

pub use arguments::{Arguments, Source, read_arguments};
pub use fault::UsageFault;
