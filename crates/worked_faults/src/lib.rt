//! Worked calls of the whole program that fail or stop, with what they leave, and files outside of the program.
#![tactic(auto)]

#[cfg(test)]
mod faults;
#[cfg(test)]
mod outside;
#[cfg(test)]
mod stops;
