//! Worked runs of the whole program over depots in memory: what they write and print. Their answers were worked out by
//! hand.
#![tactic(auto)]

#[cfg(test)]
mod pool_rows;
#[cfg(test)]
mod rows;
#[cfg(test)]
mod rule_rows;
#[cfg(test)]
mod runs;
#[cfg(test)]
mod so_far;
#[cfg(test)]
mod tree_rows;
