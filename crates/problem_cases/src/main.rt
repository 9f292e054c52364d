//! Reads one change of a deck a line, and prints what the changed deck gives: the first fault of its
//! problem, or what the problem says.
//!
//! A line is override words between semicolons. A line that begins with `+` changes a small deck with
//! one field and one box, any other the empty deck. The word `N*block/#/key=value` stands for the N
//! words with the numbers from 0 on in place of `#`. Where a `?` stands before all this, the answer is
//! all that the problem says.
#![tactic(auto)]

mod answer;
mod deck;

use std::io;

fn main(rt: HostRuntime) -> io::Result<()> {
    for line in rt.lines(rt.alloc()) {
        let line = line?;
        let text = answer::answer(rt.alloc(), line.as_str())?;
        println!(rt; "{line} => {text}")?;
    }
    Ok(())
}
