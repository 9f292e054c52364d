//! Builds trees of blocks. A word chooses which: `uniform` (64 by 64 roots, refined to level 2 everywhere; where no
//! word is given), `corner` (10 by 10 by 10 roots, graded to level 8 around a corner) or `next` (63 by 64 roots,
//! refined to level 2 everywhere, and the next tree where one leaf is to be refined). Each further word is one more
//! time that the tree, or the next tree, is built. Prints how many leaves the last one has; `bench/trees.sh` measures
//! the time.
#![tactic(auto)]

mod cases;

use cases::{Case, leaves_of};
use std::{env, io};

fn main(rt: HostRuntime) -> io::Result<()> {
    let mut case = Case::Uniform;
    let mut times = 0u32;
    for word in env::args(&rt)?.skip(1) {
        if times == 0 {
            case = Case::named(word.as_str());
        }
        times = times.saturating_add(1);
    }
    match leaves_of(rt.alloc(), case, times) {
        Ok(leaves) => println!(rt; "{leaves} leaves"),
        Err(fault) => println!(rt; "{fault}"),
    }
}
