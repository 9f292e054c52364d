//! Makes a stage of sixteen blocks over and over.
//!
//! Each word chooses one thing: `fused` (a stage without face lists), `lists` (fluxes and update), `slopes` (fluxes of
//! the second order and update) or `letters` (a stage by `lists`, and then letters fill the ghosts; without them ghosts
//! are filled before and stay); `16x16`, `64x64` or `16x16x16` cells a block; totals below two to the `20`, `32` or
//! `62`; rates `one` way or `both` ways. With words it prints nanoseconds a cell, by the fastest of many rounds; with
//! none the sums of the totals after one stage by the first two, which are the same. `bench/kernels.sh` prints them all.
#![tactic(auto)]

mod block;
mod case;
mod exchange;
mod rates;
mod rounds;

use case::{Case, Kernel};
use mesh_num::NoMemory;
use rounds::Run;
use std::alloc::Global;
use std::time::Clock;
use std::{env, io};

fn main(rt: HostRuntime) -> io::Result<()> {
    let mut case = Case::new();
    let mut words = 0u32;
    for word in env::args(&rt)?.skip(1) {
        case = case.with(word.as_str());
        words = words.saturating_add(1);
    }
    if words == 0 {
        return match totals(&rt, rt.alloc(), case) {
            Ok(Some((fused, lists))) => println!(rt; "fused {fused}, lists {lists}"),
            Ok(None) => println!(rt; "no figures"),
            Err(_) => println!(rt; "no memory"),
        };
    }
    match time_of(&rt, rt.alloc(), case) {
        Ok(Some(time)) => {
            let whole = time / 100;
            let rest = time % 100;
            println!(rt; "{whole}.{rest:02}")
        }
        Ok(None) => println!(rt; "no figures"),
        Err(_) => println!(rt; "no memory"),
    }
}

/// The hundredths of a nanosecond that an update of a cell takes.
fn time_of<C: Clock>(clock: &C, alloc: Global, case: Case) -> Result<Option<u128>, NoMemory> {
    let mut run = Run::new(alloc, case)?;
    Ok(run.best_time(clock, alloc))
}

/// The sum of the totals after one stage by a kernel.
fn total<C: Clock>(clock: &C, alloc: Global, case: Case) -> Result<Option<u128>, NoMemory> {
    let mut run = Run::new(alloc, case)?;
    Ok(run.total_after(clock, alloc))
}

/// The sums of the totals after one stage by the two kernels of the first order.
fn totals<C: Clock>(
    clock: &C,
    alloc: Global,
    case: Case,
) -> Result<Option<(u128, u128)>, NoMemory> {
    let kernel = Kernel::Lists;
    let fused = total(clock, alloc, case)?;
    let lists = total(clock, alloc, Case { kernel, ..case })?;
    match (fused, lists) {
        (Some(fused), Some(lists)) => Ok(Some((fused, lists))),
        _ => Ok(None),
    }
}
