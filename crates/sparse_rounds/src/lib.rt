//! Sparse buffers under any order of events: every legal list of events ends as the masked serial run does.
//!
//! A cycle has `S` stages, and then a reaction, tags and a check. In a stage each list of tasks sends ghosts, fills
//! its own, computes fluxes, posts the flux sums that coarser blocks need, corrects its pairs by those it gets, and
//! updates its cells. A Sparse field has a buffer only where it is kept, where something that is not zero came, or
//! where something flows in; letters may come at any time after they were sent, also while their reader works, and
//! then make buffers beneath its lease. What is not kept is made zero by an update or a reaction, and what it held is
//! recorded as dropped.
//!
//! | File of `specs/` | What a reader has to believe |
//! |---|---|
//! | `Kernels` | what a mesh supplies: the flags of fields, the letters that are due, the kernels (`Kernels`), and the laws that they meet (`AreKernels`) |
//! | `Masked` | the masked serial run: whole meshes, stage by stage, with what is kept, dropped, idle, and flowed in and out |
//! | `Sparse` | the machine: what is lent, what each task works, what a letter holds, and what its coming makes |
//! | `Agreement` | how a list's buffers agree with the run at each point of its tasks |
//! | `Laws`, `Dense`, `Balance`, `Epochs` | the laws below |
//! | `Row`, `Corner` | two meshes that meet the laws |
//!
//! | Law | What it says |
//! |---|---|
//! | [`masked_law`] | every state that is reached agrees with the run: values, ghosts, pairs, letters, buffers, what is kept, counts and sums |
//! | [`end_law`] | every complete list of events ends as the run does after the check |
//! | [`dense_law`] | at zero thresholds the run is the dense run, and nothing is dropped |
//! | [`balance_law`] | a cycle balances, with its drops, where a stage and a reaction do |
//! | [`epoch_law`] | while the epoch of a list stays, so do the places that its tasks would be lent |
//! | [`row_law`], [`corner_law`] | a row of blocks of one level, and a coarse block beside finer ones, meet what is asked of kernels |
//!
//! Shapes: a block and a field are numbers; a place is a block and a field. `V` is a field's cells on a block, `G` its
//! ghosts, `F` its faces' flux pairs, `P` a field's part of a letter, `X` what a letter is about (a side of a block,
//! and a block behind it), `W` a block's wish for the next mesh. Sums are kept by place; a field's is their sum over
//! blocks.
#![tactic(auto)]

mod laws;

pub use laws::{balance_law, corner_law, dense_law, end_law, epoch_law, masked_law, row_law};

#[cfg(test)]
mod tests {
    use super::{balance_law, dense_law, end_law, epoch_law, masked_law};

    #[test]
    fn laws_hold_at_any_types() {
        masked_law::<u64, u64, u8, u16, u32, bool>();
        end_law::<u64, u64, u8, u16, u32, bool>();
        dense_law::<u64, u64, u8, u16, u32, bool>();
        balance_law::<u64, u64, u8, u16, u32, bool>();
        epoch_law::<u64, u64, u8, u16, u32, bool>();
    }
}
