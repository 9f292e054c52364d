//! The sums of a cycle by field: what passed the faces of the domain, what reactions made and used, what was dropped.
//!
//! Each list of tasks counts these by block. [`CycleSums`] keeps their sums over all blocks, so that the end of a cycle
//! need not go through them: a task that is given says what it adds. `ShowsSums` (`specs/Shows.antt`) ties the sums to a
//! state of a cycle, whatever its kernels are; [`sum_law`] says that they start as those of the opening, and that each
//! event keeps them so. [`wish_law`] says the same of what blocks wish (`specs/Wishes.antt`), and
//! [`bound_law`] that no sum passes what the cycle comes to (`specs/Bounds.antt`).
#![tactic(auto)]

mod laws;
mod sums;

pub use laws::{bound_law, sum_law, wish_law};
pub use sums::CycleSums;

#[cfg(test)]
mod tests {
    use super::{CycleSums, bound_law, sum_law, wish_law};
    use package_fields::Flow;
    use std::alloc::Global;
    use std::test::Fail;

    #[test]
    fn laws_hold_at_any_types() {
        sum_law::<u64, u64, u8, u16, u32, bool>();
        wish_law::<u64, u64, u8, u16, u32, bool>();
        bound_law::<u64, u64, u8, u16, u32, bool>();
    }

    /// What came in of the second of two fields, and what was dropped of the first, after two additions.
    fn added_twice(alloc: Global) -> Option<(u128, u128)> {
        let mut sums = CycleSums::new(alloc, 2).ok()?;
        let none = Flow::default();
        let some = Flow { inflow: 5, ..none };
        sums.add(&[none, some], &[7]);
        sums.add(&[none, some], &[]);
        let (flows, drops) = sums.into_parts();
        let inflow = flows.as_slice().get(1)?.inflow;
        Some((inflow, *drops.as_slice().first()?))
    }

    #[test]
    fn what_is_added_is_summed_by_field(rt: HostRuntime) -> Result<(), Fail> {
        assert!(rt; added_twice(rt.alloc()) == Some((10, 7)));
        Ok(())
    }
}
