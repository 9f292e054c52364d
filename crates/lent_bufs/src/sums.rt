//! Lists by field to which amounts are added.

ghost use Rattle.std.specs.Prelude.{◌≡◌, ◌==◌, ◌+◌, ◌<◌, ◌≤◌, ◌^◌, ℕ, OnOk, cond, length, max, slice_index};
ghost use Rattle.std.specs.List.{slice_index_or};
ghost use Rattle.package_fields.specs.Flow.{no_flow};
ghost use Rattle.lent_bufs.specs.Sums.{IsPadded, with_flow};

use mesh_num::NoMemory;
use package_fields::Flow;

/// Adds zeros to a list until it has a field.
fn reach<T: Copy>(list: &mut Vec<T>, field: u32, none: T) -> Result<(), NoMemory>
    requires small { length list.old.items < 2 ^ 33 }
    ensures padded { OnOk result (IsPadded none list.old.items list.new.items) }
    ensures reached { OnOk result (field < length list.new.items) }
    ensures few { OnOk result (length list.new.items ≤ max (length list.old.items) (field + 1)) }
{
    let want = field as usize + 1;
    for _at in list.len()..want {
        list.push(none)?;
    }
    Ok(())
}

/// Adds an amount to that of a field. The list has nothing past its end, and is made longer only for what is not zero.
pub fn add_amount(amounts: &mut Vec<u128>, field: u32, amount: u128) -> Result<(), NoMemory>
    requires small { length amounts.old.items < 2 ^ 33 }
    requires fits { slice_index amounts.old.items field + amount < 2 ^ 128 }
    ensures amounts { OnOk result ((f : ℕ) → slice_index amounts.new.items f
        ≡ slice_index amounts.old.items f + cond (f == field) amount 0) }
    ensures few { OnOk result (length amounts.new.items ≤ max (length amounts.old.items) (field + 1)) }
{
    if amount == 0 {
        return Ok(());
    }
    reach(amounts, field, 0)?;
    amounts[field as usize] += amount;
    Ok(())
}

/// Adds what flows in and out to the flow of a field. The list has nothing past its end, and is made longer only for
/// what is not zero.
pub fn add_flow(
    flows: &mut Vec<Flow>,
    field: u32,
    inflow: u128,
    outflow: u128,
) -> Result<(), NoMemory>
    requires small { length flows.old.items < 2 ^ 33 }
    requires inflow { (slice_index_or flows.old.items field no_flow).inflow + inflow < 2 ^ 128 }
    requires outflow { (slice_index_or flows.old.items field no_flow).outflow + outflow < 2 ^ 128 }
    ensures flows { OnOk result ((f : ℕ) → slice_index_or flows.new.items f no_flow
        ≡ with_flow (slice_index_or flows.old.items f no_flow) (cond (f == field) inflow 0)
        (cond (f == field) outflow 0)) }
    ensures few { OnOk result (length flows.new.items ≤ max (length flows.old.items) (field + 1)) }
{
    if inflow == 0 && outflow == 0 {
        return Ok(());
    }
    let none = Flow {
        inflow: 0,
        outflow: 0,
        made: 0,
        used: 0,
    };
    reach(flows, field, none)?;
    let flow = &mut flows[field as usize];
    flow.inflow += inflow;
    flow.outflow += outflow;
    Ok(())
}
