//! Flows and drops of the stages of a cycle.

ghost use Rattle.std.specs.Prelude.{◌≡◌, ℕ, ◌+◌, ◌<◌, ◌^◌, All, IfOk, length, replicate, slice_index};
ghost use Rattle.package_fields.specs.Flow.{no_flow};
ghost use Rattle.dense_cycle.specs.Sums.{AreSmallFlows, IsSmallFlow, IsSmallPassed, flow_at, flow_with, passed_at, reacted_flow};

use crate::fields::DomainFlow;
use mesh_num::NoMemory;
use package_fields::Flow;
use std::alloc::Global;

/// What stages so far have passed through the faces of the domain, and dropped, by field.
#[derive(Drop)]
pub(crate) struct StageSums {
    pub flows: Vec<Flow>,
    pub drops: Vec<u128>,
}

impl StageSums {
    /// Nothing of so many fields.
    pub(crate) fn zeros(alloc: Global, fields: usize) -> Result<StageSums, NoMemory>
        ensures flows { IfOk result (λ s. s.flows.items ≡ replicate fields no_flow) }
        ensures drops { IfOk result (λ s. s.drops.items ≡ replicate fields 0) }
    {
        let none = Flow {
            inflow: 0,
            outflow: 0,
            made: 0,
            used: 0,
        };
        let flows = vec![in alloc; none; fields]?;
        let drops = vec![in alloc; 0u128; fields]?;
        Ok(StageSums { flows, drops })
    }
}

/// A flow with what passed in one more stage.
fn with_passed(flow: Flow, passed: DomainFlow) -> Flow
    requires flow { IsSmallFlow flow }
    requires passed { IsSmallPassed passed }
    ensures { result ≡ flow_with flow passed }
{
    Flow {
        inflow: flow.inflow + passed.inflow,
        outflow: flow.outflow + passed.outflow,
        ..flow
    }
}

/// Adds what passed in one more stage.
pub(crate) fn add_passed(flows: &mut Vec<Flow>, passed: &[DomainFlow])
    requires fields { length passed.now ≡ length flows.old.items }
    requires flows { AreSmallFlows flows.old.items }
    requires small { All IsSmallPassed passed.now }
    ensures count { length flows.new.items ≡ length flows.old.items }
    ensures each { (k : ℕ) → k < length flows.old.items
        → flow_at flows.new.items k ≡ flow_with (flow_at flows.old.items k) (passed_at passed.now k) }
{
    for i in 0..passed.len() {
        flows[i] = with_passed(flows[i], passed[i]);
    }
}

/// Adds numbers to others, one by one.
pub(crate) fn add_each(numbers: &mut Vec<u128>, more: &[u128])
    requires fields { length more.now ≡ length numbers.old.items }
    requires numbers { All (λ n. n < 2 ^ 100) numbers.old.items }
    requires more { All (λ n. n < 2 ^ 64) more.now }
    ensures count { length numbers.new.items ≡ length numbers.old.items }
    ensures each { (k : ℕ) → k < length numbers.old.items
        → slice_index numbers.new.items k ≡ slice_index numbers.old.items k + slice_index more.now k }
{
    for i in 0..more.len() {
        numbers[i] += more[i];
    }
}

/// Sets what was made and used.
pub(crate) fn set_reacted(flows: &mut Vec<Flow>, made: &[u128], used: &[u128])
    requires made { length made.now ≡ length flows.old.items }
    requires used { length used.now ≡ length flows.old.items }
    ensures count { length flows.new.items ≡ length flows.old.items }
    ensures each { (k : ℕ) → k < length flows.old.items
        → flow_at flows.new.items k ≡ reacted_flow (flow_at flows.old.items k) (slice_index made.now k)
        (slice_index used.now k) }
{
    for i in 0..made.len() {
        flows[i] = Flow {
            made: made[i],
            used: used[i],
            ..flows[i]
        };
    }
}
