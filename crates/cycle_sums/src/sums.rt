//! Sums by field.

ghost use Rattle.std.specs.Prelude.{◌≡◌, ◌≤◌, ◌^◌, IfOk, length};
ghost use Rattle.package_fields.specs.Flow.{IsBelow};
ghost use Rattle.cycle_sums.specs.Sums.{AreDropSums, AreFlowSums, AreSums, DropsFit, FlowsFit, flow_sum};
ghost use Rattle.cycle_sums.specs.Shows.{no_sums};

use cycle_events::Drops;
use mesh_num::NoMemory;
use package_fields::{Flow, Flows};
use std::alloc::Global;
use std::marker::Model;

/// What has flowed and was dropped in a cycle so far, by field.
#[derive(Debug, Drop)]
pub struct CycleSums {
    flows: Vec<Flow>,
    drops: Vec<u128>,
}

impl Model for CycleSums {
    ghost use Rattle.cycle_sums.specs.Sums.{Sums};

    ghost Value = { Sums };

    ghost view = { λ s. record { flows = s.flows.items; drops = s.drops.items } };
}

impl CycleSums {
    /// Nothing of so many fields.
    pub fn new(alloc: Global, fields: usize) -> Result<CycleSums, NoMemory>
        ensures { IfOk result (λ sums. sums ≡ no_sums fields) }
    {
        let none = Flow {
            inflow: 0,
            outflow: 0,
            made: 0,
            used: 0,
        };
        let flows = vec![in alloc; none; fields]?;
        let drops = vec![in alloc; 0u128; fields]?;
        Ok(CycleSums { flows, drops })
    }

    /// Adds what has flowed and was dropped besides, by field; nothing of the fields past the end of a list.
    pub fn add(&mut self, flows: &[Flow], drops: &[u128])
        requires flows { length flows.now ≤ length self.old.flows }
        requires drops { length drops.now ≤ length self.old.drops }
        requires flows_fit { FlowsFit self.old.flows flows.now }
        requires drops_fit { DropsFit self.old.drops drops.now }
        ensures { AreSums self.old self.new flows.now drops.now }
    {
        add_flows(&mut self.flows, flows);
        add_drops(&mut self.drops, drops);
    }

    /// The flows and the drops, moved out.
    pub fn into_parts(self) -> (Flows, Drops)
        ensures flows { result.0 ≡ self.flows }
        ensures drops { result.1 ≡ self.drops }
    {
        let CycleSums { flows, drops } = self;
        (Flows::from_vec(flows), Drops::from_vec(drops))
    }
}

/// Two flows together.
fn with_flow(flow: Flow, more: Flow) -> Flow
    requires { IsBelow (2 ^ 128) (flow_sum flow more) }
    ensures { result ≡ flow_sum flow more }
{
    Flow {
        inflow: flow.inflow + more.inflow,
        outflow: flow.outflow + more.outflow,
        made: flow.made + more.made,
        used: flow.used + more.used,
    }
}

/// Adds flows to others, one by one.
fn add_flows(flows: &mut Vec<Flow>, more: &[Flow])
    requires fields { length more.now ≤ length flows.old.items }
    requires fit { FlowsFit flows.old.items more.now }
    ensures { AreFlowSums flows.old.items more.now flows.new.items }
{
    for i in 0..more.len() {
        flows[i] = with_flow(flows[i], more[i]);
    }
}

/// Adds drops to others, one by one.
fn add_drops(drops: &mut Vec<u128>, more: &[u128])
    requires fields { length more.now ≤ length drops.old.items }
    requires fit { DropsFit drops.old.items more.now }
    ensures { AreDropSums drops.old.items more.now drops.new.items }
{
    for i in 0..more.len() {
        drops[i] += more[i];
    }
}
