ghost use Rattle.std.specs.Prelude.{◌≡◌, ◌^◌};
ghost use Rattle.package_fields.specs.Flow.{IsBelow, balanced};

use item_lists::Items;

/// What changes the total of a field in a cycle: what passes the faces of the domain inwards and
/// outwards, and what reactions make and use of it, each added up apart from the others.
#[derive(Clone, Copy, Debug, PartialEq, Eq, Default)]
pub struct Flow {
    pub inflow: u128,
    pub outflow: u128,
    pub made: u128,
    pub used: u128,
}

/// Flows by field.
pub type Flows = Items<Flow>;

/// Whether a flow tells how a total became another one: what was there, came in and was made is what
/// is there, went out and was used.
pub fn balances(before: u64, flow: &Flow, after: u64) -> bool
    requires { IsBelow (2 ^ 100) flow.now }
    ensures { result ≡ balanced before flow.now after }
{
    u128::from(before) + flow.inflow + flow.made == u128::from(after) + flow.outflow + flow.used
}
