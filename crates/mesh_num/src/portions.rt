ghost use Rattle.std.specs.Prelude.{◌≡◌, ◌≤◌};
ghost use Rattle.mesh_num.specs.Portion.{portion, PortionLaws};

/// The floor of `q * c / d`: what the fraction `c / d` takes of the total `q`.
pub fn portion(q: u64, c: u64, d: u64) -> u64
    requires positive { 1 ≤ d }
    requires proper { c ≤ d }
    ensures value { result ≡ portion q c d }
    ensures within { result ≤ q }
{
    // One quotient of 64 bits costs less than two, and one of 128 bits about ten times these two.
    if q <= u64::from(u32::MAX) && c <= u64::from(u32::MAX) {
        q * c / d
    } else if d <= u64::from(u32::MAX) {
        q / d * c + q % d * c / d
    } else {
        (u128::from(q) * u128::from(c) / u128::from(d)) as u64
    }
}

/// A portion is the floor of its fraction, at most its total, and nothing of nothing.
pub fn portion_laws()
    ensures { PortionLaws }
{}
