ghost use Rattle.std.specs.Prelude.{◌≡◌, ◌<◌, ◌≤◌};
ghost use Rattle.mesh_num.specs.Share.{share, SharesAddUp};

/// The share that part `j` of `n` gets of the total `q`.
pub fn share(q: u64, n: u32, j: u32) -> u64
    requires parts { 1 ≤ n }
    requires part { j < n }
    ensures value { result ≡ share q n j }
    ensures within { result ≤ q }
{
    let parts = u64::from(n);
    let even = q / parts;
    if u64::from(j) < q % parts {
        even + 1
    } else {
        even
    }
}

/// The shares of all parts add up to the total.
pub fn shares_add_up()
    ensures { SharesAddUp }
{}
