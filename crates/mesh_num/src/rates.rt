ghost use Rattle.std.specs.Prelude.{◌≡◌, ◌≤◌, ◌^◌};
ghost use Rattle.mesh_num.specs.Rate.{rate};

/// The rate at a level of a velocity `v` and a diffusion coefficient `k`: a face of half the
/// size is crossed twice as fast by the one, and four times as fast by the other.
pub fn rate(v: u64, k: u64, level: u32) -> u64
    requires velocity { v ≤ 10 ^ 9 }
    requires diffusion { k ≤ 10 ^ 9 }
    requires levels { level ≤ 10 }
    ensures { result ≡ rate v k level }
{
    v * 2u64.pow(level) + k * 4u64.pow(level)
}
