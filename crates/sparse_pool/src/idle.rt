ghost use Rattle.std.specs.Prelude.{◌≡◌, ◌<◌};
ghost use Rattle.sparse_pool.specs.Idle.{checked, idle};

/// What a check leaves of a field on a block.
#[derive(Clone, Copy, Debug, PartialEq, Eq)]
pub struct Checked {
    /// At how many checks in a row the field was idle.
    pub count: u32,
    /// Whether it is freed now.
    pub free: bool,
}

/// Whether no cell is above the threshold.
pub fn is_idle(cells: &[u64], threshold: u64) -> bool
    ensures { result ≡ idle cells.now threshold }
{
    cells.iter().all(|c| *c <= threshold)
}

/// Counts one more check of a field that was idle at `count` checks in a row. It is freed once the
/// count is at the limit, and the count of one that is not idle is 0.
pub fn note_check(count: u32, idle: bool, limit: u32) -> Checked
    requires { count < limit }
    ensures { result ≡ checked count idle limit }
{
    if idle {
        let count = count + 1;
        Checked {
            count,
            free: count == limit,
        }
    } else {
        Checked {
            count: 0,
            free: false,
        }
    }
}
