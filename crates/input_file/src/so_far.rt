ghost use Rattle.std.specs.Prelude.{◌≤◌, ◌+◌, vec_len};
ghost use Rattle.input_file.specs.Unended.{IsUnended};

use crate::found::Found;

/// What was read of the bytes of a deck: what was found in the lines that have ended, and the line that has not.
#[derive(Drop)]
pub(crate) struct SoFar {
    pub(crate) found: Found,
    // The number of the line that has not ended.
    pub(crate) number: u32,
    // How many bytes the lines that have ended take, each with its LF.
    pub(crate) ended: usize,
    pub(crate) line: Vec<u8>,
    ghost numbered: { number ≤ ended + 1 },
    ghost short: { ended + vec_len line ≤ 1048576 },
    ghost unended: { IsUnended line.items },
}
