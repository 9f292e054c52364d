/// How many letters are due to a list in a round of ghosts, and in one of flux sums.
#[derive(Clone, Copy, Debug, PartialEq, Eq)]
pub struct Due {
    pub ghosts: u32,
    pub fluxes: u32,
}

/// Where a list of tasks stands: what is due to it, how many tasks it has given, and the seat that has its next one.
#[derive(Clone, Copy, Debug, PartialEq, Eq)]
pub struct ListState {
    pub due: Due,
    pub given: u32,
    pub out: Option<u32>,
}
