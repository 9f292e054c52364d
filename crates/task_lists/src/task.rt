ghost use Rattle.std.specs.Prelude.{◌≡◌, ◌<◌, ◌≤◌};
ghost use Rattle.task_lists.specs.Cycle.{kind_at, task_count};

/// What a task does to the fields of a partition.
#[derive(Clone, Copy, Debug, PartialEq, Eq)]
pub enum TaskKind {
    /// Sends the cells that neighbours need as ghost zones.
    Send,
    /// Fills the ghost zones.
    Fill,
    /// Computes what passes each face.
    Fluxes,
    /// Sends what passes the faces to coarser neighbours.
    Post,
    /// Takes over what finer neighbours sent for their faces.
    Fix,
    /// Advances the cells by what passes their faces.
    Update,
    /// Lets the fields of each cell react.
    React,
    /// Says which blocks are to be refined or merged.
    Tag,
    /// Counts idle fields and frees them.
    Check,
}

/// The number of a task in its list.
#[derive(Clone, Copy, Debug, Default, PartialEq, Eq)]
pub struct TaskId {
    pub number: u32,
}

/// The kind of a task of a cycle with so many stages: six tasks a stage, then three.
pub fn kind_of(task: u32, stages: u32) -> TaskKind
    requires some { 1 ≤ stages }
    requires few { stages ≤ 4 }
    requires task { task < task_count stages }
    ensures { result ≡ kind_at stages task }
{
    let last = 6 * stages;
    if task >= last {
        return match task - last {
            0 => TaskKind::React,
            1 => TaskKind::Tag,
            _ => TaskKind::Check,
        };
    }
    match task % 6 {
        0 => TaskKind::Send,
        1 => TaskKind::Fill,
        2 => TaskKind::Fluxes,
        3 => TaskKind::Post,
        4 => TaskKind::Fix,
        _ => TaskKind::Update,
    }
}
