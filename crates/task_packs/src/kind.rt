//! The kinds of tasks.

ghost use Rattle.std.specs.Prelude.{◌≡◌, ◌+◌, ◌*◌, ◌<◌, ◌^◌};
ghost use Rattle.task_packs.specs.Noted.{kind_at};

use sparse_pool::PackKind;

/// The kind of a task by its number, in a cycle of so many stages: of a stage's six, those that send and fill ghosts are
/// of the kind Ghost, the others of Flux; in the tail all are of All.
pub fn kind_of(stages: u32, task: u32) -> PackKind
    requires { 6 * stages + 3 < 2 ^ 32 }
    ensures { result ≡ kind_at stages task }
{
    if task >= 6 * stages {
        return PackKind::All;
    }
    if task % 6 < 2 {
        return PackKind::Ghost;
    }
    PackKind::Flux
}
