//! A block that sends letters.

use field_bufs::FieldBuf;
use task_meshes::{LetterKind, TaskMesh};

/// A block that sends letters in a stage, with the buffers that it was lent, by field.
#[derive(Clone, Copy)]
pub(crate) struct BlockSender<'a, 'm, 'b> {
    pub(crate) on: &'a TaskMesh<'m>,
    pub(crate) kind: LetterKind,
    pub(crate) stage: u32,
    pub(crate) block: u32,
    pub(crate) bufs: &'b [FieldBuf],
}
