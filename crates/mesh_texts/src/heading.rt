//! The lines of a dump before those of the blocks.

ghost use Rattle.std.specs.Prelude.{◌≡◌, ◌++◌, OnOk};
ghost use Rattle.problem_set.specs.SettingsOf.{settings_of};
ghost use Rattle.mesh_rules.specs.Mesh.{Mesh};
ghost use Rattle.mesh_rules.specs.Texts.{heading_text};
ghost use Rattle.mesh_texts.specs.Outlines.{HasOutline};
ghost use Rattle.mesh_texts.specs.Pieces.{dims_line, first_lines, heading_lines, label_lines};

use crate::pieces::{push_byte, push_line, push_named, push_named_line, push_three};
use mesh_num::NoMemory;
use package_fields::Field;
use problem_set::Problem;

/// Appends the lines of a dump before those of its blocks. It has so many leaves, and follows so many cycles.
pub fn push_heading(
    problem: &Problem,
    leaves: u32,
    cycle: u32,
    into: &mut Vec<u8>,
) -> Result<(), NoMemory>
    ensures { (m : Mesh) → HasOutline (settings_of problem.now) leaves m → OnOk result (into.new.items ≡ into.old.items
        ++ heading_text (settings_of problem.now) m cycle) }
{
    push_all(problem, leaves, cycle, into)
}

/// Appends all lines of a heading.
fn push_all(problem: &Problem, leaves: u32, cycle: u32, into: &mut Vec<u8>) -> Result<(), NoMemory>
    ensures { OnOk result (into.new.items ≡ into.old.items ++ heading_lines (settings_of problem.now) leaves cycle) }
{
    let fields = &problem.fields;
    push_first(problem, cycle, into)?;
    push_named_line(into, b"fields ", u64::from(fields.count()))?;
    push_labels(into, fields.fields())?;
    push_named_line(into, b"blocks ", u64::from(leaves))
}

/// Appends the lines before the number of fields.
fn push_first(problem: &Problem, cycle: u32, into: &mut Vec<u8>) -> Result<(), NoMemory>
    ensures { OnOk result (into.new.items ≡ into.old.items ++ first_lines (settings_of problem.now) cycle) }
{
    push_line(into, b"parthenon-whole dump 1")?;
    push_named_line(into, b"cycle ", u64::from(cycle))?;
    push_dims(problem, into)
}

/// Appends the line of the axes, the cells of a block and the root blocks.
fn push_dims(problem: &Problem, into: &mut Vec<u8>) -> Result<(), NoMemory>
    ensures { OnOk result (into.new.items ≡ into.old.items ++ dims_line (settings_of problem.now)) }
{
    push_named(into, b"dims ", u64::from(problem.shape.dims))?;
    push_three(into, b" cells ", &problem.cells)?;
    push_three(into, b" root ", &problem.shape.root)?;
    push_byte(into, b'\n')
}

/// Appends the fields' labels, one a line.
fn push_labels(into: &mut Vec<u8>, fields: &[Field]) -> Result<(), NoMemory>
    ensures { OnOk result (into.new.items ≡ into.old.items ++ label_lines fields.now) }
{
    for field in fields {
        push_line(into, field.label.as_str().as_bytes())?;
    }
    Ok(())
}
