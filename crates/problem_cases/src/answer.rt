use crate::deck::changed;
use package_fields::{Field, FieldFault, Flag};
use problem_set::{FaceKind, Method, Mode, Moves, Problem, ProblemFault, read_problem};
use std::alloc::{AllocError, Global};

/// What a deck gives with the changes of a line, and all that its problem says where the line begins
/// with `?`.
pub fn answer(alloc: Global, line: &str) -> Result<String, AllocError> {
    let (in_full, changes) = match line.strip_prefix('?') {
        Some(changes) => (true, changes),
        None => (false, line),
    };
    let Ok(deck) = changed(alloc, changes) else {
        return String::from_str(alloc, "no deck");
    };
    match read_problem(alloc, &deck) {
        Ok(problem) => {
            let mut text = summary(alloc, &problem)?;
            if in_full {
                push_details(&mut text, &problem)?;
            }
            Ok(text)
        }
        Err(fault) => fault_text(alloc, &fault),
    }
}

/// A few numbers of a problem.
fn summary(alloc: Global, problem: &Problem) -> Result<String, AllocError> {
    let levels = problem.levels;
    let fields = problem.fields.count();
    let [n1, n2, n3] = problem.size;
    let [c1, c2, c3] = problem.cells;
    let boxes = problem.boxes.len();
    format!(in alloc;
        "ok size {n1} {n2} {n3} cells {c1} {c2} {c3} levels {levels} fields {fields} boxes {boxes}"
    )
}

/// Appends all else that a problem says.
fn push_details(text: &mut String, problem: &Problem) -> Result<(), AllocError> {
    push_mesh(text, problem)?;
    push_cycle_settings(text, problem)?;
    let moves = problem.moves.as_slice();
    for (field, moves) in problem.fields.fields().iter().zip(moves.iter()) {
        push_field(text, field, moves)?;
    }
    push_parts(text, problem)?;
    push_reactions(text, problem)?;
    push_criteria(text, problem)
}

/// Appends how the mesh is laid out, bounded, refined and shared out.
fn push_mesh(text: &mut String, problem: &Problem) -> Result<(), AllocError> {
    let mode = match problem.mode {
        Mode::Plain => "none",
        Mode::Fixed => "static",
        Mode::Adaptive => "adaptive",
    };
    let dims = problem.shape.dims;
    let [r1, r2, r3] = problem.shape.root;
    write!(text, " {mode} dims {dims} root {r1} {r2} {r3} wrap")?;
    for wraps in problem.shape.wrap.iter() {
        text.push_str(if *wraps { " yes" } else { " no" })?;
    }
    text.push_str(" faces")?;
    for face in problem.faces.as_slice().iter() {
        text.push_str(face_word(*face))?;
    }
    let derefine = problem.derefine_count;
    write!(text, " derefine {derefine}")?;
    match problem.pack_size {
        Some(pack) => write!(text, " pack {pack}"),
        None => text.push_str(" pack all"),
    }
}

/// A space and the kind of a face.
fn face_word(face: FaceKind) -> &'static str {
    match face {
        FaceKind::Periodic => " periodic",
        FaceKind::Outflow => " outflow",
        FaceKind::Reflecting => " reflecting",
        FaceKind::Inflow => " inflow",
    }
}

/// Appends the cycles and how they are run.
fn push_cycle_settings(text: &mut String, problem: &Problem) -> Result<(), AllocError> {
    let nlim = problem.nlim;
    let alloc = problem.alloc_threshold;
    let dealloc = problem.dealloc_threshold;
    let idle = problem.dealloc_count;
    write!(
        text,
        " nlim {nlim} thresholds {alloc} {dealloc} dealloc {idle}"
    )?;
    let denominator = problem.denominator;
    let stages = problem.nstages;
    write!(text, " denominator {denominator} stages {stages}")?;
    let refine = problem.refine_every;
    let dump = problem.dump_every;
    write!(text, " refine {refine} dump {dump}")
}

/// Appends a field, the first letters of its flags, and how it moves.
fn push_field(text: &mut String, field: &Field, moves: &Moves) -> Result<(), AllocError> {
    write!(text, "; field {}", field.label.as_str())?;
    if let Some(id) = field.id {
        write!(text, " of {} {id}", field.base.as_str())?;
    }
    text.push(' ')?;
    for flag in field.flags.as_slice().iter() {
        text.push(flag_letter(*flag))?;
    }
    let [v1, v2, v3] = moves.v;
    let k = moves.k;
    let order = moves.order;
    write!(text, " v {v1} {v2} {v3} k {k} order {order} in")?;
    for amount in moves.entry.iter() {
        write!(text, " {amount}")?;
    }
    Ok(())
}

/// The first letter of a flag.
fn flag_letter(flag: Flag) -> char {
    match flag {
        Flag::Cell => 'C',
        Flag::Independent => 'I',
        Flag::Derived => 'D',
        Flag::OneCopy => 'O',
        Flag::FillGhost => 'F',
        Flag::WithFluxes => 'W',
        Flag::Sparse => 'S',
    }
}

/// Appends the parts of the mesh that are refined, and those that hold something at the start.
fn push_parts(text: &mut String, problem: &Problem) -> Result<(), AllocError> {
    for part in problem.statics.as_slice().iter() {
        let level = part.level;
        write!(text, "; static level {level}")?;
        push_span(text, part.lo, part.hi)?;
    }
    for part in problem.boxes.as_slice().iter() {
        let field = part.field;
        let amount = part.amount;
        write!(text, "; box field {field} amount {amount}")?;
        push_span(text, part.lo, part.hi)?;
    }
    Ok(())
}

/// Appends the first and the last cell of a part of the mesh.
fn push_span(text: &mut String, lo: [u32; 3], hi: [u32; 3]) -> Result<(), AllocError> {
    let [a1, a2, a3] = lo;
    let [b1, b2, b3] = hi;
    write!(text, " from {a1} {a2} {a3} to {b1} {b2} {b3}")
}

/// Appends the reactions.
fn push_reactions(text: &mut String, problem: &Problem) -> Result<(), AllocError> {
    for reaction in problem.reactions.as_slice().iter() {
        let from = reaction.from;
        let to = reaction.to;
        let num = reaction.num;
        let den = reaction.den;
        write!(text, "; reaction {from} to {to} num {num} den {den}")?;
    }
    Ok(())
}

/// Appends the criteria.
fn push_criteria(text: &mut String, problem: &Problem) -> Result<(), AllocError> {
    for criterion in problem.criteria.as_slice().iter() {
        let method = match criterion.method {
            Method::Peak => "peak",
            Method::Jump => "jump",
        };
        let field = criterion.field;
        let refine = criterion.refine_tol;
        let derefine = criterion.derefine_tol;
        let max = criterion.max_level;
        write!(
            text,
            "; criterion {method} field {field} tol {refine} {derefine} max {max}"
        )?;
    }
    Ok(())
}

/// Why a deck gives no problem.
fn fault_text(alloc: Global, fault: &ProblemFault) -> Result<String, AllocError> {
    match fault {
        ProblemFault::Missing { block, name } => {
            format!(in alloc; "missing {} {}", block.as_str(), name.as_str())
        }
        ProblemFault::BadValue { block, name } => {
            format!(in alloc; "value {} {}", block.as_str(), name.as_str())
        }
        ProblemFault::Limit { block, name, value } => {
            format!(in alloc; "limit {} {} = {}", block.as_str(), name.as_str(), *value)
        }
        ProblemFault::Rates { label, sum } => {
            format!(in alloc; "rates {} sum {}", label.as_str(), *sum)
        }
        ProblemFault::Bound { total } => format!(in alloc; "bound {}", *total),
        ProblemFault::Fields { fault } => field_fault_text(alloc, fault),
        ProblemFault::NoMemory => String::from_str(alloc, "no memory"),
    }
}

/// Why the fields of a deck cannot stand together.
fn field_fault_text(alloc: Global, fault: &FieldFault) -> Result<String, AllocError> {
    match fault {
        FieldFault::Twice { name } => format!(in alloc; "field twice {}", name.as_str()),
        FieldFault::BadFlags { name } => format!(in alloc; "field flags {}", name.as_str()),
        FieldFault::TooMany { count } => format!(in alloc; "fields {}", *count),
        FieldFault::NoMemory => String::from_str(alloc, "no memory"),
    }
}
