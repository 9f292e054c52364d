use crate::steps::{Case, Step, told};
use alloc_epochs::Shelf;
use block_tree::Tree;
use input_file::parse;
use mesh_num::NoMemory;
use morton_order::Shape;
use pack_cache::{Pack, PackNotes};
use package_fields::Registry;
use problem_set::{Problem, read_problem};
use sparse_pool::{Mask, PackKind, Place, Places};
use std::alloc::Global;
use std::test::Fail;
use task_lists::{TaskFault, TaskId, TaskKind, TaskList};

/// Two blocks, each a partition, with a field a that no block may go without and a sparse one.
const DECK: &str =
    "<parthenon/mesh>\nnx1 = 8\npack_size = 1\n<parthenon/meshblock>\nnx1 = 4\n<parthenon/time>\nnlim = 1\n<whole>\ndenominator = 4\n<field/a>\nv1 = 1\n<field/b>\nflags = Cell,Independent,FillGhost,WithFluxes,Sparse\nids = 1\n";

/// The steps of a mesh state at a block and a field, and what is seen there then: whether the field is allocated there, and
/// lent; on how many blocks it is; the epoch of the partition; the idle count; and the stamp, 99 where there is no buffer.
const STEPS: [(Step, u32, u32, [u64; 6]); 16] = [
    (Step::Look, 0, 0, [1, 0, 2, 0, 0, 0]),
    (Step::Look, 0, 1, [0, 0, 0, 0, 0, 99]),
    (Step::Release, 0, 1, [0, 0, 0, 0, 0, 99]),
    (Step::Add, 0, 1, [1, 0, 1, 1, 0, 0]),
    (Step::Idle(3), 0, 1, [1, 0, 1, 1, 3, 0]),
    (Step::Look, 1, 1, [0, 0, 1, 0, 0, 99]),
    (Step::TakeOut, 0, 1, [1, 1, 1, 1, 3, 99]),
    (Step::Release, 0, 1, [1, 1, 1, 1, 3, 99]),
    (Step::Stamp, 0, 0, [1, 0, 2, 1, 0, 1]),
    (Step::Look, 1, 0, [1, 0, 2, 0, 0, 0]),
    (Step::PutBack, 0, 1, [1, 0, 1, 1, 3, 0]),
    (Step::Release, 0, 1, [0, 0, 0, 2, 0, 99]),
    (Step::Add, 0, 1, [1, 0, 1, 3, 0, 0]),
    (Step::Add, 1, 1, [1, 0, 2, 1, 0, 0]),
    (Step::Stamp, 0, 1, [1, 0, 2, 3, 0, 1]),
    (Step::Restart, 1, 1, [1, 0, 2, 0, 0, 0]),
];

fn problem(alloc: Global) -> Option<Problem> {
    let deck = parse(alloc, DECK.as_bytes()).ok()?;
    read_problem(alloc, &deck).ok()
}

/// Two roots along one axis.
fn two_roots(alloc: Global) -> Option<Tree> {
    let shape = Shape {
        dims: 1,
        root: [2, 1, 1],
        wrap: [false; 3],
    };
    Tree::from_static(alloc, shape, [4, 1, 1], &[]).ok()
}

fn case(alloc: Global, problem: &Problem) -> Option<Case> {
    let tree = two_roots(alloc)?;
    Case::new(alloc, problem, tree).ok()
}

/// Whether each step leaves what its row says.
fn passes(case: &mut Case, rows: &[(Step, u32, u32, [u64; 6])]) -> bool {
    for row in rows {
        let (step, block, field, want) = *row;
        if !is_row(case.step(step, Place { block, field }), want) {
            return false;
        }
    }
    true
}

fn is_row(found: Result<[u64; 6], NoMemory>, want: [u64; 6]) -> bool {
    match found {
        Ok(found) => found == want,
        Err(_) => false,
    }
}

fn states_pass(alloc: Global) -> bool {
    let Some(problem) = problem(alloc) else {
        return false;
    };
    match case(alloc, &problem) {
        Some(mut case) => passes(&mut case, &STEPS) && tells(&mut case, &problem.fields),
        None => false,
    }
}

/// All is zero, two places of the first partition are listed, and the counter is the one that was set; the tree is shared.
fn tells(case: &mut Case, fields: &Registry) -> bool {
    let mut into = [9u64; 4];
    let at = Place { block: 0, field: 1 };
    let told = match told(case.state(), at, &mut into, fields) {
        Ok(told) => told == [0, 2, 5] && into == [0; 4],
        Err(_) => false,
    };
    match case.state().share_tree() {
        Ok(tree) => told && tree.len() == 2 && case.state().partitions() == 2,
        Err(_) => false,
    }
}

#[test]
fn states_pass_through_their_steps(rt: HostRuntime) -> Result<(), Fail> {
    assert!(rt; states_pass(rt.alloc()));
    Ok(())
}

/// Two places come and one goes: the epoch, the key that was freed, and how many places are listed.
fn shelf_row(alloc: Global, fields: &Registry) -> Result<(u64, Option<usize>, usize), NoMemory> {
    let mut shelf = Shelf::new(alloc, 0, 2, 2)?;
    shelf.allocate(Place { block: 0, field: 0 }, 7)?;
    shelf.allocate(Place { block: 1, field: 1 }, 8)?;
    let freed = shelf.release(Place { block: 0, field: 0 });
    let none = shelf.release(Place { block: 0, field: 1 });
    if none.is_some() || fields.count() != 2 {
        return Ok((0, None, 0));
    }
    let listed = shelf.listed(PackKind::All, fields)?;
    Ok((shelf.epoch(), freed, listed.len()))
}

fn shelves_pass(alloc: Global) -> bool {
    let Some(problem) = problem(alloc) else {
        return false;
    };
    match shelf_row(alloc, &problem.fields) {
        Ok((epoch, freed, listed)) => epoch == 3 && freed == Some(7) && listed == 1,
        Err(_) => false,
    }
}

#[test]
fn a_shelf_counts_what_comes_and_goes(rt: HostRuntime) -> Result<(), Fail> {
    assert!(rt; shelves_pass(rt.alloc()));
    Ok(())
}

/// Two blocks hold a field, then one.
fn mask_counts(alloc: Global) -> Option<(u64, u64)> {
    let mut mask = Mask::new(alloc, 2, 1).ok()?;
    mask.insert(Place { block: 0, field: 0 });
    mask.insert(Place { block: 1, field: 0 });
    let both = mask.count(0);
    mask.remove(Place { block: 1, field: 0 });
    Some((both, mask.count(0)))
}

#[test]
fn a_mask_counts_blocks(rt: HostRuntime) -> Result<(), Fail> {
    assert!(rt; mask_counts(rt.alloc()) == Some((2, 1)));
    Ok(())
}

/// Whether a pack is found under its partition, kind and epoch alone, and not once it is stale.
fn notes_pass(alloc: Global) -> bool {
    let Ok(mut notes) = PackNotes::new(alloc, 1) else {
        return false;
    };
    notes.note(Pack {
        partition: 0,
        kind: PackKind::Ghost,
        epoch: 3,
        places: Places::new(alloc),
    });
    let found = notes.lookup(0, PackKind::Ghost, 3).is_some();
    let other = notes.lookup(0, PackKind::All, 3).is_some()
        || notes.lookup(0, PackKind::Ghost, 2).is_some();
    notes.drop_stale(0, 4);
    found && !other && notes.lookup(0, PackKind::Ghost, 3).is_none()
}

#[test]
fn notes_find_a_pack_at_its_epoch(rt: HostRuntime) -> Result<(), Fail> {
    assert!(rt; notes_pass(rt.alloc()));
    Ok(())
}

/// What a list of two tasks answers where a third is to run after one that is not in it.
fn third_after(alloc: Global, number: u32) -> Option<TaskFault> {
    let mut list = TaskList::new(alloc);
    let first = list.add(TaskKind::Send, 0, &[]).ok()?;
    list.add(TaskKind::Fill, 0, &[first]).ok()?;
    list.add(TaskKind::Fluxes, 0, &[TaskId { number }]).err()
}

#[test]
fn a_task_after_none_is_refused(rt: HostRuntime) -> Result<(), Fail> {
    let alloc = rt.alloc();
    assert!(rt; matches!(third_after(alloc, 5), Some(TaskFault::Unknown { id: 5 })));
    assert!(rt; third_after(alloc, 1).is_none());
    Ok(())
}
