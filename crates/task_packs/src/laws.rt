//! Laws of packs and notes.

ghost use Rattle.task_packs.specs.Laws.{KindsAreTold, NotedPacksList, NotesStay, TasksHavePacks};

/// What is noted for a task of a list has its places, and notes that hold go on to hold.
pub fn note_law<X, V, G, F, P, W>()
    ensures places { NotedPacksList X V G F P W }
    ensures stay { NotesStay X V G F P W }
{}

/// The pack of a task is the one that is noted, or else a new one, of the kind of its task.
pub fn pack_law<X, V, G, F, P, W>()
    ensures kind { KindsAreTold X V G F P W }
    ensures pack { TasksHavePacks X V G F P W }
{}
