ghost use Rattle.std.specs.Prelude.{◌≡◌};
ghost use Rattle.mesh_input.specs.Fault.{stop_of_deck, stop_of_override, stop_of_problem, stop_of_reading};

use input_file::DeckFault;
use mesh_outside::OutFault;
use problem_set::ProblemFault;

/// Why an input is refused: the first fault.
#[derive(Debug, Drop)]
pub enum Refusal {
    /// The bytes of the file are no deck.
    Deck { fault: DeckFault },
    /// The override of this number, counted from 1, is no override.
    Override { number: usize },
    /// The deck gives no problem.
    Problem { fault: ProblemFault },
    /// The problem is one that the program does not run yet.
    NotBuilt,
}

/// Why there is no input.
#[derive(Debug, Drop)]
pub enum InputFault {
    /// It is refused.
    Refused { refusal: Refusal },
    /// The file could not be read.
    ReadFault,
    /// No memory was left.
    NoMemory,
}

/// What a fault of the bytes comes to.
pub(crate) fn stop_of_deck(fault: DeckFault) -> InputFault
    ensures { result ≡ stop_of_deck fault }
{
    match fault {
        DeckFault::NoMemory => InputFault::NoMemory,
        fault => InputFault::Refused {
            refusal: Refusal::Deck { fault },
        },
    }
}

/// What a fault of the override of this number comes to.
pub(crate) fn stop_of_override(number: usize, fault: DeckFault) -> InputFault
    ensures { result ≡ stop_of_override number fault }
{
    match fault {
        DeckFault::NoMemory => InputFault::NoMemory,
        _ => InputFault::Refused {
            refusal: Refusal::Override { number },
        },
    }
}

/// What a fault of the problem comes to.
pub(crate) fn stop_of_problem(fault: ProblemFault) -> InputFault
    ensures { result ≡ stop_of_problem fault }
{
    match fault {
        ProblemFault::NoMemory => InputFault::NoMemory,
        fault => InputFault::Refused {
            refusal: Refusal::Problem { fault },
        },
    }
}

/// What a fault of reading comes to.
pub(crate) fn stop_of_reading(fault: OutFault) -> InputFault
    ensures { result ≡ stop_of_reading fault }
{
    match fault {
        OutFault::Failed => InputFault::ReadFault,
        OutFault::NoMemory => InputFault::NoMemory,
    }
}
