//! Kinds of letters.

ghost use Rattle.std.specs.Prelude.{◌≡◌};
ghost use Rattle.task_meshes.specs.Kinds.{is_flux as flux_of};

/// What the letters of a round bring.
#[derive(Clone, Copy, Debug, PartialEq, Eq)]
pub enum LetterKind {
    /// Cells for ghosts, to each leaf behind a side.
    Ghosts,
    /// Sums of what passes faces, to the coarser leaf behind a side.
    Fluxes,
}

impl LetterKind {
    /// Whether letters of the kind hold sums of what passes faces.
    pub fn is_flux(self) -> bool
        ensures { result ≡ flux_of self }
    {
        match self {
            LetterKind::Ghosts => false,
            LetterKind::Fluxes => true,
        }
    }
}
