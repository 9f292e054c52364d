//! Laws of remaps.

ghost use Rattle.remesh.specs.Remaps.{SoundStatesRemap};

/// A mesh state that stands for a state with a sound mesh and mask can go over to each near tree.
pub fn remap_laws()
    ensures { SoundStatesRemap }
{}
