ghost use Rattle.std.specs.Prelude.{◌≡◌, ◌≤◌, ◌<◌, length, slice_get, Some};
ghost use Rattle.std.proofs.Props.{props};
ghost use Rattle.mesh_settings.specs.Sound.{IsSize, IsRefining, IsFaces, IsGrid, IsStepping};
ghost use Rattle.problem_set.specs.SoundProblem.{AreFields, AreEntries, HaveFittingRates, HasBound};

use crate::rates::{Rates, rates_of};
use deck_entries::{Criterion, Moves, Reaction, StartBox, StaticAt};
use mesh_settings::{Faces, Mode};
use morton_order::Shape;
use package_fields::{Flag, Items, Registry};

/// What a run is of: the mesh, the fields, and how they are advanced.
///
/// Lists by axis are in the order x1, x2, x3, those by face in the order of the low and the high face
/// of x1, of x2 and of x3. Fields are named by their numbers in the registry.
#[derive(Drop)]
pub struct Problem {
    /// The lattice of root blocks.
    pub shape: Shape,
    /// The root cells of the mesh along each axis.
    pub size: [u32; 3],
    /// The cells of a block along each axis.
    pub cells: [u32; 3],
    /// Whether the mesh is refined, and when.
    pub mode: Mode,
    /// How many levels there are, which is 1 where nothing is refined.
    pub levels: u32,
    /// For how many tags in a row a leaf must ask to be merged.
    pub derefine_count: u32,
    /// The leaves of a partition, or None where all leaves are in one.
    pub pack_size: Option<u32>,
    /// What each face of the domain does.
    pub faces: Faces,
    /// The cycles of the run.
    pub nlim: u32,
    /// A total above this has a sparse field stored on a block.
    pub alloc_threshold: u64,
    /// A sparse field with no total above this is idle on a block.
    pub dealloc_threshold: u64,
    /// After how many idle checks in a row a sparse field is freed.
    pub dealloc_count: u32,
    /// The denominator of all rates.
    pub denominator: u64,
    /// The stages of a cycle.
    pub nstages: u32,
    /// Remeshing follows each cycle whose number is a multiple of this.
    pub refine_every: u32,
    /// A dump follows each cycle whose number is a multiple of this.
    pub dump_every: u32,
    /// All fields, by number.
    pub fields: Registry,
    /// How each field moves, by its number.
    pub moves: Items<Moves>,
    /// The parts of the mesh that are refined from the start, in deck order.
    pub statics: Items<StaticAt>,
    /// What the cells hold at the start, in deck order.
    pub boxes: Items<StartBox>,
    /// The reactions in the order in which they are applied.
    pub reactions: Items<Reaction>,
    /// What the leaves are measured by where the mesh is adaptive, in deck order.
    pub criteria: Items<Criterion>,
    pub ghost size_sound: { IsSize size },
    pub ghost refining_sound: { IsRefining (record { mode = mode; levels = levels; derefine_count = derefine_count; pack_size = pack_size }) },
    pub ghost faces_sound: { IsFaces faces },
    pub ghost grid_sound: { IsGrid size cells shape },
    pub ghost stepping_sound: { IsStepping (record { nlim = nlim; sparsity = record { alloc_threshold = alloc_threshold; dealloc_threshold = dealloc_threshold; dealloc_count = dealloc_count }; cycle = record { denominator = denominator; nstages = nstages; refine_every = refine_every; dump_every = dump_every } }) },
    pub ghost fields_sound: { AreFields fields moves } by { Prim.hlevel props },
    pub ghost entries_sound: { AreEntries size levels (length moves) statics boxes reactions criteria },
    pub ghost rates_fit: { HaveFittingRates shape.dims levels denominator fields.fields moves },
    pub ghost totals_fit: { HasBound shape.dims size faces nlim nstages fields.fields moves boxes },
}

impl Problem {
    ghost use Rattle.package_fields.specs.declared.field.Field.{Field};
    ghost use Rattle.problem_set.specs.Rates.{right_rate, left_rate};

    /// The rates of a field along an axis at a level.
    pub fn rates(&self, field: u32, axis: u32, level: u32) -> Rates
        requires field { field < length self.now.moves }
        requires axis { axis < 3 }
        requires level { level ≤ 10 }
        ensures right { (f : Field) (m : Moves) → slice_get self.now.fields.fields field ≡ Some f
            → slice_get self.now.moves field ≡ Some m → result.right ≡ right_rate f m axis level }
        ensures left { (f : Field) (m : Moves) → slice_get self.now.fields.fields field ≡ Some f
            → slice_get self.now.moves field ≡ Some m → result.left ≡ left_rate f m axis level }
    {
        let moves = self.moves.as_slice()[field as usize];
        if self.fields.has(field, Flag::WithFluxes) {
            rates_of(&moves, axis, level)
        } else {
            Rates { right: 0, left: 0 }
        }
    }
}
