//! The two forms of a generated deck.

ghost use Rattle.std.specs.Prelude.{◌≡◌, ◌≤◌, IsTrue};
ghost use Rattle.input_file.specs.Texts.{is_value};
ghost use Rattle.deck_generator.specs.Forms.{form_of, refinement_word};

/// What tells the small and the large form of a generated deck apart.
#[derive(Clone, Copy)]
pub struct Form {
    /// The root cells of the mesh along x1 and along x2.
    pub cells: u32,
    /// Whether the mesh adapts.
    pub adaptive: bool,
    /// How many levels there are.
    pub levels: u32,
    /// The leaves of a partition.
    pub pack_size: u32,
    /// The cells of a block along x1 and along x2.
    pub block_cells: u32,
    /// The cycles of the run.
    pub cycles: u32,
    /// The fields of the pool.
    pub fields: u32,
}

/// The form of a generated deck, by whether it is the large one.
pub fn form_of(large: bool) -> Form
    ensures value { result ≡ form_of large }
    ensures wide { 32 ≤ result.cells }
    ensures most { result.cells ≤ 2048 }
    ensures fields { result.fields ≤ 256 }
{
    if large {
        Form {
            cells: 2048,
            adaptive: false,
            levels: 1,
            pack_size: 16,
            block_cells: 16,
            cycles: 4,
            fields: 256,
        }
    } else {
        Form {
            cells: 32,
            adaptive: true,
            levels: 2,
            pack_size: 3,
            block_cells: 8,
            cycles: 12,
            fields: 8,
        }
    }
}

/// How the mesh is refined.
pub fn refinement_word(adaptive: bool) -> &'static str
    ensures value { result.now ≡ refinement_word adaptive }
    ensures formed { IsTrue (is_value result.now) }
{
    if adaptive { "adaptive" } else { "none" }
}
