ghost use Rattle.std.specs.Prelude.{◌≡◌, count_by};
ghost use Rattle.package_fields.specs.Flags.{same_flag, has, none_twice, permitted};

use item_lists::Items;

/// What a field is marked with.
#[derive(Clone, Copy, Debug, PartialEq, Eq)]
pub enum Flag {
    /// A total in each cell.
    Cell,
    /// Advanced from cycle to cycle.
    Independent,
    /// Computed anew from other fields.
    Derived,
    /// Kept once, and not advanced.
    OneCopy,
    /// Its ghost zones are filled from the neighbours.
    FillGhost,
    /// It passes through faces.
    WithFluxes,
    /// It is allocated only where it is needed.
    Sparse,
}

/// Flags in the order in which they were given.
pub type Flags = Items<Flag>;

impl Flag {
    /// Whether both are the same flag.
    pub fn is(self, other: Flag) -> bool
        ensures { result ≡ same_flag self other }
    {
        self == other
    }
}

/// Whether a flag is given.
pub fn has_flag(flags: &[Flag], flag: Flag) -> bool
    ensures { result ≡ has flag flags.now }
{
    flags.iter().any(|f| f.is(flag))
}

/// How often a flag is given.
fn times(flags: &[Flag], flag: Flag) -> usize
    ensures { result ≡ count_by (λ f. same_flag f flag) flags.now }
{
    flags.iter().filter(|f| f.is(flag)).count()
}

/// Whether no flag is given twice.
fn none_twice(flags: &[Flag]) -> bool
    ensures { result ≡ none_twice flags.now }
{
    flags.iter().all(|f| times(flags, *f) == 1)
}

/// Whether a field may have these flags together: none twice, `Cell`, exactly one of `Independent`
/// and `OneCopy`, not `Derived`, and `WithFluxes` only beside `Independent` and `FillGhost`.
pub fn is_permitted(flags: &[Flag]) -> bool
    ensures { result ≡ permitted flags.now }
{
    none_twice(flags)
        && has_flag(flags, Flag::Cell)
        && has_flag(flags, Flag::Independent) != has_flag(flags, Flag::OneCopy)
        && !has_flag(flags, Flag::Derived)
        && (!has_flag(flags, Flag::WithFluxes)
            || (has_flag(flags, Flag::Independent) && has_flag(flags, Flag::FillGhost)))
}
