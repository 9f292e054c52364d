ghost use Rattle.std.specs.Prelude.{◌≡◌};
ghost use Rattle.mesh_settings.specs.Words.{mode_named, face_kind_named, method_named};

use package_fields::Items;

/// How a mesh is refined.
#[derive(Clone, Copy, Debug, PartialEq, Eq)]
pub enum Mode {
    /// Not at all.
    Plain,
    /// As the static boxes say, once and for all.
    Fixed,
    /// As the criteria say, while the run goes on.
    Adaptive,
}

impl Mode {
    /// The mode with this name.
    pub fn named(name: &str) -> Option<Mode>
        ensures { result ≡ mode_named name.now }
    {
        match name {
            "none" => Some(Mode::Plain),
            "static" => Some(Mode::Fixed),
            "adaptive" => Some(Mode::Adaptive),
            _ => None,
        }
    }
}

/// What happens at a face of the domain.
#[derive(Clone, Copy, Debug, PartialEq, Eq)]
pub enum FaceKind {
    /// The axis wraps round.
    Periodic,
    /// What goes out is gone, and nothing comes in.
    Outflow,
    /// Nothing passes.
    Reflecting,
    /// What goes out is gone, and a set amount stands outside.
    Inflow,
}

impl FaceKind {
    /// The kind of face with this name.
    pub fn named(name: &str) -> Option<FaceKind>
        ensures { result ≡ face_kind_named name.now }
    {
        match name {
            "periodic" => Some(FaceKind::Periodic),
            "outflow" => Some(FaceKind::Outflow),
            "reflecting" => Some(FaceKind::Reflecting),
            "inflow" => Some(FaceKind::Inflow),
            _ => None,
        }
    }
}

impl FaceKind {
    ghost use Rattle.mesh_settings.specs.Mesh.{is_periodic, is_inflow};

    /// Whether the axis wraps round at the face.
    pub fn is_periodic(self) -> bool
        ensures { result ≡ is_periodic self }
    {
        matches!(self, FaceKind::Periodic)
    }

    /// Whether a set amount stands outside of the face.
    pub fn is_inflow(self) -> bool
        ensures { result ≡ is_inflow self }
    {
        matches!(self, FaceKind::Inflow)
    }
}

/// Kinds of faces in order: the low and the high face of x1, of x2 and of x3.
pub type Faces = Items<FaceKind>;

/// How a criterion measures a block.
#[derive(Clone, Copy, Debug, PartialEq, Eq)]
pub enum Method {
    /// By its greatest weight.
    Peak,
    /// By the greatest difference of the weights of two cells that share a face.
    Jump,
}

impl Method {
    /// The method with this name.
    pub fn named(name: &str) -> Option<Method>
        ensures { result ≡ method_named name.now }
    {
        match name {
            "peak" => Some(Method::Peak),
            "jump" => Some(Method::Jump),
            _ => None,
        }
    }
}
