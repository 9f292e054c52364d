use crate::flag::Flags;
use crate::name::Name;
use item_lists::Items;

/// A field of a package: a total in each cell of each block.
#[derive(Debug, Drop)]
pub struct Field {
    /// The field's own label.
    pub label: Name,
    /// What the label begins with: the name of the pool of a sparse field, else the label itself.
    pub base: Name,
    /// The number of the field in its sparse pool.
    pub id: Option<u32>,
    pub flags: Flags,
}

/// Fields in order.
pub type Fields = Items<Field>;

/// A name and the fields that are declared under it.
#[derive(Debug, Drop)]
pub struct Package {
    pub name: Name,
    pub fields: Fields,
}
