use indexmap::IndexMap;
use std::hash::{BuildHasherDefault, DefaultHasher};

/// A map from texts, in the order in which they came. It hashes by SipHash, since many texts that another hasher puts
/// into one place are easily made, and a deck of such keys would take a time that grows with the square of its length.
pub(crate) type TextMap<V> = IndexMap<String, V, BuildHasherDefault<DefaultHasher>>;
