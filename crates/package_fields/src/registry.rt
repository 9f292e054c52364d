ghost use Rattle.std.specs.Prelude.{◌≡◌, ◌<◌, ◌≤◌, ◌++◌, [], None, Some, length, slice_get, map, position, Err, IfSome};
ghost use Rattle.std.specs.Prelude.{IsOk, OnOk, OnErr};
ghost use Rattle.std.specs.Str.{bytes_eq};
ghost use Rattle.package_fields.specs.Flags.{has};
ghost use Rattle.package_fields.specs.Fields.{Registered, IsSound, labels, is_among, has_label};
ghost use Rattle.package_fields.specs.Registered.{Fails, field_fault, fields_fault, package_fault, with_package};

use crate::fault::FieldFault;
use crate::field::{Field, Package};
use crate::flag::{Flag, has_flag, is_permitted};
use crate::name::Name;
use std::alloc::Global;
use std::marker::Model;

/// The packages that were added, and their fields, numbered from 0 in the order of adding.
#[derive(Debug, Drop)]
pub struct Registry {
    alloc: Global,
    packages: Vec<Name>,
    fields: Vec<Field>,
}

impl Model for Registry {
    ghost use Rattle.std.specs.Prelude.{◌≤◌, length};
    ghost use Rattle.std.specs.Str.{bytes_eq};
    ghost use Rattle.package_fields.specs.Fields.{Registered, labels, IsSound};

    ghost Value = { Registered };

    ghost view = { λ r. record { packages = r.packages.items; fields = r.fields.items } };

    ghost invariant = { λ r. IsSound r.packages.items r.fields.items };
}

impl Registry {
    /// A registry with no package.
    pub fn new(alloc: Global) -> Registry
        ensures empty { (result.packages ≡ []) × (result.fields ≡ []) }
    {
        Registry {
            alloc,
            packages: Vec::new(alloc),
            fields: Vec::new(alloc),
        }
    }

    /// How many fields there are.
    pub fn count(&self) -> u32
        ensures number { result ≡ length self.now.fields }
        ensures sound { IsSound self.now.packages self.now.fields }
    {
        self.fields.len() as u32
    }

    /// The fields in the order of their numbers.
    pub fn fields(&self) -> &[Field]
        ensures { result.now ≡ self.now.fields }
    {
        self.fields.as_slice()
    }

    /// The label of a field.
    pub fn label(&self, i: u32) -> &str
        requires { i < length self.now.fields }
        ensures { slice_get (labels self.now.fields) i ≡ Some result.now }
    {
        self.fields[i as usize].label.as_str()
    }

    /// Whether a field has a flag.
    pub fn has(&self, i: u32, flag: Flag) -> bool
        requires { i < length self.now.fields }
        ensures { slice_get (map (λ f. has flag f.flags) self.now.fields) i ≡ Some result }
    {
        has_flag(self.fields[i as usize].flags.as_slice(), flag)
    }

    /// The number of the field with a label, or None where no field has it.
    pub fn find(&self, label: &str) -> Option<u32>
        ensures { result ≡ position (λ f. bytes_eq label.now f.label) self.now.fields }
    {
        match place_of(self.fields.as_slice(), label) {
            None => None,
            Some(i) => Some(i as u32),
        }
    }

    /// Whether a package with this name was added.
    pub fn has_package(&self, name: &str) -> bool
        ensures { result ≡ is_among self.now.packages name.now }
    {
        has_name(self.packages.as_slice(), name)
    }

    /// Adds a package at the end. Its name is tested first, then field by field the flags, the label
    /// and the count. After a refusal the registry is as before.
    pub fn add(&mut self, declared: Package) -> Result<(), FieldFault>
        ensures refused { Fails (package_fault self.old declared) result }
        ensures too_many { package_fault self.old declared ≡ Some (FieldFault.TooMany 257)
            → result ≡ Err (FieldFault.TooMany 257) }
        ensures added { OnOk result (self.new ≡ with_package self.old declared) }
        ensures unchanged { OnErr result (self.new ≡ self.old) }
    {
        check_package(
            self.alloc,
            self.packages.as_slice(),
            self.fields.as_slice(),
            &declared,
        )?;
        self.packages.reserve(1)?;
        let Package { name, fields } = declared;
        let mut fields = fields.into_vec();
        self.fields.append(&mut fields)?;
        self.packages.push(name).unwrap();
        Ok(())
    }
}

/// Whether a package may be added after these packages and fields.
fn check_package(
    alloc: Global,
    packages: &[Name],
    before: &[Field],
    declared: &Package,
) -> Result<(), FieldFault>
    requires { length before.now ≤ 256 }
    ensures refused { Fails (package_fault (record {
      packages = packages.now;
      fields =
          before.now;
    }) declared.now) result }
    ensures too_many { package_fault (record {
      packages = packages.now;
      fields =
          before.now;
    }) declared.now ≡ Some (FieldFault.TooMany 257) → result ≡ Err (FieldFault.TooMany 257) }
{
    if has_name(packages, declared.name.as_str()) {
        let name = Name::copy_of(alloc, declared.name.as_str())?;
        return Err(FieldFault::Twice { name });
    }
    check_fields(alloc, before, declared.fields.as_slice())
}

/// Whether fields may follow these fields.
fn check_fields(alloc: Global, before: &[Field], fields: &[Field]) -> Result<(), FieldFault>
    requires { length before.now ≤ 256 }
    ensures refused { Fails (fields_fault before.now fields.now) result }
    ensures too_many { fields_fault before.now fields.now ≡ Some (FieldFault.TooMany 257)
        → result ≡ Err (FieldFault.TooMany 257) }
{
    for i in 0..fields.len() {
        check_field(alloc, before, &fields[..i], &fields[i])?;
    }
    Ok(())
}

/// Whether a field may follow the fields `before` and then `new`.
fn check_field(
    alloc: Global,
    before: &[Field],
    new: &[Field],
    field: &Field,
) -> Result<(), FieldFault>
    requires { length before.now ≤ 256 }
    ensures refused { Fails (field_fault (before.now ++ new.now) field.now) result }
    ensures fine { field_fault (before.now ++ new.now) field.now ≡ None → IsOk result }
    ensures too_many { field_fault (before.now ++ new.now) field.now ≡ Some (FieldFault.TooMany 257)
        → result ≡ Err (FieldFault.TooMany 257) }
{
    if !is_permitted(field.flags.as_slice()) {
        let name = Name::copy_of(alloc, field.base.as_str())?;
        return Err(FieldFault::BadFlags { name });
    }
    let label = field.label.as_str();
    if has_label(before, label) || has_label(new, label) {
        let name = Name::copy_of(alloc, label)?;
        return Err(FieldFault::Twice { name });
    }
    if new.len() >= 256 - before.len() {
        return Err(FieldFault::TooMany { count: 257 });
    }
    Ok(())
}

/// Whether a name is among some names.
fn has_name(names: &[Name], name: &str) -> bool
    ensures { result ≡ is_among names.now name.now }
{
    names.iter().any(|other| other.is(name))
}

/// Whether a label is among those of some fields.
fn has_label(fields: &[Field], label: &str) -> bool
    ensures { result ≡ has_label fields.now label.now }
{
    fields.iter().any(|field| field.label.is(label))
}

/// The place of the first field with a label.
fn place_of(fields: &[Field], label: &str) -> Option<usize>
    ensures place { result ≡ position (λ f. bytes_eq label.now f.label) fields.now }
    ensures within { IfSome result (λ i. i < length fields.now) }
{
    fields.iter().position(|field| field.label.is(label))
}
