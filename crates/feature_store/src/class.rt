ghost use Rattle.std.specs.Prelude.{◌≡◌, ◌≤◌, length, bytes_eq, IsTrue, IfOk};
ghost use Rattle.text_terms.specs.Fields.{is_name};
ghost use Rattle.topology_terms.specs.Feature as terms;
ghost use Rattle.topology_terms.specs.Lookups.{number_from};

use grid_plane::{Name, NoMemory};
use shape::Kind;
use std::alloc::Global;
use std::marker::Model;

/// A class: its name, and the kind of its shapes.
#[derive(Drop)]
pub struct Class {
    name: Name,
    kind: Kind,
}

impl Model for Class {
    ghost use Rattle.topology_terms.specs.Feature as terms;

    ghost Value = { terms.Class };

    ghost view = { λ c. record { name = c.name; kind = c.kind } };
}

impl Class {
    pub fn new(name: Name, kind: Kind) -> Class
        ensures { result ≡ record { name = name; kind = kind } }
    {
        Class { name, kind }
    }

    pub fn name(&self) -> &Name
        ensures { result.now ≡ self.now.name }
    {
        &self.name
    }

    pub fn kind(&self) -> Kind
        ensures { result ≡ self.now.kind }
    {
        self.kind
    }

    pub fn is_named(&self, name: &Name) -> bool
        ensures { result ≡ bytes_eq self.now.name name.now }
    {
        self.name.bytes() == name.bytes()
    }

    pub fn copy(&self) -> Class
        ensures { result ≡ self.now }
    {
        Class {
            name: copy_name(&self.name),
            kind: self.kind,
        }
    }
}

fn copy_name(name: &Name) -> Name
    ensures { result ≡ name.now }
{
    Name::of(name.bytes()).unwrap()
}

/// The number, from 1, of the first class of this name.
pub fn class_number(classes: &[Class], name: &Name) -> Option<u16>
    requires { length classes.now ≤ 64 }
    ensures { result ≡ number_from 1 classes.now name.now }
{
    let mut number = 1;
    for class in classes {
        if class.is_named(name) {
            return Some(number);
        }
        number += 1;
    }
    None
}

/// The same classes once more.
pub fn copy_classes(alloc: Global, classes: &[Class]) -> Result<Vec<Class>, NoMemory>
    ensures { IfOk result (λ v. v.items ≡ classes.now) }
{
    let mut copy = Vec::new(alloc);
    for class in classes {
        copy.push(class.copy())?;
    }
    Ok(copy)
}
