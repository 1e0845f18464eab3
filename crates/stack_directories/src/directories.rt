//! A machine's list of directories.

ghost use Rattle.std.specs.Prelude.{◌≡◌, ◌<◌, length, Some, None, IfOk, OnOk, OnErr, MatchOption, option_map, unwrap_or, slice_get};
ghost use Rattle.model_machine.specs.Directories.{first_directories, default_layer, with_object, object_at};

use directory_types::Layer;
use key_bytes::Bytes;
use model_machine::Object;
use std::alloc::{AllocError, Global};
use std::marker::Model;

/// A machine's list of directories, the index of the current one, and the index that is taken in place of that of a null
/// object. Contracts see the list of the definitions.
#[derive(Debug, Drop)]
pub struct Directories {
    objects: Vec<Object>,
    index: usize,
    error_index: usize,
}

impl Model for Directories {
    ghost use Rattle.model_machine.specs.Directories.{Directories as DirectoriesSaid};

    ghost Value = { DirectoriesSaid };

    ghost use Rattle.model_machine.specs.contracts.directories.Object as object;
    ghost use Rattle.std.specs.Coded.{codes};

    ghost coded = { Prim.hlevel (codes, object.the_row.coded) };

    ghost view = { λ directories. record {
      objects = directories.objects.items;
      index = directories.index;
      error_index = directories.error_index;
    } };
}

impl Directories {
    /// Makes a machine's list at its start: the default layer alone, which is the current object. It is refused
    /// for want of memory alone.
    pub fn new(alloc: Global) -> Result<Directories, AllocError>
        ensures { IfOk result (λ directories. directories ≡ first_directories) }
    {
        let mut objects = Vec::new(alloc);
        objects.push(Object::Layer(default_layer(alloc)?))?;
        Ok(Directories {
            objects,
            index: 0,
            error_index: 0,
        })
    }

    /// Appends an object. After a refusal the list is unchanged.
    pub fn append(&mut self, object: Object) -> Result<(), AllocError>
        ensures ok { OnOk result (self.new ≡ with_object self.old object) }
        ensures err { OnErr result (self.new ≡ self.old) }
    {
        self.objects.push(object)?;
        Ok(())
    }

    /// Makes the object of this index the current one.
    pub fn choose(&mut self, index: usize)
        ensures { self.new ≡ record self.old { index = index } }
    {
        self.index = index;
    }

    /// Sets the error index: the one that is taken from now on in place of that of a null object.
    pub fn fall_to(&mut self, index: usize)
        ensures { self.new ≡ record self.old { error_index = index } }
    {
        self.error_index = index;
    }

    /// Returns the index of the current object.
    pub fn index(&self) -> usize
        ensures { result ≡ self.now.index }
    {
        self.index
    }

    /// Returns the index that is taken in place of that of a null object.
    pub fn error_index(&self) -> usize
        ensures { result ≡ self.now.error_index }
    {
        self.error_index
    }

    /// Returns the current object, or this one where the list has none of its index.
    pub fn current_or<'a>(&'a self, other: &'a Object) -> &'a Object
        ensures { result.now ≡ unwrap_or (slice_get self.now.objects self.now.index) other.now }
    {
        match self.objects.get(self.index) {
            Some(object) => object,
            None => other,
        }
    }

    /// Returns the object of an index.
    pub fn at(&self, index: usize) -> &Object
        requires { index < length self.now.objects }
        ensures { slice_get self.now.objects index ≡ Some result.now }
    {
        &self.objects[index]
    }

    /// Returns the index that a number from 0 upward is, where the list has an object of it.
    pub fn index_in(&self, number: u128) -> Option<usize>
        ensures { MatchOption result (slice_get self.now.objects number ≡ None)
            (λ index. (index ≡ number) × (index < length self.now.objects)) }
    {
        if number < self.objects.len() as u128 {
            Some(number as usize)
        } else {
            None
        }
    }

    /// Returns the object of the index that an integer is, where the list has one.
    pub fn object_at(&self, number: i128) -> Option<&Object>
        ensures { option_map (λ object. object.now) result ≡ object_at self.now.objects number }
    {
        if number.is_negative() {
            return None;
        }
        let index = self.index_in(number.unsigned_abs())?;
        Some(self.at(index))
    }
}

// The layer whose nodes stand behind the byte FE and whose contents stand anywhere.
fn default_layer(alloc: Global) -> Result<Layer, AllocError>
    ensures { IfOk result (λ layer. layer ≡ default_layer) }
{
    Ok(Layer {
        node: Bytes::from_slice(alloc, &[0xFE])?,
        content: Bytes::new(alloc),
        manual: false,
    })
}
