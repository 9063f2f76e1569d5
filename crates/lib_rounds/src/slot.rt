//! What is kept of an input.
ghost use Rattle.std.specs.Prelude.{◌≡◌, Bool, Ok, option_copied, option_map, IfSome};
ghost use Rattle.object_file.specs.ObjectOf.{object_of};
ghost use Rattle.lib_rounds.specs.Held.{absent, holding, is_loaded_slot, is_waiting_slot, object_held, loaded_in, as_loaded};

use crate::early::Early;
use object_file::Object;
use std::marker::Model;
use wl_base::InputId;

/// The object of an input, where it is read, and whether the input is loaded. What is read early isn't
/// told of.
#[derive(Drop)]
pub struct Slot<'a> {
    object: Option<Box<Object>>,
    loaded: bool,
    early: Option<Early<'a>>,
}

impl<'a> Model for Slot<'a> {
    ghost use Rattle.lib_rounds.specs.Held.{Held, held_seen};

    ghost Value = { Held };

    ghost view = { λ s. held_seen s.loaded s.object };
}

impl<'a> Slot<'a> {
    /// The slot of an input that isn't read.
    pub fn absent() -> Slot<'a>
        ensures { result ≡ absent }
    {
        Slot {
            object: None,
            loaded: false,
            early: None,
        }
    }

    /// The slot of an input that is read.
    pub fn holding(object: Box<Object>, loaded: bool) -> Slot<'a>
        ensures { result ≡ holding loaded object.value }
    {
        Slot {
            object: Some(object),
            loaded,
            early: None,
        }
    }

    /// Keeps the input as it was read early.
    pub fn expect(&mut self, early: Early<'a>)
        ensures { self.new ≡ self.old }
    {
        self.early = Some(early);
    }

    /// The object that these bytes are as this input, where it was read early. It isn't kept.
    pub fn take_early(&mut self, input: InputId, bytes: &[u8]) -> Option<Box<Object>>
        ensures same { self.new ≡ self.old }
        ensures is { IfSome result (λ o. object_of input bytes.now ≡ Ok o.value) }
    {
        let early = self.early.take()?;
        early.object_of(input, bytes)
    }

    /// Whether the input is loaded.
    pub fn is_loaded(&self) -> bool
        ensures { result ≡ is_loaded_slot self.now }
    {
        self.object.is_some() && self.loaded
    }

    /// Whether the input is read and not loaded.
    pub fn is_waiting(&self) -> bool
        ensures { result ≡ is_waiting_slot self.now }
    {
        self.object.is_some() && !self.loaded
    }

    /// The object, where it is read.
    pub fn object(&self) -> Option<&Object>
        ensures { option_copied result ≡ object_held self.now }
    {
        match &self.object {
            Some(object) => Some(object),
            None => None,
        }
    }

    /// The object, where the input is loaded.
    pub fn loaded(&self) -> Option<&Object>
        ensures { option_copied result ≡ loaded_in self.now }
    {
        match &self.object {
            Some(object) if self.loaded => Some(object),
            _ => None,
        }
    }

    /// Loads the input, if it is read.
    pub fn load(&mut self)
        ensures { self.new ≡ as_loaded self.old }
    {
        self.loaded = true;
    }

    /// The object, where the input is loaded.
    pub fn into_loaded(self) -> Option<Box<Object>>
        ensures { option_map (λ o. o.value) result ≡ loaded_in self.entry }
    {
        let Slot { object, loaded, .. } = self;
        match object {
            Some(object) if loaded => Some(object),
            _ => None,
        }
    }
}
