//! Members that are read before a round asks for them.
ghost use Rattle.std.specs.Prelude.{◌≡◌, IfSome, Ok, Some};
ghost use Rattle.std.specs.Global.{Box};
ghost use Rattle.object_file.specs.ObjectOf.{object_of};
ghost use Rattle.object_file.specs.declared.object.Object.{Object as Read};

use crate::table::count_defined;
use object_file::{Object, read_object};
use std::alloc::Global;
use wl_base::InputId;

/// A library's member, and its object where it is read. It speaks for no bytes but these.
#[derive(Drop)]
pub struct Early<'a> {
    input: InputId,
    bytes: &'a [u8],
    object: Option<Box<Object>>,
    /// How many names the object defines.
    defined: u32,
    ghost is: { (o : Box Read) → object ≡ Some o → object_of input bytes.now ≡ Ok o.value },
}

impl<'a> Early<'a> {
    /// A member that isn't read.
    pub fn unread(input: InputId, bytes: &'a [u8]) -> Early<'a> {
        Early {
            input,
            bytes,
            object: None,
            defined: 0,
        }
    }

    /// Which input the member is.
    pub fn input(&self) -> InputId {
        self.input
    }

    /// The member's bytes.
    pub fn bytes(&self) -> &'a [u8] {
        self.bytes
    }

    /// How many names the object defines, where it is read.
    pub fn defined(&self) -> u32 {
        self.defined
    }

    /// Reads the member. Where that fails it is left, and read when a round asks for it.
    pub fn read(&mut self, alloc: Global) {
        let Ok(object) = read_object(alloc, self.input, self.bytes) else {
            return;
        };
        let defined = count_defined(&object);
        if let Ok(object) = Box::new(alloc, object) {
            *self = Early {
                input: self.input,
                bytes: self.bytes,
                object: Some(object),
                defined,
            };
        }
    }

    /// The object that these bytes are as this input, where it is read.
    pub fn object_of(self, input: InputId, bytes: &[u8]) -> Option<Box<Object>>
        ensures { IfSome result (λ o. object_of input bytes.now ≡ Ok o.value) }
    {
        let Early {
            input: own,
            bytes: read,
            object,
            defined: _,
        } = self;
        match object {
            Some(object) if own == input && read == bytes => Some(object),
            _ => None,
        }
    }
}
