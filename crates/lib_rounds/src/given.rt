//! An object of the words, which moves as one address from when it is read.
ghost use Rattle.std.specs.Prelude.{◌≡◌, not, IfOk};
ghost use Rattle.lib_rounds.specs.Held.{holding};

use crate::slot::Slot;
use object_file::Object;
use std::alloc::Global;
use std::marker::Model;
use wl_base::OutOfMemory;

/// An object of the words, in a piece of memory of its own. Contracts see it as `round_rules` tells it.
#[derive(Drop)]
pub struct GivenObject {
    object: Box<Object>,
    lazy: bool,
}

impl Model for GivenObject {
    ghost use Rattle.round_rules.specs.declared.given.GivenObject.{GivenObject as Given};

    ghost Value = { Given };

    ghost view = { λ g. record { object = g.object.value; lazy = g.lazy } };
}

impl GivenObject {
    /// The object, whose input is its precedence, and whether it is loaded only by need, as between
    /// `--start-lib` and `--end-lib`.
    pub fn of(alloc: Global, object: Object, lazy: bool) -> Result<Self, OutOfMemory>
        ensures { IfOk result (λ g. g ≡ record { object = object; lazy = lazy }) }
    {
        Ok(GivenObject {
            object: Box::new(alloc, object)?,
            lazy,
        })
    }

    /// What it says.
    pub fn object(&self) -> &Object
        ensures { result.now ≡ self.now.object }
    {
        &self.object
    }

    /// Whether it is loaded only by need.
    pub fn is_lazy(&self) -> bool
        ensures { result ≡ self.now.lazy }
    {
        self.lazy
    }

    /// The slot of the object, which is loaded unless it is lazy.
    pub fn into_slot<'a>(self) -> Slot<'a>
        ensures { result ≡ holding (not self.lazy) self.object }
    {
        let GivenObject { object, lazy } = self;
        Slot::holding(object, !lazy)
    }
}
