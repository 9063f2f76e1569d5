//! The loaded objects.
ghost use Rattle.std.specs.Prelude.{◌≡◌, IfOk};
ghost use Rattle.lib_rounds.specs.Held.{loaded_objects};

use crate::slot::Slot;
use object_file::Object;
use std::alloc::Global;
use std::marker::Model;
use wl_base::{OutOfMemory, Seq};
use wl_lists::with_room;

/// The loaded objects of a link, by rising input.
#[derive(Debug, Drop)]
pub struct Loaded {
    objects: Seq<Object>,
}

impl Model for Loaded {
    ghost use Rattle.std.specs.Prelude.{List};
    ghost use Rattle.object_file.specs.declared.object.Object.{Object as Read};

    ghost Value = { List Read };

    ghost view = { λ l. l.objects };
}

/// How many slots are loaded.
fn count_loaded(slots: &[Slot<'_>]) -> usize {
    let mut count: usize = 0;
    for slot in slots {
        if slot.is_loaded() {
            count = count.saturating_add(1);
        }
    }
    count
}

impl Loaded {
    /// The objects.
    pub fn objects(&self) -> &[Object]
        ensures { result.now ≡ self.now }
    {
        self.objects.as_slice()
    }

    /// The objects of the slots that are loaded.
    pub(crate) fn of(alloc: Global, slots: Vec<Slot<'_>>) -> Result<Loaded, OutOfMemory>
        ensures { IfOk result (λ l. l ≡ loaded_objects slots.entry.items) }
    {
        let mut objects = with_room(alloc, count_loaded(slots.as_slice()))?;
        let mut left = slots.into_iter();
        while let Some(slot) = left.next() {
            if let Some(object) = slot.into_loaded() {
                objects.push(Box::into_inner(object))?;
            }
        }
        Ok(Loaded { objects })
    }
}
