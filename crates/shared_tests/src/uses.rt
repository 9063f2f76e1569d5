//! What is used of the names of an object: f calls g.
ghost use Rattle.std.specs.Prelude.{IsTrue};
ghost use Rattle.name_entries.specs.made_symbols.declared.mode.Mode.TheVariants.{Plain};
ghost use Rattle.name_entries.specs.link_names.Numbered.{AreNumbers};
ghost use Rattle.name_entries.specs.View.{InputsRise};

use made_symbols::Mode;
use name_entries::{EntryTable, Names, Object, read_object};
use name_jobs::group_winners;
use name_uses::uses_of;
use std::alloc::Global;
use std::thread::Threads;
use test_kit::calling_object;
use wl_fan::Workers;
use wl_outside::OpenGate;

/// Whether the object is input 1.
fn is_first(objects: &[Object]) -> bool
    ensures { IsTrue result → InputsRise 0 objects.now }
{
    match objects {
        [object] => object.input == 1,
        _ => false,
    }
}

/// Whether each of the names is called, and whether its address is used.
fn used<R: Threads + Sync>(
    rt: &R,
    alloc: Global,
    objects: &[Object],
    names: &Names,
) -> Option<[(bool, bool); 2]>
    requires inputs { InputsRise 0 objects.now }
    requires numbers { AreNumbers Plain objects.now names.now }
{
    let workers = Workers::new(1)?;
    let Ok(groups) = group_winners(rt, alloc, objects, names, workers, &OpenGate) else {
        return None;
    };
    let Ok(table) = EntryTable::new(alloc, objects, names, &groups) else {
        return None;
    };
    let columns = uses_of(alloc, table.view(objects, names)).ok()?;
    let f = columns.get(names.find(b"f".as_slice())? as usize)?;
    let g = columns.get(names.find(b"g".as_slice())? as usize)?;
    Some([(f.called, f.addressed), (g.called, g.addressed)])
}

/// The same, of the object's bytes.
fn used_in<R: Threads + Sync>(rt: &R, alloc: Global) -> Option<[(bool, bool); 2]> {
    let mut objects = Vec::new(alloc);
    objects
        .push(read_object(alloc, 1, calling_object()).ok()?)
        .ok()?;
    if !is_first(objects.as_slice()) {
        return None;
    }
    let Ok(names) = Names::new(alloc, Mode::Plain, &[], objects.as_slice(), 1 << 20) else {
        return None;
    };
    used(rt, alloc, objects.as_slice(), &names)
}

#[test]
fn what_is_called_is_told(rt: HostRuntime) {
    let want = [(false, false), (true, false)];
    assert_eq!(rt; used_in(&rt, rt.alloc()), Some(want));
}
