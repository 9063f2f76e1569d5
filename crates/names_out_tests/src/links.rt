//! The module of an object, with and without the section of names. wasm-ld 14 writes the same subsection for it.
ghost use Rattle.std.specs.Prelude.{◌≡◌, None, length, IfOk};
ghost use Rattle.link_plan.specs.Plan.{IsPlan};

use link_core::link;
use link_plan::{InputWord, Plan};
use std::alloc::Global;
use std::thread::Threads;
use test_kit::{calling_module, calling_object, name};
use wl_base::{Name, OutOfMemory, Seq};
use wl_outside::OpenGate;

/// The whole section for that object, whose function `f` calls `g`.
const NAMES: [u8; 16] = *b"\0\x0e\x04name\x01\x07\x02\0\x01f\x01\x01g";

/// The word of one object.
fn one_word(alloc: Global) -> Result<Seq<InputWord>, OutOfMemory>
    ensures { IfOk result (λ words. length words ≡ 1) }
{
    let mut words = Seq::new(alloc);
    words.push(InputWord {
        place: 0,
        lazy: false,
        whole: false,
    })?;
    Ok(words)
}

/// Its bytes.
fn one_file(alloc: Global) -> Result<Seq<Seq<u8>>, OutOfMemory>
    ensures { IfOk result (λ files. length files ≡ 1) }
{
    let mut files = Seq::new(alloc);
    files.push(Seq::from_slice(alloc, calling_object())?)?;
    Ok(files)
}

/// The name that is exported.
fn one_export(alloc: Global) -> Result<Seq<Name>, OutOfMemory> {
    let mut exports = Seq::new(alloc);
    exports.push(name(alloc, "f")?)?;
    Ok(exports)
}

/// A plan of one object, which asks for names or doesn't.
fn plan_of(alloc: Global, inputs: Seq<InputWord>, exports: Seq<Name>, names: bool) -> Plan
    requires { length inputs ≡ 1 }
    ensures plan { IsPlan result }
    ensures inputs { result.inputs ≡ inputs }
    ensures case { result.make_case ≡ None }
{
    Plan {
        inputs,
        output: None,
        entry: None,
        exports,
        exports_if: Seq::new(alloc),
        wanted: Seq::new(alloc),
        export_dynamic: false,
        allow_undefined: false,
        import_memory: false,
        gc: true,
        stack_first: false,
        global_base: None,
        stack_size: 65536,
        initial_memory: 0,
        max_memory: None,
        threads: 1,
        make_case: None,
        shared: false,
        partial: false,
        validate: false,
        keep_debug: false,
        like_lld: false,
        loose_calls: false,
        names,
        features: None,
    }
}

/// Whether these bytes stand behind those of the module.
fn ends_so(module: &[u8], tail: &[u8]) -> bool {
    let front = calling_module();
    module.len() >= front.len() && &module[..front.len()] == front && &module[front.len()..] == tail
}

/// Whether the link gives the module with these bytes behind it.
fn gives<R: Threads + Sync>(rt: &R, alloc: Global, plan: &Plan, tail: &[u8]) -> Option<bool>
    requires plan { IsPlan plan.now }
    requires inputs { length plan.now.inputs ≡ 1 }
    requires case { plan.now.make_case ≡ None }
{
    let Ok(files) = one_file(alloc) else {
        return None;
    };
    match link(rt, alloc, plan, files.as_slice(), &OpenGate) {
        Ok(module) => Some(ends_so(module.as_slice(), tail)),
        Err(_) => None,
    }
}

/// The same of a plan that asks for names or doesn't.
fn ends_in<R: Threads + Sync>(rt: &R, alloc: Global, names: bool, tail: &[u8]) -> Option<bool> {
    let words = one_word(alloc).ok()?;
    let exports = one_export(alloc).ok()?;
    let plan = plan_of(alloc, words, exports, names);
    gives(rt, alloc, &plan, tail)
}

#[test]
fn names_stand_behind_the_module(rt: HostRuntime) {
    assert_eq!(rt;
        ends_in(&rt, rt.alloc(), true, NAMES.as_slice()),
        Some(true)
    );
    assert_eq!(rt; ends_in(&rt, rt.alloc(), false, &[]), Some(true));
}
