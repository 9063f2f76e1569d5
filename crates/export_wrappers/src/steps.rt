//! The bytes of wrappers (Core 5.4.1, 5.4.4 and 5.5.13).
ghost use Rattle.std.specs.Prelude.{◌≡◌, ◌++◌, ◌<◌, ◌^◌, OnOk, flat_map, map, option_to_list};
ghost use Rattle.wasm_module.specs.wasm_instr.leb_codec.Shortest.{u32 as shortest_u32};
ghost use Rattle.wasm_module.specs.wasm_instr.wasm_grammar.Grammar.{SpellsMany};
ghost use Rattle.export_wrappers.specs.Wrapped.{call, argument, arguments, steps, step_bytes, body_of, body_bytes};
ghost use Rattle.export_wrappers.specs.Written.{Puts, SpellsCode, FitSteps};

use crate::wrapper::Wrapper;
use leb_codec::write_u32;
use std::alloc::Global;
use wasm_grammar::put_bytes;
use wl_base::{OutOfMemory, Seq};

/// Appends a number, as short as can be. One that is no u32 is answered as want of memory is.
fn put_number(to: &mut Seq<u8>, n: usize) -> Result<(), OutOfMemory>
    ensures bytes { OnOk result (to.new ≡ to.old ++ shortest_u32 n) }
    ensures fits { OnOk result (n < 2 ^ 32) }
{
    let Ok(n) = u32::try_from(n) else {
        return Err(OutOfMemory);
    };
    let mut text = [0; 10];
    let len = write_u32(n, &mut text);
    to.extend_from_slice(&text[..len])
}

/// Appends a call.
fn put_call(to: &mut Seq<u8>, function: u32) -> Result<(), OutOfMemory>
    ensures bytes { OnOk result (to.new ≡ to.old ++ step_bytes (call function)) }
    ensures fits { function < 2 ^ 32 }
{
    to.push(0x10)?;
    put_number(to, function as usize)
}

/// Appends what puts an argument on the stack.
fn put_argument(to: &mut Seq<u8>, local: usize) -> Result<(), OutOfMemory>
    ensures bytes { OnOk result (to.new ≡ to.old ++ step_bytes (argument local)) }
{
    to.push(0x20)?;
    put_number(to, local)
}

/// Appends what puts so many arguments there.
fn put_arguments(to: &mut Seq<u8>, count: usize) -> Result<(), OutOfMemory>
    ensures bytes { OnOk result (to.new ≡ to.old ++ flat_map step_bytes (arguments 0 count)) }
    ensures fits { OnOk result (count < 2 ^ 32) }
{
    if u32::try_from(count).is_err() {
        return Err(OutOfMemory);
    }
    for local in 0..count {
        put_argument(to, local)?;
    }
    Ok(())
}

/// Appends the call of the destructors, where there are any.
fn put_last(to: &mut Seq<u8>, dtors: Option<u32>) -> Result<(), OutOfMemory>
    ensures bytes { OnOk result (to.new ≡ to.old ++ flat_map step_bytes (map call (option_to_list dtors))) }
    ensures fits { FitSteps (map call (option_to_list dtors)) }
{
    match dtors {
        None => Ok(()),
        Some(function) => put_call(to, function),
    }
}

/// Appends the body of a wrapper.
fn put_body(to: &mut Seq<u8>, ctors: u32, dtors: Option<u32>, w: Wrapper) -> Result<(), OutOfMemory>
    ensures bytes { OnOk result (to.new ≡ to.old ++ body_bytes ctors dtors w) }
    ensures fits { OnOk result (FitSteps (steps ctors dtors w)) }
{
    to.push(0)?;
    put_call(to, ctors)?;
    put_arguments(to, w.parameters)?;
    put_call(to, w.function)?;
    put_last(to, dtors)?;
    to.push(0x0b)
}

/// Appends the size of a wrapper's body, and the body. Its bytes are made in `room`, which is emptied first.
fn put_code(
    to: &mut Seq<u8>,
    room: &mut Seq<u8>,
    ctors: u32,
    dtors: Option<u32>,
    w: Wrapper,
) -> Result<(), OutOfMemory>
    ensures { OnOk result (Puts (SpellsCode (body_of ctors dtors w)) to.old to.new) }
{
    room.truncate(0);
    put_body(room, ctors, dtors, w)?;
    put_bytes(to, room.as_slice())
}

/// Appends the code of these wrappers.
pub fn put_wrappers(
    alloc: Global,
    to: &mut Seq<u8>,
    ctors: u32,
    dtors: Option<u32>,
    wrappers: &[Wrapper],
) -> Result<(), OutOfMemory>
    ensures { OnOk result (Puts (SpellsMany SpellsCode (map (body_of ctors dtors) wrappers.now)) to.old to.new) }
{
    let mut room = Seq::new(alloc);
    for w in wrappers {
        put_code(to, &mut room, ctors, dtors, *w)?;
    }
    Ok(())
}
