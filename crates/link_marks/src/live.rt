//! Which parts are live.
ghost use Rattle.std.specs.Prelude.{◌≡◌, map, IfOk};
ghost use Rattle.link_program.specs.link_rules.Marks as marks;
ghost use Rattle.link_program.specs.Told.{told_winner};
ghost use Rattle.link_program.specs.Program.{IsProgram};
ghost use Rattle.link_marks.specs.Alive.{numbers_set, IsLive};
ghost use Rattle.link_marks.specs.About.{Exporting};

use crate::chunks::numbers_led;
use crate::edges::PartEdges;
use crate::numbers::push_if;
use crate::roots::roots_of;
use link_program::{Program, Winner};
use live_mark::{live, reached_exactly};
use mark_bits::MarkSet;
use std::alloc::Global;
use std::thread::Threads;
use wl_base::{OutOfMemory, Seq};
use wl_fan::Workers;
use wl_outside::Gate;

/// The live parts.
#[derive(Drop)]
pub struct Live {
    /// Their set, with a bit for each part.
    pub set: MarkSet,
    /// Their numbers, which rise.
    pub numbers: Seq<u32>,
}

/// The numbers of the chunks in a set.
fn numbers_of(alloc: Global, set: &MarkSet) -> Result<Seq<u32>, OutOfMemory>
    ensures { IfOk result (λ numbers. numbers ≡ numbers_set set.now.words set.now.chunks) }
{
    let mut numbers = Seq::new(alloc);
    for number in 0..set.chunks {
        push_if(&mut numbers, set.has(number), number)?;
    }
    Ok(numbers)
}

/// The parts that the roots reach: what is exported, the winners that have NO_STRIP, the segments that have RETAIN, and with
/// `--no-gc-sections` all kept parts of objects. Workers mark them, each passing the gate before each of its places. More than
/// 2^32 - 1 roots are answered as want of memory.
pub fn live_parts<R: Threads + Sync, G: Gate>(
    rt: &R,
    alloc: Global,
    program: Program<'_>,
    exports: &[Winner],
    workers: Workers,
    gate: &G,
) -> Result<Live, OutOfMemory>
    ghost w: { Exporting }
    requires program { IsProgram program w.program }
    requires exports { exports.now ≡ map (told_winner program.names.now.names) w.exports }
    ensures { IfOk result (λ l. IsLive w.program l (marks.live w.program w.exports)) }
{
    let symbols = program.tables.symbols.as_slice();
    let leads = numbers_led(rt, alloc, &program.tables.chunks, symbols, workers)?;
    let roots = roots_of(alloc, program.tables, program.plan.gc, exports)?;
    if roots.len() > u32::MAX as usize {
        return Err(OutOfMemory);
    }
    let led = leads.as_slice();
    let edges = PartEdges {
        rows: &program.tables.named,
        led,
    };
    let set = live(rt, alloc, &edges, roots.as_slice(), workers, gate)?;
    let numbers = numbers_of(alloc, &set)?;
    reached_exactly();
    Ok(Live { set, numbers })
}
