//! Placing the live data segments.
ghost use Rattle.std.specs.Prelude.{◌≡◌};
ghost use Rattle.link_program.specs.memory_layout.Steps.{AreRules, AreAligned};
ghost use Rattle.link_program.specs.link_plan.Plan.{IsPlan};
ghost use Rattle.link_program.specs.link_rules.ModeOf.{mode_of};
ghost use Rattle.link_program.specs.link_rules.Values.{rules_of};
ghost use Rattle.link_program.specs.Program.{IsProgram};
ghost use Rattle.link_program.specs.Stand.{PartsStand};
ghost use Rattle.link_program.specs.Live.{Stage, AreLive};
ghost use Rattle.link_layout.specs.Placed.{AnswersColumns, AnswersPlaced};

use crate::columns::{address_column, solid_column};
use crate::segments::{segment_numbers, shapes_of};
use link_plan::Plan;
use link_program::{Mode, Program, mode_of};
use memory_layout::{MemoryRules, Places, SegmentShape, place};
use std::alloc::Global;
use wl_base::{LayoutError, Seq};

/// Where the data segments stand.
#[derive(Debug, Drop)]
pub struct Placed {
    /// The addresses of the live segments, in the order of the parts, and what stands around them.
    pub places: Places,
    /// Of each part, by its number, the address of a live segment; of every other part that of the first live segment, or 0.
    pub addresses: Seq<u32>,
    /// Of each part, by its number, whether it is a live segment that isn't zero.
    pub solid: Seq<bool>,
}

/// What the words say of memory. The data of a shared output count from 0, and its loader finds room for them.
fn rules_of(plan: &Plan) -> MemoryRules
    ensures { result ≡ rules_of (mode_of plan.now) plan.now }
{
    match mode_of(plan) {
        Mode::Plain => MemoryRules::Absolute {
            stack_first: plan.stack_first,
            base: plan.global_base,
            stack: plan.stack_size,
            initial: plan.initial_memory,
            max: plan.max_memory,
        },
        Mode::Shared => MemoryRules::Relative,
    }
}

/// Places segments of these numbers and shapes among so many parts.
fn place_all(
    alloc: Global,
    rules: &MemoryRules,
    numbers: &[u32],
    shapes: &[SegmentShape],
    count: usize,
) -> Result<Placed, LayoutError>
    requires rules { AreRules rules.now }
    requires aligned { AreAligned shapes.now }
    ensures { AnswersColumns rules.now numbers.now shapes.now count result }
{
    let places = place(alloc, rules, shapes)?;
    let addresses = address_column(alloc, numbers, places.addresses.as_slice(), count)?;
    let solid = solid_column(alloc, numbers, shapes, count)?;
    Ok(Placed {
        places,
        addresses,
        solid,
    })
}

/// Places the live data segments, by input and index, those that aren't zero first, and the stack and the heap around them.
///
/// It is refused with the first of these numbers that passes its limit: the end of a segment, the heap base, the memory's bytes.
pub fn place_segments(
    alloc: Global,
    program: Program<'_>,
    files: &[Seq<u8>],
    live: &[u32],
) -> Result<Placed, LayoutError>
    ghost s: { Stage }
    requires program { IsProgram program s.program }
    requires stand { PartsStand s.program }
    requires live { AreLive s.program live.now s.parts }
    requires files { files.now ≡ s.program.files }
    requires plan { IsPlan s.program.plan }
    ensures { AnswersPlaced s.program s.parts result }
{
    let tables = program.tables;
    let numbers = segment_numbers(alloc, tables, live)?;
    let shapes = shapes_of(alloc, tables, files, &numbers)?;
    let rules = rules_of(program.plan);
    place_all(alloc, &rules, &numbers, &shapes, tables.parts.len())
}
