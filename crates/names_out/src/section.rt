//! The section of a link's names.
ghost use Rattle.std.specs.Prelude.{◌≡◌, ◌++◌, ◌<◌, ◌^◌, [], length, map, IfOk, OnOk};
ghost use Rattle.link_program.specs.link_rules.ModeOf.{mode_of};
ghost use Rattle.link_program.specs.link_rules.Output.{layout as layout_by};
ghost use Rattle.link_program.specs.Live.{Stage};
ghost use Rattle.link_layout.specs.Layout.{IsLayout};
ghost use Rattle.name_section.specs.Names.{named_seen, name_section};
ghost use Rattle.function_names.specs.Names.{named_onto};
ghost use Rattle.function_names.specs.Section.{placed_names};
ghost use Rattle.names_out.specs.Told.{label_seen, labels_told, listed_from};

use crate::labels::{Label, is_empty, key_labels};
use crate::offering::offer_names;
use link_layout::Layout;
use link_program::mode_of;
use name_section::{FunctionName, write_names};
use std::alloc::Global;
use wl_base::{OutOfMemory, Seq};

/// Puts a function at the end, where it has a name.
#[tactic(auto, using(crate::proofs::Listed::pushed, crate::proofs::Listed::unnamed))]
fn push_named<'a>(
    names: &mut Seq<FunctionName<'a>>,
    index: u32,
    label: Label<'a>,
) -> Result<(), OutOfMemory>
    ensures { OnOk result (map named_seen names.new ≡ map named_seen names.old ++ named_onto index (label_seen label.entry) []) }
{
    if is_empty(label) {
        return Ok(());
    }
    names.push(FunctionName {
        index,
        prefix: label.prefix,
        name: label.name,
    })
}

/// The functions that have names, by number. 2^32 functions and more are answered as want of memory.
fn named<'a>(alloc: Global, labels: &[Label<'a>]) -> Result<Seq<FunctionName<'a>>, OutOfMemory>
    ensures { IfOk result (λ names. map named_seen names ≡ listed_from 0 (map label_seen labels.now)) }
{
    let mut names = Seq::with_room(alloc, labels.len())?;
    let Ok(count) = u32::try_from(labels.len()) else {
        return Err(OutOfMemory);
    };
    for index in 0..count {
        push_named(&mut names, index, labels[index as usize])?;
    }
    Ok(names)
}

/// The names of all functions of a link's output, by number; those without one have the empty name.
fn labels_of<'a>(alloc: Global, layout: Layout<'a>) -> Result<Vec<Label<'a>>, OutOfMemory>
    ensures { IfOk result (λ labels. map label_seen labels.items ≡ labels_told layout.entry) }
{
    let program = layout.program;
    let keys = layout.numbering.functions();
    let mut labels = key_labels(alloc, mode_of(program.plan), program.names, keys)?;
    let symbols = program.tables.symbols.as_slice();
    offer_names(&mut labels, layout.numbering, program.objects, symbols);
    Ok(labels)
}

/// The section of these names.
fn section_of(alloc: Global, labels: &[Label<'_>]) -> Result<Seq<u8>, OutOfMemory>
    ensures { IfOk result (λ bytes. bytes ≡ name_section (listed_from 0 (map label_seen labels.now))) }
{
    let names = named(alloc, labels)?;
    write_names(alloc, names.as_slice())
}

/// The custom section that tells the names of the functions of a link's output (Core, appendix 7.4.1), where the words ask for it; else
/// no byte.
///
/// # Errors
///
/// Memory is refused, or the section would have 2^31 bytes and more.
pub fn name_tail(alloc: Global, layout: Layout<'_>) -> Result<Seq<u8>, OutOfMemory>
    ghost s: { Stage }
    requires { IsLayout s.program s.parts s.exports layout }
    ensures { IfOk result (λ bytes. bytes ≡ placed_names (mode_of s.program.plan) s.program (layout_by (mode_of s.program.plan) s.program s.parts s.exports)) }
{
    if !layout.program.plan.names {
        return Ok(Seq::new(alloc));
    }
    let labels = labels_of(alloc, layout)?;
    section_of(alloc, &labels)
}
