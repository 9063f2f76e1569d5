//! What a shared output has in place of what a plain one has: its sections and bodies refer to the bases that its loader chose.
ghost use Rattle.std.specs.Prelude.{◌≡◌, ◌++◌, ◌∷◌, [], Some, None, IfOk, OnOk};
ghost use Rattle.link_program.specs.link_rules.Marks.{by_mode};
ghost use Rattle.link_program.specs.Live.{Stage, AreLive};
ghost use Rattle.link_layout.specs.Layout.{IsLayout};
ghost use Rattle.link_image.specs.Sections.{shared_memory, table_import, section_bytes, apply_bytes};

use dylink_out::{apply_body, write_dylink};
use link_layout::Layout;
use link_loader::{dylink, words};
use made_symbols::Mode;
use std::alloc::Global;
use wasm_types::{Import, ImportKind, Limits, TableType};
use wl_base::{OutOfMemory, Seq};

/// The number of the first of the linker's globals among the linker's symbols. They are the first globals of the output.
pub(crate) const FIRST_GLOBAL: u32 = 2;

/// The number of the global that holds where the data begin.
pub(crate) const MEMORY_BASE: u32 = 1;

/// The number of the global that holds the first slot.
pub(crate) const TABLE_BASE: u32 = 2;

/// The memory of as many pages as hold the data up to an end.
#[tactic(auto, using(crate::proofs::Pages::pages_are))]
pub(crate) fn shared_memory(end: u32) -> Limits
    ensures { result ≡ shared_memory end }
{
    let pages = (u64::from(end) + 65_535) / 65_536;
    Limits {
        min: pages as u32,
        max: None,
    }
}

// The import of the table, with so many slots.
fn table_import(alloc: Global, slots: usize) -> Result<Import, OutOfMemory>
    ensures { IfOk result (λ i. i ≡ table_import slots) }
{
    let Ok(min) = u32::try_from(slots) else {
        return Err(OutOfMemory);
    };
    let module = Seq::from_slice(alloc, b"env".as_slice())?;
    let field = Seq::from_slice(alloc, b"__indirect_function_table".as_slice())?;
    let limits = Limits { min, max: None };
    Ok(Import {
        module,
        field,
        kind: ImportKind::Table(TableType {
            funcref: true,
            limits,
        }),
    })
}

/// Adds the import of the table to those of a shared output.
pub(crate) fn add_table(
    alloc: Global,
    mode: Mode,
    slots: usize,
    imports: &mut Seq<Import>,
) -> Result<(), OutOfMemory>
    ensures { OnOk result (imports.new ≡ imports.old ++ by_mode mode [] (table_import slots ∷ [])) }
{
    match mode {
        Mode::Plain => Ok(()),
        Mode::Shared => {
            let import = table_import(alloc, slots)?;
            imports.push(import)
        }
    }
}

// The section that tells the loader what it needs, from its name on.
#[tactic(auto, using(crate::proofs::Front::begins))]
fn section(alloc: Global, layout: Layout<'_>, live: &[u32]) -> Result<Seq<u8>, OutOfMemory>
    ghost s: { Stage }
    requires layout { IsLayout s.program s.parts s.exports layout }
    requires live { AreLive s.program live.now s.parts }
    ensures { IfOk result (λ bytes. bytes ≡ section_bytes s) }
{
    let dylink = dylink(alloc, layout, live)?;
    let payload = write_dylink(alloc, &dylink)?;
    let mut bytes = Seq::from_slice(alloc, b"\x08dylink.0".as_slice())?;
    bytes.extend_from_slice(payload.as_slice())?;
    Ok(bytes)
}

/// The section before all others.
pub(crate) fn custom(
    alloc: Global,
    mode: Mode,
    layout: Layout<'_>,
    live: &[u32],
) -> Result<Option<Seq<u8>>, OutOfMemory>
    ghost s: { Stage }
    requires layout { IsLayout s.program s.parts s.exports layout }
    requires live { AreLive s.program live.now s.parts }
    ensures { IfOk result (λ bytes. bytes ≡ by_mode mode None (Some (section_bytes s))) }
{
    match mode {
        Mode::Plain => Ok(None),
        Mode::Shared => {
            let bytes = section(alloc, layout, live)?;
            Ok(Some(bytes))
        }
    }
}

/// The body of the function that makes addresses right. A plain output has none: want of memory is answered.
pub(crate) fn apply_bytes(
    alloc: Global,
    layout: Layout<'_>,
    live: &[u32],
) -> Result<Seq<u8>, OutOfMemory>
    ghost s: { Stage }
    requires layout { IsLayout s.program s.parts s.exports layout }
    requires live { AreLive s.program live.now s.parts }
    ensures { IfOk result (λ bytes. bytes ≡ apply_bytes s) }
{
    let words = words(alloc, layout, live)?;
    let bytes = apply_body(alloc, words.as_slice())?;
    Ok(bytes)
}
