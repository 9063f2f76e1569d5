//! What the cell of the address of each symbol would hold.
ghost use Rattle.std.specs.Prelude.{◌≡◌, map, IfOk};
ghost use Rattle.link_program.specs.linking_section.Flags.{kind_code};
ghost use Rattle.link_program.specs.made_symbols.declared.mode.Mode.TheVariants as modes;
ghost use Rattle.link_program.specs.link_rules.Values as values;
ghost use Rattle.link_program.specs.link_rules.Output.{layout as laid_out};
ghost use Rattle.link_program.specs.Live.{Stage};
ghost use Rattle.link_image.specs.link_layout.Layout.{IsLayoutIn};
ghost use Rattle.link_image.specs.Sections.{entry_of};
ghost use Rattle.sym_functions.specs.Bases.{base_seen};

use link_image::Layout;
use link_program::{Definition, FunctionKey, Lead, Symbol, function_of};
use linking_section::SymbolKind;
use std::alloc::Global;
use wl_base::OutOfMemory;

/// The address of a definition.
pub fn address(layout: Layout<'_>, definition: Definition) -> u64
    ghost s: { Stage }
    requires { IsLayoutIn modes.Plain s.program s.parts s.exports layout }
    ensures { result ≡ values.address_of modes.Plain (laid_out modes.Plain s.program s.parts s.exports) (entry_of definition) }
{
    layout.address(definition)
}

/// What the cell of the address of a symbol would hold.
fn base_of(layout: Layout<'_>, symbol: Symbol) -> u64
    ghost s: { Stage }
    requires { IsLayoutIn modes.Plain s.program s.parts s.exports layout }
    ensures { result ≡ base_seen (laid_out modes.Plain s.program s.parts s.exports) layout.entry.numbering.now symbol }
{
    match symbol.lead {
        Lead::Here(definition) => {
            if definition.kind == SymbolKind::Datum {
                address(layout, definition)
            } else {
                u64::from(layout.numbering.slot(function_of(definition)))
            }
        }
        Lead::Import(number) => u64::from(layout.numbering.slot(FunctionKey::Import(number))),
        Lead::Null | Lead::Nothing => 0,
    }
}

/// What the cell of the address of each symbol would hold.
pub fn bases_of(alloc: Global, layout: Layout<'_>) -> Result<Vec<u64>, OutOfMemory>
    ghost s: { Stage }
    requires { IsLayoutIn modes.Plain s.program s.parts s.exports layout }
    ensures { IfOk result (λ bases. bases.items ≡ map (base_seen (laid_out modes.Plain s.program s.parts s.exports) layout.entry.numbering.now) layout.entry.program.tables.now.symbols) }
{
    let symbols = layout.program.tables.symbols.as_slice();
    let mut bases = Vec::with_capacity(alloc, symbols.len())?;
    for symbol in symbols {
        bases.push(base_of(layout, *symbol))?;
    }
    Ok(bases)
}
