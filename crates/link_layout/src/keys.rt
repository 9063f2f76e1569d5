//! What symbols mean, as keys.
ghost use Rattle.std.specs.Prelude.{◌≡◌};
ghost use Rattle.link_program.specs.linking_section.Flags.{kind_code};
ghost use Rattle.link_layout.specs.Seen.{global_meant, global_named};

use link_program::{GlobalKey, GotKey, Lead, Symbol, cell_meant, index_of};
use linking_section::SymbolKind;

/// The global that the symbol of a global means.
fn global_meant(kind: u8, lead: Lead) -> GlobalKey
    ensures { result ≡ global_meant kind lead }
{
    match lead {
        Lead::Here(definition) => GlobalKey::Own {
            input: definition.input,
            index: index_of(definition),
        },
        Lead::Import(number) => GlobalKey::Import(number),
        Lead::Null | Lead::Nothing => GlobalKey::Got(GotKey::Null(kind)),
    }
}

/// The global that a symbol means, or the cell of the address of a function or datum.
pub(crate) fn global_named(symbol: Symbol) -> GlobalKey
    ensures { result ≡ global_named (kind_code symbol.kind) symbol.lead }
{
    let kind = symbol.kind.code();
    if kind == SymbolKind::GlobalVar.code() {
        global_meant(kind, symbol.lead)
    } else {
        GlobalKey::Got(cell_meant(kind, symbol.lead))
    }
}
