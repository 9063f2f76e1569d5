//! How many functions an object imports: its own have the numbers behind them (Core 2.5.1).
ghost use Rattle.std.specs.Prelude.{◌≡◌, ◌+◌, ◌<◌, ◌^◌, length, slice_get, if◌then◌else◌};
ghost use Rattle.link_program.specs.linking_section.declared.symbol.SymbolKind.TheVariants.{Function};
ghost use Rattle.link_program.specs.object_rules.Spaces.{imports_of, is_of};
ghost use Rattle.found_numbers.specs.Found.{is_function_at};

use object_file::Imports;
use wasm_types::ImportKind;

fn is_function(kind: ImportKind) -> bool
    ensures { result ≡ is_of Function kind }
{
    matches!(kind, ImportKind::Function(_))
}

/// Whether the import of a place is a function.
fn is_function_at(imports: &Imports, at: usize) -> bool
    ensures { result ≡ is_function_at (slice_get imports.now at) }
{
    match imports.get(at) {
        Some(import) => is_function(import.kind),
        None => false,
    }
}

fn plus_if(count: usize, more: bool) -> usize
    requires { count + 1 < 2 ^ 64 }
    ensures { result ≡ (if more then count + 1 else count) }
{
    if more { count + 1 } else { count }
}

/// How many of the imports of an object are functions.
pub fn imported_functions(imports: &Imports) -> usize
    ensures { result ≡ length (imports_of Function imports.now) }
{
    let mut count = 0;
    for at in 0..imports.len() {
        count = plus_if(count, is_function_at(imports, at));
    }
    count
}
