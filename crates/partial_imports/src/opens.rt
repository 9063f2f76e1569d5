//! The symbols of open names, with the imports that they take.
ghost use Rattle.std.specs.Prelude.{◌≡◌, ◌++◌, [], Some, map, filter, filter_map, length, IfOk, OnOk};
ghost use Rattle.std.specs.List.{cons_option};
ghost use Rattle.std.specs.Option.{option_or};
ghost use Rattle.partial_symbols.specs.link_program.name_entries.Fits.{FitsObjects};
ghost use Rattle.partial_symbols.specs.link_program.link_rules.Program.{Program as Rules};
ghost use Rattle.partial_symbols.specs.link_program.declared.program.Program.{Program as Data};
ghost use Rattle.partial_symbols.specs.link_program.made_symbols.declared.mode.Mode.TheVariants.{Plain};
ghost use Rattle.partial_symbols.specs.link_program.Program.{IsProgramOf};
ghost use Rattle.partial_symbols.specs.partial_rules.Partial as partial;
ghost use Rattle.partial_symbols.specs.Known.{symbol_there, IsSight};
ghost use Rattle.partial_imports.specs.Opens.{open_at, open_seen, told_open, is_of, one_more, count_in};

use linking_section::SymbolKind;
use partial_symbols::{At, Entries, Sight};
use std::alloc::Global;
use wl_base::{OutOfMemory, Seq};

/// A name that no object defines, by the symbol that stands for it.
#[derive(Clone, Copy, Debug)]
pub struct Open {
    /// The symbol.
    pub at: At,
    pub kind: SymbolKind,
    /// The reference whose import it takes; else its import is `env` and the name.
    pub import: Option<At>,
}

/// The first, or else the second.
fn or_at(first: Option<At>, second: Option<At>) -> Option<At>
    ensures { result ≡ option_or first second }
{
    match first {
        Some(at) => Some(at),
        None => second,
    }
}

/// The symbol at a place, where no object defines its name.
fn open_at(sight: &Sight, entries: Entries<'_>, at: At) -> Option<Open>
    requires { FitsObjects entries }
    ensures { result ≡ open_at sight.now entries.entry.names.now.names entries.entry.objects.now at }
{
    let Some(entry) = entries.entry(at.object, at.place) else {
        return None;
    };
    let Some(number) = entry.number else {
        return None;
    };
    if sight.winner(number).is_some() {
        return None;
    }
    let column = sight.column(number);
    Some(Open {
        at,
        kind: entry.symbol.kind,
        import: or_at(column.explicit_import, column.import),
    })
}

/// Puts a symbol behind others, where there is one.
fn put(opens: &mut Seq<Open>, found: Option<Open>) -> Result<(), OutOfMemory>
    ensures { OnOk result (opens.new ≡ opens.old ++ cons_option found []) }
{
    if let Some(symbol) = found {
        opens.push(symbol)?;
    }
    Ok(())
}

/// Those of these symbols whose names no object defines.
fn opens_in(
    alloc: Global,
    sight: &Sight,
    entries: Entries<'_>,
    symbols: &[At],
) -> Result<Seq<Open>, OutOfMemory>
    requires { FitsObjects entries }
    ensures { IfOk result (λ opens. opens ≡ filter_map (open_at sight.now entries.entry.names.now.names entries.entry.objects.now) symbols.now) }
{
    let mut opens = Seq::new(alloc);
    for at in symbols {
        put(&mut opens, open_at(sight, entries, *at))?;
    }
    Ok(opens)
}

/// Those of the symbols that stand in the object whose names no object defines, in their order.
pub fn opens_of(
    alloc: Global,
    sight: &Sight,
    entries: Entries<'_>,
    symbols: &[At],
) -> Result<Seq<Open>, OutOfMemory>
    requires { FitsObjects entries }
    ensures { IfOk result (λ opens. (d : Data) (p : Rules) → IsProgramOf Plain d p → d.objects.now ≡ entries.entry.objects.now → d.names.now ≡ entries.entry.names.now
        → IsSight p d.names.now.names sight.now → map (symbol_there p.objects) symbols.now ≡ map Some (partial.standing p)
        → map (open_seen p.objects) opens ≡ map (told_open p) (filter (partial.is_open p) (partial.standing p))) }
{
    let opens = opens_in(alloc, sight, entries, symbols)?;
    Ok(opens)
}

fn is_of(kind: SymbolKind, other: SymbolKind) -> bool
    ensures { result ≡ is_of kind other }
{
    other.code() == kind.code()
}

/// The number, or one more. One of 2^32 is answered as want of memory.
fn one_more(count: u32, more: bool) -> Result<u32, OutOfMemory>
    ensures { IfOk result (λ n. n ≡ one_more count more) }
{
    if !more {
        return Ok(count);
    }
    match count.checked_add(1) {
        Some(n) => Ok(n),
        None => Err(OutOfMemory),
    }
}

fn count_in(opens: &[Open], kind: SymbolKind) -> Result<u32, OutOfMemory>
    ensures { IfOk result (λ n. n ≡ count_in kind opens.now) }
{
    let mut count = 0;
    for found in opens {
        count = one_more(count, is_of(kind, found.kind))?;
    }
    Ok(count)
}

/// How many of the open names are of a kind.
pub fn count_of(opens: &[Open], kind: SymbolKind) -> Result<u32, OutOfMemory>
    ensures { IfOk result (λ n. (p : Rules) → map (open_seen p.objects) opens.now ≡ map (told_open p) (filter (partial.is_open p) (partial.standing p)) → n ≡ length (partial.open_of p kind)) }
{
    let count = count_in(opens, kind)?;
    Ok(count)
}
