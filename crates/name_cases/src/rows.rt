//! All symbols of a link in rows: the linker's own first, then those of each object.
ghost use Rattle.std.specs.Prelude.{◌≡◌, [], length, slice_get, slice_index_or, IfSome, option_map};
ghost use Rattle.name_entries.specs.made_symbols.Made.{made};
ghost use Rattle.name_entries.specs.name_rules.Entries.{key_of, made_from};
ghost use Rattle.name_entries.specs.Shown.{AreShown, type_seen};
ghost use Rattle.name_entries.specs.object_columns.Seen.{import_seen};
ghost use Rattle.name_cases.specs.Rows.{RowsFit, names_shown, rows_shown, symbol_in};

use made_symbols::Mode;
use name_entries::{
    Entries, EntryRef, FuncTypeRef, HIDDEN, ImportRef, SymbolKind, SymbolRef, TypeRef,
};
use wasm_types::{GlobalType, ValType};

/// Where a symbol stands: row 0 has the linker's own symbols, row `o + 1` those of object `o`.
#[derive(Clone, Copy, Debug, PartialEq, Eq)]
pub(crate) struct Spot {
    pub(crate) row: u32,
    pub(crate) place: u32,
}

/// All symbols of a link, by row and place.
#[derive(Clone, Copy)]
pub(crate) struct Rows<'a> {
    pub(crate) view: Entries<'a>,
    pub(crate) mode: Mode,
}

/// The type of a linker-made symbol.
fn made_type(mode: Mode, place: u32) -> Option<TypeRef<'static>>
    ensures { option_map type_seen result ≡ option_map (λ e. e.type) (slice_get (made_from 0 (made mode)) place) }
{
    if place >= made_symbols::count(mode) {
        return None;
    }
    Some(match made_symbols::kind(mode, place) {
        SymbolKind::Function => TypeRef::Function(FuncTypeRef {
            params: &[],
            results: &[],
        }),
        SymbolKind::GlobalVar => TypeRef::GlobalVar(GlobalType {
            kind: ValType::I32,
            var: made_symbols::changes(mode, place),
        }),
        SymbolKind::Datum | SymbolKind::Section | SymbolKind::Table => TypeRef::Untyped,
    })
}

impl<'a> Rows<'a> {
    /// How many names there are.
    pub(crate) fn name_count(&self) -> u32
        ensures { result ≡ length (names_shown self.now) }
    {
        self.view.names.count()
    }

    /// A linker-made symbol; `None` exactly where there is none.
    fn made_entry(&self, place: u32) -> Option<EntryRef<'a>>
        requires { RowsFit self.now }
        ensures { AreShown (names_shown self.now) result (slice_get (made_from 0 (made self.now.mode)) place) }
    {
        if place >= made_symbols::count(self.mode) {
            return None;
        }
        let symbol = SymbolRef {
            kind: made_symbols::kind(self.mode, place),
            flags: HIDDEN,
            name: Some(made_symbols::name(self.mode, place)),
            index: 0,
            offset: 0,
            size: 0,
        };
        Some(EntryRef {
            input: 0,
            place,
            symbol,
            number: self.view.names.made(place),
            defines: true,
            class: made_symbols::class(self.mode, place),
            index: place,
        })
    }

    /// How many rows there are.
    #[tactic(auto, unfolding(crate::specs::Rows::rows_shown))]
    pub(crate) fn count(&self) -> u32
        requires { RowsFit self.now }
        ensures { result ≡ length (rows_shown self.now) }
    {
        self.view.count() + 1
    }

    /// Whether there are at least so many symbols in all rows.
    pub(crate) fn have_symbols(&self, count: u32) -> bool
        requires { RowsFit self.now }
    {
        let mut left = count;
        for row in 0..self.count() {
            let here = self.len(row);
            if here >= left {
                return true;
            }
            left -= here;
        }
        false
    }

    /// How many symbols a row has.
    #[tactic(auto, unfolding(crate::specs::Rows::rows_shown))]
    pub(crate) fn len(&self, row: u32) -> u32
        requires { RowsFit self.now }
        ensures { result ≡ length (slice_index_or (rows_shown self.now) row []) }
    {
        if row == 0 {
            made_symbols::count(self.mode)
        } else {
            self.view.symbols(row - 1)
        }
    }

    /// A symbol; `None` exactly where there is none.
    #[inline(always)]
    #[tactic(auto, unfolding(crate::specs::Rows::rows_shown))]
    pub(crate) fn entry(&self, spot: Spot) -> Option<EntryRef<'a>>
        requires { RowsFit self.now }
        ensures { AreShown (names_shown self.now) result (symbol_in (rows_shown self.now) spot) }
    {
        if spot.row == 0 {
            self.made_entry(spot.place)
        } else {
            self.view.entry(spot.row - 1, spot.place)
        }
    }

    /// The type of a symbol.
    #[tactic(auto, unfolding(crate::specs::Rows::rows_shown))]
    pub(crate) fn type_of(&self, spot: Spot) -> Option<TypeRef<'a>>
        requires { RowsFit self.now }
        ensures { option_map type_seen result ≡ option_map (λ e. e.type) (symbol_in (rows_shown self.now) spot) }
    {
        if spot.row == 0 {
            made_type(self.mode, spot.place)
        } else {
            self.view.type_of(spot.row - 1, spot.place)
        }
    }

    /// The import that a symbol stands on.
    #[tactic(auto, unfolding(crate::specs::Rows::rows_shown))]
    pub(crate) fn import_of(&self, spot: Spot) -> Option<ImportRef<'a>>
        requires { RowsFit self.now }
        ensures { IfSome (symbol_in (rows_shown self.now) spot) (λ e. option_map (λ i. key_of e.type (import_seen i)) result ≡ e.import) }
    {
        if spot.row == 0 {
            None
        } else {
            self.view.import_of(spot.row - 1, spot.place)
        }
    }
}
