//! What two entries of a name are compared by.
ghost use Rattle.std.specs.Prelude.{◌≡◌, ◌==◌};
ghost use Rattle.name_entries.specs.linking_section.Flags.{kind_code};
ghost use Rattle.name_entries.specs.name_rules.Entries.{same_symbol_type};
ghost use Rattle.name_entries.specs.Shown.{type_seen};
ghost use Rattle.name_cases.specs.Look.{AreLook, imports_differ, looks_clash, looks_break, looks_mismatch, look_may_differ};
ghost use Rattle.name_cases.specs.Rows.{RowsFit, rows_shown, symbol_in};

use crate::rows::{Rows, Spot};
use name_entries::{ImportRef, SymbolKind, TypeRef};

/// What is compared of an entry.
#[derive(Clone, Copy, Debug)]
pub(crate) struct Look<'a> {
    pub(crate) kind: SymbolKind,
    pub(crate) of_type: TypeRef<'a>,
    /// The import that it names itself, by EXPLICIT_NAME.
    pub(crate) explicit: Option<ImportRef<'a>>,
    pub(crate) defines: bool,
}

impl<'a> Rows<'a> {
    /// What is compared of a symbol; `None` exactly where there is none.
    pub(crate) fn look(&self, spot: Spot) -> Option<Look<'a>>
        requires { RowsFit self.now }
        ensures { AreLook result (symbol_in (rows_shown self.now) spot) }
    {
        let entry = self.entry(spot)?;
        let of_type = self.type_of(spot)?;
        let explicit = if entry.symbol.is_explicit() {
            self.import_of(spot)
        } else {
            None
        };
        Some(Look {
            kind: entry.symbol.kind,
            of_type,
            explicit,
            defines: entry.defines,
        })
    }
}

fn same_kind(a: SymbolKind, b: SymbolKind) -> bool
    ensures { result ≡ (kind_code b == kind_code a) }
{
    a == b
}

fn same_type(a: TypeRef<'_>, b: TypeRef<'_>) -> bool
    ensures { result ≡ same_symbol_type (type_seen a.entry) (type_seen b.entry) }
{
    match (a, b) {
        (TypeRef::Function(a), TypeRef::Function(b)) => {
            a.params == b.params && a.results == b.results
        }
        (TypeRef::GlobalVar(a), TypeRef::GlobalVar(b)) => a.kind == b.kind && a.var == b.var,
        (TypeRef::Untyped, TypeRef::Untyped) => true,
        _ => false,
    }
}

/// Whether both imports are there and have different modules or fields.
pub(crate) fn imports_differ(a: Option<ImportRef<'_>>, b: Option<ImportRef<'_>>) -> bool
    ensures { result ≡ imports_differ a.entry b.entry }
{
    match (a, b) {
        (Some(a), Some(b)) => !(a.module == b.module && a.field == b.field),
        _ => false,
    }
}

/// Whether an entry of a name differs in kind or type from the one that it is judged by. A function that is no definition may have another
/// type than the definition.
pub(crate) fn breaks(a: Look<'_>, b: Look<'_>) -> bool
    ensures { result ≡ looks_break a.entry b.entry }
{
    !(same_kind(a.kind, b.kind) && (may_differ(a, b) || same_type(a.of_type, b.of_type)))
}

/// Whether it is a function that has another type than the definition.
pub(crate) fn mismatches(a: Look<'_>, b: Look<'_>) -> bool
    ensures { result ≡ looks_mismatch a.entry b.entry }
{
    may_differ(a, b) && !same_type(a.of_type, b.of_type)
}

/// Whether an entry may have another type than the one that it is judged by.
fn may_differ(a: Look<'_>, b: Look<'_>) -> bool
    ensures { result ≡ look_may_differ a.entry b.entry }
{
    same_kind(SymbolKind::Function, b.kind) && a.defines && !b.defines
}

/// Whether two entries of a name differ in kind or type, or name different imports themselves.
pub(crate) fn clash(a: Look<'_>, b: Look<'_>) -> bool
    ensures { result ≡ looks_clash a.entry b.entry }
{
    !(same_kind(a.kind, b.kind) && same_type(a.of_type, b.of_type))
        || imports_differ(a.explicit, b.explicit)
}
