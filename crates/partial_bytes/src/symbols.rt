//! How symbols are written (Linking.md, 'Linking Metadata Section').
ghost use Rattle.std.specs.Prelude.{◌≡◌, [], length, unwrap_or, if◌then◌else◌};
ghost use Rattle.image_emit.specs.Put.{IsPut, HasRoom, capped};
ghost use Rattle.linking_section.specs.Flags.{is_named, has_bit};
ghost use Rattle.partial_rules.specs.Relocatable.{spelled_name, indexed, datum, symbol_rest};
ghost use Rattle.partial_bytes.specs.Told.{symbol_told};

use crate::item::Item;
use crate::tree::SymbolRow;
use image_emit::put::{plus, put_byte, put_number, put_sized, sized_size, u32_size};
use linking_section::{EXPLICIT_NAME, SymbolKind, UNDEFINED};

/// Whether the name of a function, global or table of these flags stands with the symbol.
fn is_named(flags: u32) -> bool
    ensures { result ≡ is_named flags }
{
    flags & UNDEFINED == 0 || flags & EXPLICIT_NAME != 0
}

/// Whether a symbol of these flags is a reference.
fn is_undefined(flags: u32) -> bool
    ensures { result ≡ has_bit 0x10 flags }
{
    flags & UNDEFINED != 0
}

impl SymbolRow<'_> {
    /// The name, no bytes where there is none.
    fn own_name(&self) -> &[u8]
        ensures { result.now ≡ unwrap_or (symbol_told self.now).name [] }
    {
        match self.name {
            Some(name) => name,
            None => &[],
        }
    }

    fn put_indexed(&self, at: usize, out: &mut [u8]) -> usize
        requires { HasRoom out.old at (indexed (symbol_told self.now)) }
        ensures { IsPut out.old at (indexed (symbol_told self.now)) result out.new }
    {
        let at = put_number(self.index, at, out);
        if !is_named(self.flags) {
            return at;
        }
        put_sized(self.own_name(), at, out)
    }

    fn put_datum(&self, at: usize, out: &mut [u8]) -> usize
        requires { HasRoom out.old at (datum (symbol_told self.now)) }
        ensures { IsPut out.old at (datum (symbol_told self.now)) result out.new }
    {
        let at = put_sized(self.own_name(), at, out);
        if is_undefined(self.flags) {
            return at;
        }
        let at = put_number(self.index, at, out);
        let at = put_number(self.offset, at, out);
        put_number(self.size, at, out)
    }

    fn put_rest(&self, at: usize, out: &mut [u8]) -> usize
        requires { HasRoom out.old at (symbol_rest self.now.kind (symbol_told self.now)) }
        ensures { IsPut out.old at (symbol_rest self.now.kind (symbol_told self.now)) result out.new }
    {
        match self.kind {
            SymbolKind::Datum => self.put_datum(at, out),
            SymbolKind::Section => put_number(self.index, at, out),
            SymbolKind::Function | SymbolKind::GlobalVar | SymbolKind::Table => {
                self.put_indexed(at, out)
            }
        }
    }

    fn indexed_size(&self) -> u64
        ensures { result ≡ capped (length (indexed (symbol_told self.now))) }
    {
        let index = u32_size(u64::from(self.index));
        if !is_named(self.flags) {
            return index;
        }
        plus(index, sized_size(self.own_name()))
    }

    fn datum_size(&self) -> u64
        ensures { result ≡ capped (length (datum (symbol_told self.now))) }
    {
        let name = sized_size(self.own_name());
        if is_undefined(self.flags) {
            return name;
        }
        let index = u32_size(u64::from(self.index));
        let offset = u32_size(u64::from(self.offset));
        let size = u32_size(u64::from(self.size));
        plus(name, index + offset + size)
    }

    fn rest_size(&self) -> u64
        ensures { result ≡ capped (length (symbol_rest self.now.kind (symbol_told self.now))) }
    {
        match self.kind {
            SymbolKind::Datum => self.datum_size(),
            SymbolKind::Section => u32_size(u64::from(self.index)),
            SymbolKind::Function | SymbolKind::GlobalVar | SymbolKind::Table => self.indexed_size(),
        }
    }
}

impl Item for SymbolRow<'_> {
    ghost use Rattle.partial_bytes.specs.Items.{symbol_row};
    ghost use Rattle.partial_bytes.specs.Some.{symbol_some};

    ghost spelled = { symbol_row };

    ghost some = { symbol_some };

    fn size(&self) -> u64 {
        plus(1 + u32_size(u64::from(self.flags)), self.rest_size())
    }

    fn put(&self, at: usize, out: &mut [u8]) -> usize {
        let at = put_byte(self.kind.code(), at, out);
        let at = put_number(self.flags, at, out);
        self.put_rest(at, out)
    }
}
