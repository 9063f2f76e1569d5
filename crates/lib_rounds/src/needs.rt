//! Which names an object seems to need: a guess from its bytes, that takes no memory. What is broken
//! ends it.

use leb_codec::read_u32;
use linking_section::{EXPLICIT_NAME, SymbolKind, UNDEFINED, WEAK};

/// The id of a custom section.
const CUSTOM: u8 = 0;

/// The id of the import section.
const IMPORT: u8 = 2;

/// The part of a section `linking` that has the symbols.
const SYMBOL_TABLE: u8 = 8;

/// Bytes that are read from the front.
#[derive(Clone, Copy)]
struct Bytes<'a> {
    left: &'a [u8],
}

impl<'a> Bytes<'a> {
    fn byte(&mut self) -> Option<u8> {
        match self.left {
            [byte, rest @ ..] => {
                self.left = rest;
                Some(*byte)
            }
            [] => None,
        }
    }

    fn number(&mut self) -> Option<u32> {
        let (number, used) = read_u32(self.left).ok()?;
        self.left = &self.left[used..];
        Some(number)
    }

    /// So many bytes.
    fn take(&mut self, count: u32) -> Option<&'a [u8]> {
        let count = count as usize;
        if count > self.left.len() {
            return None;
        }
        let (front, back) = self.left.split_at(count);
        self.left = back;
        Some(front)
    }

    /// Bytes behind their number: a name, or what a section holds.
    fn sized(&mut self) -> Option<&'a [u8]> {
        let count = self.number()?;
        self.take(count)
    }

    fn limits(&mut self) -> Option<()> {
        let flags = self.byte()?;
        self.number()?;
        if flags & 1 == 1 {
            self.number()?;
        }
        Some(())
    }

    /// The field of an import.
    fn import(&mut self) -> Option<&'a [u8]> {
        self.sized()?;
        let field = self.sized()?;
        match self.byte()? {
            0 => {
                self.number()?;
            }
            1 => {
                self.byte()?;
                self.limits()?;
            }
            2 => self.limits()?,
            _ => {
                self.take(2)?;
            }
        }
        Some(field)
    }

    /// A datum that isn't defined and isn't WEAK has its name here. Of any other symbol it is empty.
    fn symbol(&mut self) -> Option<&'a [u8]> {
        let kind = self.byte()?;
        let flags = self.number()?;
        let is_defined = flags & UNDEFINED == 0;
        if kind == SymbolKind::Datum.code() {
            let name = self.sized()?;
            if is_defined {
                self.number()?;
                self.number()?;
                self.number()?;
            }
            let is_needed = !is_defined && flags & WEAK == 0;
            return Some(if is_needed { name } else { &[] });
        }
        self.number()?;
        if kind != SymbolKind::Section.code() && (is_defined || flags & EXPLICIT_NAME != 0) {
            self.sized()?;
        }
        Some(&[])
    }
}

/// The parts behind one another, each an id and its bytes: that of an id, if there is one.
fn part<'a>(bytes: &'a [u8], id: u8, name: &[u8]) -> Option<Bytes<'a>> {
    let mut rest = Bytes { left: bytes };
    for _ in 0..bytes.len() {
        let own = rest.byte()?;
        let mut part = Bytes {
            left: rest.sized()?,
        };
        if own == id && (name.is_empty() || part.sized()? == name) {
            return Some(part);
        }
    }
    None
}

/// Entries behind their count.
#[derive(Clone, Copy)]
struct Entries<'a> {
    count: u32,
    bytes: Bytes<'a>,
}

impl<'a> Entries<'a> {
    fn of(bytes: Option<Bytes<'a>>) -> Entries<'a> {
        let mut bytes = bytes.unwrap_or(Bytes { left: &[] });
        let count = bytes.number().unwrap_or(0);
        Entries { count, bytes }
    }

    /// Whether there is one more, which is counted.
    fn is_more(&mut self) -> bool {
        match self.count.checked_sub(1) {
            Some(count) => {
                self.count = count;
                true
            }
            None => false,
        }
    }
}

/// The names that an object seems to need: those of its imports, and of data that it doesn't define.
#[derive(Clone, Copy)]
pub struct Needs<'a> {
    imports: Entries<'a>,
    symbols: Entries<'a>,
}

impl<'a> Needs<'a> {
    /// Those of an object of these bytes.
    pub fn of(object: &'a [u8]) -> Needs<'a> {
        let sections = object.get(8..).unwrap_or(&[]);
        Needs {
            imports: Entries::of(part(sections, IMPORT, &[])),
            symbols: Entries::of(symbols(sections)),
        }
    }

    /// The next name, or an empty one.
    pub fn next(&mut self) -> Option<&'a [u8]> {
        if self.imports.is_more() {
            return self.imports.bytes.import();
        }
        if self.symbols.is_more() {
            return self.symbols.bytes.symbol();
        }
        None
    }
}

/// The symbols of a section `linking`, behind their count.
fn symbols(sections: &[u8]) -> Option<Bytes<'_>> {
    let mut linking = part(sections, CUSTOM, b"linking".as_slice())?;
    linking.number()?;
    part(linking.left, SYMBOL_TABLE, &[])
}
