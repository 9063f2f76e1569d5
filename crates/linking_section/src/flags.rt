//! The flags of symbols and segments (Linking.md, 'Linking Metadata Section').
ghost use Rattle.std.specs.Prelude.{◌≡◌};
ghost use Rattle.linking_section.specs.Flags.{has_bit, is_foreign_symbol, is_foreign_segment, is_named, is_weak, is_local, is_hidden, is_undefined, is_exported, is_explicit, is_no_strip, is_definition, is_local_definition, is_strong_reference};

use crate::symbol::Symbol;

/// A symbol that another definition of its name replaces, or a reference that may stay without one.
pub const WEAK: u32 = 0x01;
/// A symbol that other objects don't see.
pub const LOCAL: u32 = 0x02;
/// A symbol that isn't exported by default.
pub const HIDDEN: u32 = 0x04;
/// A reference.
pub const UNDEFINED: u32 = 0x10;
/// A symbol that is exported.
pub const EXPORTED: u32 = 0x20;
/// A reference whose name stands with it, and isn't that of its import.
pub const EXPLICIT_NAME: u32 = 0x40;
/// A symbol that is kept though nothing reaches it.
pub const NO_STRIP: u32 = 0x80;
/// A symbol of thread-local storage.
pub const TLS: u32 = 0x100;
/// A symbol whose value is no address.
pub const ABSOLUTE: u32 = 0x200;
/// The bit of a symbol that has no name.
const NAMELESS: u32 = 0x08;

/// A segment of strings that end in a byte 0.
pub const STRINGS: u32 = 1;
/// A segment of thread-local storage.
pub const THREAD_LOCAL: u32 = 2;
/// A segment that is kept though nothing reaches it.
pub const RETAIN: u32 = 4;

/// Whether the flags have this bit.
fn has_bit(bit: u32, flags: u32) -> bool
    ensures { result ≡ has_bit bit flags }
{
    flags & bit != 0
}

/// Whether a symbol of these flags isn't linked: they have TLS, ABSOLUTE, a bit without a name, or
/// WEAK and LOCAL together.
pub(crate) fn is_foreign_symbol(flags: u32) -> bool
    ensures { result ≡ is_foreign_symbol flags }
{
    has_bit(TLS, flags)
        || has_bit(ABSOLUTE, flags)
        || has_bit(NAMELESS, flags)
        || 2 * ABSOLUTE <= flags
        || (has_bit(WEAK, flags) && has_bit(LOCAL, flags))
}

/// Whether a segment of these flags isn't linked: they have TLS, or a bit without a name.
pub(crate) fn is_foreign_segment(flags: u32) -> bool
    ensures { result ≡ is_foreign_segment flags }
{
    has_bit(THREAD_LOCAL, flags) || 2 * RETAIN <= flags
}

/// Whether the name of a function, global or table of these flags stands with the symbol.
pub(crate) fn is_named(flags: u32) -> bool
    ensures { result ≡ is_named flags }
{
    !has_bit(UNDEFINED, flags) || has_bit(EXPLICIT_NAME, flags)
}

impl Symbol {
    /// Whether it is weak.
    pub fn is_weak(&self) -> bool
        ensures { result ≡ is_weak self.now }
    {
        has_bit(WEAK, self.flags)
    }

    /// Whether other objects don't see it.
    pub fn is_local(&self) -> bool
        ensures { result ≡ is_local self.now }
    {
        has_bit(LOCAL, self.flags)
    }

    /// Whether it isn't exported by default.
    pub fn is_hidden(&self) -> bool
        ensures { result ≡ is_hidden self.now }
    {
        has_bit(HIDDEN, self.flags)
    }

    /// Whether it is a reference.
    pub fn is_undefined(&self) -> bool
        ensures { result ≡ is_undefined self.now }
    {
        has_bit(UNDEFINED, self.flags)
    }

    /// Whether it is exported.
    pub fn is_exported(&self) -> bool
        ensures { result ≡ is_exported self.now }
    {
        has_bit(EXPORTED, self.flags)
    }

    /// Whether its name stands with it though it is a reference.
    pub fn is_explicit(&self) -> bool
        ensures { result ≡ is_explicit self.now }
    {
        has_bit(EXPLICIT_NAME, self.flags)
    }

    /// Whether it is kept though nothing reaches it.
    pub fn is_no_strip(&self) -> bool
        ensures { result ≡ is_no_strip self.now }
    {
        has_bit(NO_STRIP, self.flags)
    }

    /// Whether it is a definition that other objects see.
    pub fn is_definition(&self) -> bool
        ensures { result ≡ is_definition self.now }
    {
        self.name.is_some() && !self.is_undefined() && !self.is_local()
    }

    /// Whether it is a definition that other objects don't see.
    pub fn is_local_definition(&self) -> bool
        ensures { result ≡ is_local_definition self.now }
    {
        self.is_local() && !self.is_undefined()
    }

    /// Whether it is a reference that has to be resolved.
    pub fn is_strong_reference(&self) -> bool
        ensures { result ≡ is_strong_reference self.now }
    {
        self.name.is_some() && self.is_undefined() && !self.is_weak()
    }
}
