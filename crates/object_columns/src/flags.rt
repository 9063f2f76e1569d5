//! What a lent symbol is by its flags.
ghost use Rattle.std.specs.Prelude.{◌≡◌};
ghost use Rattle.linking_section.specs.Flags.{has_bit, is_weak, is_local, is_undefined, is_explicit, is_definition, is_local_definition, is_strong_reference};
ghost use Rattle.object_columns.specs.Seen.{symbol_seen};

use crate::symbols::SymbolRef;
use linking_section::{EXPLICIT_NAME, LOCAL, UNDEFINED, WEAK};

/// Whether the flags have this bit.
fn has_bit(bit: u32, flags: u32) -> bool
    ensures { result ≡ has_bit bit flags }
{
    flags & bit != 0
}

impl SymbolRef<'_> {
    /// Whether it is weak.
    pub fn is_weak(self) -> bool
        ensures { result ≡ is_weak (symbol_seen self.entry) }
    {
        has_bit(WEAK, self.flags)
    }

    /// Whether other objects don't see it.
    pub fn is_local(self) -> bool
        ensures { result ≡ is_local (symbol_seen self.entry) }
    {
        has_bit(LOCAL, self.flags)
    }

    /// Whether it is a reference.
    pub fn is_undefined(self) -> bool
        ensures { result ≡ is_undefined (symbol_seen self.entry) }
    {
        has_bit(UNDEFINED, self.flags)
    }

    /// Whether its name stands with it though it is a reference.
    pub fn is_explicit(self) -> bool
        ensures { result ≡ is_explicit (symbol_seen self.entry) }
    {
        has_bit(EXPLICIT_NAME, self.flags)
    }

    /// Whether it is a definition that other objects see.
    pub fn is_definition(self) -> bool
        ensures { result ≡ is_definition (symbol_seen self.entry) }
    {
        self.name.is_some() && !self.is_undefined() && !self.is_local()
    }

    /// Whether it is a definition that other objects don't see.
    pub fn is_local_definition(self) -> bool
        ensures { result ≡ is_local_definition (symbol_seen self.entry) }
    {
        self.is_local() && !self.is_undefined()
    }

    /// Whether it is a reference without WEAK, for which library members and lazy objects are loaded.
    pub fn is_strong_reference(self) -> bool
        ensures { result ≡ is_strong_reference (symbol_seen self.entry) }
    {
        self.name.is_some() && self.is_undefined() && !self.is_weak()
    }
}
