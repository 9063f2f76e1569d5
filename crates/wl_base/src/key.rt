//! Names as keys of tables.
ghost use Rattle.std.specs.Prelude.{◌≡◌, IfOk};

use crate::OutOfMemory;
use indexmap::Equivalent;
use std::alloc::Global;
use std::hash::{Hash, Hasher};
use std::marker::Model;

/// A name that a table keeps. Its bytes are hashed by one call, 16 at a time, where a list of bytes is hashed byte by byte.
#[derive(Drop)]
pub struct Key {
    bytes: Vec<u8>,
}

impl Model for Key {
    ghost use Rattle.std.specs.Prelude.{List, ℕ};
    ghost use Rattle.std.specs.Coded.{coded_list};

    ghost Value = { List ℕ };

    ghost view = { λ k. k.bytes.items };
}

/// A name that is looked for in a table.
#[derive(Clone, Copy)]
pub struct KeyRef<'a> {
    /// The name.
    pub bytes: &'a [u8],
}

impl Key {
    /// The key of this name.
    pub fn new(alloc: Global, name: &[u8]) -> Result<Key, OutOfMemory>
        ensures { IfOk result (λ key. key ≡ name.now) }
    {
        Ok(Key {
            bytes: Vec::from_slice(alloc, name)?,
        })
    }

    /// The name.
    pub fn as_slice(&self) -> &[u8]
        ensures { result.now ≡ self.now }
    {
        self.bytes.as_slice()
    }
}

impl PartialEq for Key {
    ghost use Rattle.std.specs.Str.{bytes_eq};
    ghost use Rattle.std.specs.Cmp.{partial_equiv_from_equiv};
    ghost use Rattle.std.specs.Cmp.Lexicographic.{nat_list_eq_equiv};

    ghost eq = { bytes_eq };

    ghost laws = { partial_equiv_from_equiv nat_list_eq_equiv };

    fn eq(&self, other: &Self) -> bool {
        self.as_slice() == other.as_slice()
    }
}

impl Eq for Key {
    ghost use Rattle.std.specs.Cmp.Lexicographic.{nat_list_eq_equiv};

    ghost laws = { nat_list_eq_equiv };
}

impl Hash for Key {
    ghost use Rattle.std.specs.Prelude.{◌∷◌, []};
    ghost use Rattle.std.proofs.Common.{ap};
    ghost use Rattle.std.specs.Cmp.Lexicographic.{bytes_decides};

    ghost hash_input = { λ key. key ∷ [] };

    ghost respects_eq = { λ x y same. ap (λ key. key ∷ []) ((bytes_decides x y).0 same) };

    fn hash<H: Hasher>(&self, state: &mut H) {
        state.write(self.as_slice());
    }
}

impl PartialEq for KeyRef<'_> {
    ghost use Rattle.std.specs.Str.{bytes_eq};
    ghost use Rattle.std.specs.Cmp.{partial_equiv_from_equiv, on_per};
    ghost use Rattle.std.specs.Cmp.Lexicographic.{nat_list_eq_equiv};

    ghost eq = { λ x y. bytes_eq x.bytes.now y.bytes.now };

    ghost laws = { on_per (λ x. x.bytes.now) (partial_equiv_from_equiv nat_list_eq_equiv) };

    fn eq(&self, other: &Self) -> bool {
        self.bytes == other.bytes
    }
}

impl Eq for KeyRef<'_> {
    ghost use Rattle.std.specs.Cmp.{on_equiv};
    ghost use Rattle.std.specs.Cmp.Lexicographic.{nat_list_eq_equiv};

    ghost laws = { on_equiv (λ x. x.bytes.now) nat_list_eq_equiv };
}

impl Hash for KeyRef<'_> {
    ghost use Rattle.std.specs.Prelude.{◌∷◌, []};
    ghost use Rattle.std.proofs.Common.{ap};
    ghost use Rattle.std.specs.Cmp.Lexicographic.{bytes_decides};

    ghost hash_input = { λ key. key.bytes.now ∷ [] };

    ghost respects_eq = { λ x y same. ap (λ key. key ∷ []) ((bytes_decides x.bytes.now y.bytes.now).0 same) };

    fn hash<H: Hasher>(&self, state: &mut H) {
        state.write(self.bytes);
    }
}

impl Equivalent<Key> for KeyRef<'_> {
    ghost use Rattle.std.specs.Prelude.{◌∷◌, []};
    ghost use Rattle.std.specs.Str.{bytes_eq};
    ghost use Rattle.std.proofs.Common.{ap};
    ghost use Rattle.std.specs.Cmp.Lexicographic.{bytes_decides, nat_list_eq_equiv};

    ghost equivalent = { λ q key. bytes_eq q.bytes.now key };

    ghost respects_hash = { λ q key same. ap (λ k. k ∷ []) ((bytes_decides q.bytes.now key).0 same) };

    ghost respects_eq = { λ q x y. nat_list_eq_equiv.congr q.bytes.now x y };

    fn equivalent(&self, key: &Key) -> bool {
        self.bytes == key.as_slice()
    }
}
