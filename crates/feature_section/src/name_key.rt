//! Names as keys that are kept in the order of their bytes.
ghost use Rattle.std.specs.Prelude.{◌≡◌, IfOk};

use std::alloc::Global;
use std::cmp::Ordering;
use std::collections::btree_map::Comparable;
use std::marker::Model;
use wl_base::{Name, OutOfMemory, Seq};

/// A name that a set keeps.
#[derive(Drop)]
pub(crate) struct NameKey {
    name: Name,
}

impl Model for NameKey {
    ghost use Rattle.std.specs.Prelude.{List, ℕ};

    ghost Value = { List ℕ };

    ghost view = { λ k. k.name };
}

impl NameKey {
    /// The key of this name.
    pub(crate) fn new(alloc: Global, name: &[u8]) -> Result<NameKey, OutOfMemory>
        ensures { IfOk result (λ key. key ≡ name.now) }
    {
        Ok(NameKey {
            name: Seq::from_slice(alloc, name)?,
        })
    }

    /// The name.
    pub(crate) fn as_slice(&self) -> &[u8]
        ensures { result.now ≡ self.now }
    {
        self.name.as_slice()
    }
}

impl PartialEq for NameKey {
    ghost use Rattle.std.specs.Str.{bytes_eq};
    ghost use Rattle.std.specs.Cmp.{partial_equiv_from_equiv};
    ghost use Rattle.std.specs.Cmp.Lexicographic.{nat_list_eq_equiv};

    ghost eq = { bytes_eq };

    ghost laws = { partial_equiv_from_equiv nat_list_eq_equiv };

    fn eq(&self, other: &Self) -> bool {
        self.as_slice() == other.as_slice()
    }
}

impl Eq for NameKey {
    ghost use Rattle.std.specs.Cmp.Lexicographic.{nat_list_eq_equiv};

    ghost laws = { nat_list_eq_equiv };
}

impl PartialOrd for NameKey {
    ghost use Rattle.std.specs.Prelude.{Some};
    ghost use Rattle.std.specs.Cmp.Lexicographic.{texts_po};
    ghost use Rattle.feature_section.specs.Union.{name_cmp};

    ghost partial_cmp = { λ x y. Some (name_cmp x y) };

    ghost laws = { texts_po };

    fn partial_cmp(&self, other: &NameKey) -> Option<Ordering> {
        Some(self.cmp(other))
    }
}

impl Ord for NameKey {
    ghost use Rattle.std.specs.Prelude.{refl};
    ghost use Rattle.std.specs.Cmp.Lexicographic.{nat_list_cmp_total, texts_ties};
    ghost use Rattle.feature_section.specs.Union.{name_cmp};

    ghost cmp = { name_cmp };

    ghost total = { nat_list_cmp_total };

    ghost matches_partial_cmp = { λ x y. refl };

    ghost matches_eq = { texts_ties };

    fn cmp(&self, other: &NameKey) -> Ordering {
        self.as_slice().cmp(other.as_slice())
    }
}

/// A name that is looked for among keys.
#[derive(Clone, Copy)]
pub(crate) struct NameRef<'a> {
    /// The name.
    pub(crate) bytes: &'a [u8],
}

impl Comparable<NameKey> for NameRef<'_> {
    ghost use Rattle.std.specs.Cmp.Lexicographic.{nat_list_cmp_total};
    ghost use Rattle.std.specs.BTreeMap.Comparable.{le_lt_trans};
    ghost use Rattle.feature_section.specs.Union.{name_cmp};

    ghost compare = { λ q. name_cmp q.bytes.now };

    ghost respects_cmp = { λ q. nat_list_cmp_total.congr q.bytes.now };

    ghost below_greater = { λ q. le_lt_trans nat_list_cmp_total q.bytes.now };

    fn compare(&self, key: &NameKey) -> Ordering {
        self.bytes.cmp(key.as_slice())
    }
}
