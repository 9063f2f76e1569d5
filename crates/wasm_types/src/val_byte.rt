//! Value types as keys: they are the same where their bytes are.
ghost use Rattle.std.specs.Prelude.{◌≡◌};
ghost use Rattle.std.specs.Cmp.{on_equiv, on_per};
ghost use Rattle.std.specs.Hash as fed;
ghost use Rattle.std.specs.Cmp.Rules.{comparing, hashing};
ghost use Rattle.std.proofs.Common.{rules};
ghost use Rattle.wasm_types.specs.Types.{val_byte};
ghost use Rattle.wasm_types.specs.Same.{same_val};

use crate::value::ValType;
use std::hash::{Hash, Hasher};

impl ValType {
    /// The byte that spells the type (Core 5.3.1).
    pub fn byte(self) -> u8
        ensures { result ≡ val_byte self }
    {
        match self {
            ValType::I32 => 0x7f,
            ValType::I64 => 0x7e,
            ValType::F32 => 0x7d,
            ValType::F64 => 0x7c,
        }
    }
}

impl PartialEq for ValType {
    ghost eq = { same_val };

    ghost laws = { Prim.search (comparing, rules) };

    fn eq(&self, other: &ValType) -> bool {
        self.byte() == other.byte()
    }
}

impl Eq for ValType {
    ghost laws = { Prim.search (comparing, rules) };
}

impl Hash for ValType {
    ghost hash_input = { λ t. fed.u8 (val_byte t) };

    ghost respects_eq = { Prim.search (hashing, rules) };

    fn hash<H: Hasher>(&self, state: &mut H) {
        self.byte().hash(state);
    }
}
