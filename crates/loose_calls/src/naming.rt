//! The names of variants.
ghost use Rattle.std.specs.Prelude.{◌≡◌, ◌∷◌, ◌++◌, map, OnOk, IfOk};
ghost use Rattle.program_tables.specs.link_program.wasm_types.Types.{val_byte};
ghost use Rattle.program_tables.specs.link_program.object_columns.Seen.{func_type_seen};
ghost use Rattle.program_tables.specs.link_program.link_rules.Program.{variant_name};

use program_tables::FuncTypeRef;
use std::alloc::Global;
use wasm_types::ValType;
use wl_base::{Name, OutOfMemory, Seq};

/// What the parts of such a name begin with: it stands in no UTF-8, and is the byte of no type.
const MARK: u8 = 0xFF;

/// Puts the bytes of types at the end (Core 5.3.1).
fn add_bytes(bytes: &mut Seq<u8>, types: &[ValType]) -> Result<(), OutOfMemory>
    ensures { OnOk result (bytes.new ≡ bytes.old ++ map val_byte types.now) }
{
    for t in types {
        bytes.push(t.byte())?;
    }
    Ok(())
}

/// Puts the mark and the bytes of types at the end.
fn add_types(bytes: &mut Seq<u8>, types: &[ValType]) -> Result<(), OutOfMemory>
    ensures { OnOk result (bytes.new ≡ bytes.old ++ 255 ∷ map val_byte types.now) }
{
    bytes.push(MARK)?;
    add_bytes(bytes, types)?;
    Ok(())
}

/// The name of a function for the calls of this type.
pub(crate) fn variant_name(
    alloc: Global,
    t: FuncTypeRef<'_>,
    name: &[u8],
) -> Result<Name, OutOfMemory>
    ensures { IfOk result (λ bytes. bytes ≡ variant_name (func_type_seen t.entry) name.now) }
{
    let mut bytes = Seq::new(alloc);
    add_types(&mut bytes, t.params)?;
    add_types(&mut bytes, t.results)?;
    bytes.push(MARK)?;
    bytes.extend_from_slice(name)?;
    Ok(bytes)
}
