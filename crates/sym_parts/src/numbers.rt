//! The slots and addresses for which references stand.
ghost use Rattle.std.specs.Prelude.{◌≡◌, ◌-◌, ◌^◌, Some, slice_index_or, IfOk, pos, negsuc, ◌+ℤ◌, ◌≤ℤ◌};
ghost use Rattle.link_program.specs.linking_section.Flags.{kind_code};
ghost use Rattle.link_program.specs.reloc_apply.Windows.{bits32};
ghost use Rattle.link_program.specs.link_rules.Values.{asks};
ghost use Rattle.sym_parts.specs.Sought.{known, base_of, is_datum, slot_in, address_in, asked, number_named};

use crate::sought::Sought;
use link_program::{Lead, Named, symbol_at};
use linking_section::SymbolKind;
use reloc_section::kinds;
use wl_base::OutOfMemory;

/// What the cell of the address of the symbol at a place would hold.
#[tactic(auto, using(link_program::proofs::ReadAt::read))]
pub(crate) fn base_at(bases: &[u64], symbol: u32) -> u64
    ensures { result ≡ slice_index_or bases.now symbol 0 }
{
    match bases.get(symbol as usize) {
        Some(base) => *base,
        None => 0,
    }
}

/// Whether it is a datum.
fn is_datum(kind: SymbolKind) -> bool
    ensures { result ≡ is_datum (kind_code kind) }
{
    kind.code() == SymbolKind::Datum.code()
}

/// A number modulo 2^32.
fn bits(value: i64) -> u32
    requires { negsuc (2 ^ 31 - 1) ≤ℤ value }
    ensures { result ≡ bits32 value }
{
    if value < 0 {
        (value + 0x1_0000_0000) as u32
    } else {
        (value as u64 % 0x1_0000_0000) as u32
    }
}

/// A number and an addend, modulo 2^32. A sum of 2^63 and more is answered as want of memory.
fn moved(base: u64, addend: i32) -> Result<u32, OutOfMemory>
    ensures { IfOk result (λ n. n ≡ bits32 (pos base +ℤ addend)) }
{
    let Ok(base) = i64::try_from(base) else {
        return Err(OutOfMemory);
    };
    let Some(sum) = base.checked_add(i64::from(addend)) else {
        return Err(OutOfMemory);
    };
    if sum < -0x8000_0000 {
        return Err(OutOfMemory);
    }
    Ok(bits(sum))
}

/// The slot of what a symbol leads to.
fn slot_in(lead: Lead, base: u64) -> Result<u32, OutOfMemory>
    ensures { IfOk result (λ n. slot_in lead base ≡ Some n) }
{
    match lead {
        Lead::Here(definition) => {
            if is_datum(definition.kind) {
                return Err(OutOfMemory);
            }
            let slot = moved(base, 0)?;
            Ok(slot)
        }
        Lead::Import(_) => {
            let slot = moved(base, 0)?;
            Ok(slot)
        }
        Lead::Null => Ok(0),
        Lead::Nothing => Ok(1),
    }
}

/// The address of what a symbol leads to, with an addend.
fn address_in(lead: Lead, base: u64, addend: i32) -> Result<u32, OutOfMemory>
    ensures { IfOk result (λ n. address_in lead base addend ≡ Some n) }
{
    match lead {
        Lead::Here(definition) => {
            if !is_datum(definition.kind) {
                return Err(OutOfMemory);
            }
            let address = moved(base, addend)?;
            Ok(address)
        }
        Lead::Import(_) | Lead::Nothing => {
            let address = moved(0, addend)?;
            Ok(address)
        }
        Lead::Null => Ok(0),
    }
}

/// What a reference of a relocation's type stands for (Linking.md, "Relocation Sections").
fn asked(kind: u8, lead: Lead, base: u64, addend: i32) -> Result<u32, OutOfMemory>
    ensures { IfOk result (λ n. asked (asks kind) lead base addend ≡ Some n) }
{
    match kind {
        kinds::TABLE_INDEX_SLEB | kinds::TABLE_INDEX_I32 | kinds::TABLE_INDEX_REL_SLEB => {
            slot_in(lead, base)
        }
        kinds::MEMORY_ADDR_LEB
        | kinds::MEMORY_ADDR_SLEB
        | kinds::MEMORY_ADDR_I32
        | kinds::MEMORY_ADDR_REL_SLEB => address_in(lead, base, addend),
        _ => Err(OutOfMemory),
    }
}

/// The slot or address that an item stands for. No other item stands where a number is asked for; one is answered as want of memory.
pub(crate) fn number_named(k: Sought<'_>, named: Named) -> Result<u32, OutOfMemory>
    ensures { IfOk result (λ n. number_named (known k.entry) named ≡ Some n) }
{
    match named {
        Named::Symbol {
            kind,
            place: _,
            addend,
            symbol,
        } => {
            let lead = symbol_at(k.tables.symbols.as_slice(), symbol).lead;
            asked(kind, lead, base_at(k.bases, symbol), addend)
        }
        Named::Type {
            place: _,
            number: _,
        } => Err(OutOfMemory),
    }
}
