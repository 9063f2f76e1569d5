//! The memory behind a text: how many pages it has, and a row for each 16 bytes that aren't all 0.
ghost use Rattle.std.specs.Prelude.{◌≡◌, ◌++◌, OnOk, ◌+◌, ◌*◌, ◌/◌, ◌==◌, length, take, drop};
ghost use Rattle.std.specs.List.{flat_map, list_all};
ghost use Rattle.run_text.specs.Text.{row_text, rows_from, memory_text, hex2};

use crate::digits::{put_hex2, put_hex8, put_number, put_text};
use wl_base::{OutOfMemory, Seq};

// The bytes of a row.
const ROW: usize = 16;

// The bytes of a page.
const PAGE: u64 = 65_536;

// Whether all bytes are 0.
fn is_zero(bytes: &[u8]) -> bool
    ensures { result ≡ list_all (λ b. b == 0) bytes.now }
{
    bytes.iter().all(|b| *b == 0)
}

// Puts two digits a byte.
fn put_bytes(to: &mut Seq<u8>, bytes: &[u8]) -> Result<(), OutOfMemory>
    ensures { OnOk result (to.new ≡ to.old ++ flat_map hex2 bytes.now) }
{
    for byte in bytes {
        put_hex2(to, *byte)?;
    }
    Ok(())
}

// Puts the row of these bytes, which begin at an address.
fn put_row(to: &mut Seq<u8>, at: u64, bytes: &[u8]) -> Result<(), OutOfMemory>
    ensures { OnOk result (to.new ≡ to.old ++ row_text at bytes.now) }
{
    if is_zero(bytes) {
        return Ok(());
    }
    put_hex8(to, at)?;
    to.push(b' ')?;
    put_bytes(to, bytes)?;
    to.push(b'\n')
}

// Puts all rows.
#[tactic(auto, using(crate::proofs::Rows::one_row))]
fn put_rows(to: &mut Seq<u8>, memory: &[u8]) -> Result<(), OutOfMemory>
    ensures { OnOk result (to.new ≡ to.old ++ rows_from (length memory.now / 16) 0 memory.now) }
{
    let count = memory.len() / ROW;
    for k in 0..count {
        put_row(to, (k * ROW) as u64, &memory[k * ROW..][..ROW])?;
    }
    Ok(())
}

/// Puts the pages and all rows.
pub fn put_memory(to: &mut Seq<u8>, memory: &[u8]) -> Result<(), OutOfMemory>
    ensures { OnOk result (to.new ≡ to.old ++ memory_text memory.now) }
{
    put_text(to, "memory ")?;
    put_number(to, memory.len() as u64 / PAGE)?;
    to.push(b'\n')?;
    put_rows(to, memory)
}
