//! The words of lines that depend on what a fault tells.
ghost use Rattle.std.specs.Prelude.{◌≡◌};
ghost use Rattle.std.specs.Option.{option_map};
ghost use Rattle.driver_lines.specs.Words.{is_entry as is_entry_of, overflow_front as overflow_front_of, overflow_end as overflow_end_of, relocation_name as relocation_name_of};

use wl_base::What;

/// Whether the name is the entry's.
pub fn is_entry(entry: Option<&str>, name: &[u8]) -> bool
    ensures { result ≡ is_entry_of (option_map (λ e. e.now) entry.entry) name.now }
{
    match entry {
        Some(entry) => entry.as_bytes() == name,
        None => false,
    }
}

/// What stands in front of the number that passes its limit.
pub fn overflow_front(what: What) -> &'static str
    ensures { result.now ≡ overflow_front_of what }
{
    match what {
        What::DataEnd => "memory too small for data, ",
        What::HeapBase => "memory too small, ",
        What::MaxMemory => "maximum memory too small, ",
        What::TableSize => "table too large, ",
        What::OutputLength => "output too large, ",
        What::Reference => "relocation out of range: ",
    }
}

/// What stands behind it.
pub fn overflow_end(what: What) -> &'static str
    ensures { result.now ≡ overflow_end_of what }
{
    match what {
        What::DataEnd | What::HeapBase | What::MaxMemory | What::OutputLength => " bytes needed\n",
        What::TableSize => " slots needed\n",
        What::Reference => "\n",
    }
}

/// The name of a relocation that needs a fixed address.
pub fn relocation_name(kind: u8) -> &'static str
    ensures { result.now ≡ relocation_name_of kind }
{
    if kind == 1 {
        "R_WASM_TABLE_INDEX_SLEB"
    } else if kind == 3 {
        "R_WASM_MEMORY_ADDR_LEB"
    } else if kind == 4 {
        "R_WASM_MEMORY_ADDR_SLEB"
    } else if kind == 11 {
        "R_WASM_MEMORY_ADDR_REL_SLEB"
    } else if kind == 12 {
        "R_WASM_TABLE_INDEX_REL_SLEB"
    } else {
        "of an absolute address"
    }
}
