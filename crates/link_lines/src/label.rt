//! The names of what a line tells.
ghost use Rattle.std.specs.Prelude.{◌≡◌};
ghost use Rattle.link_lines.specs.Labels.{label_texts, library_label, item_label, what_name};

use wl_base::{Item, LibFault, What};

/// The name of a variant, with its numbers where it has any.
#[derive(Clone, Copy)]
pub enum Label {
    /// The name alone.
    Alone(&'static str),
    /// The name and a number.
    With(&'static str, u64),
    /// The name and two numbers.
    WithTwo(&'static str, u64, u64),
}

/// The label of why a file is no library.
pub fn label_of_library(fault: LibFault) -> Label
    ensures { label_texts result ≡ library_label fault }
{
    match fault {
        LibFault::NotLibrary => Label::Alone("NotLibrary"),
        LibFault::Thin => Label::Alone("Thin"),
        LibFault::BadHeader(at) => Label::With("BadHeader", at),
        LibFault::NoIndex => Label::Alone("NoIndex"),
        LibFault::BadIndex(cause) => Label::With("BadIndex", u64::from(cause)),
    }
}

/// The label of an item that isn't linked.
pub fn label_of_item(item: Item) -> Label
    ensures { label_texts result ≡ item_label item }
{
    match item {
        Item::TagSection => Label::Alone("TagSection"),
        Item::StartSection => Label::Alone("StartSection"),
        Item::DefinedMemory => Label::Alone("DefinedMemory"),
        Item::DefinedTable => Label::Alone("DefinedTable"),
        Item::MoreMemories => Label::Alone("MoreMemories"),
        Item::OtherTable => Label::Alone("OtherTable"),
        Item::TagImport => Label::Alone("TagImport"),
        Item::LimitsFlag(flag) => Label::With("LimitsFlag", u64::from(flag)),
        Item::ValueType(code) => Label::With("ValueType", u64::from(code)),
        Item::ConstExpr(opcode) => Label::With("ConstExpr", u64::from(opcode)),
        Item::PassiveSegment => Label::Alone("PassiveSegment"),
        Item::SegmentForm(flag) => Label::With("SegmentForm", u64::from(flag)),
        Item::Opcode { byte, sub } => Label::WithTwo("Opcode", u64::from(byte), u64::from(sub)),
        Item::LinkingVersion(version) => Label::With("LinkingVersion", u64::from(version)),
        Item::TagSymbol => Label::Alone("TagSymbol"),
        Item::SymbolFlags(flags) => Label::With("SymbolFlags", u64::from(flags)),
        Item::SegmentFlags(flags) => Label::With("SegmentFlags", u64::from(flags)),
        Item::RelocType(kind) => Label::With("RelocType", u64::from(kind)),
        Item::SharedModule => Label::Alone("SharedModule"),
    }
}

/// The name of the number that passes its limit.
pub fn name_of_what(what: What) -> &'static str
    ensures { result.now ≡ what_name what }
{
    match what {
        What::DataEnd => "DataEnd",
        What::HeapBase => "HeapBase",
        What::MaxMemory => "MaxMemory",
        What::TableSize => "TableSize",
        What::OutputLength => "OutputLength",
        What::Reference => "Reference",
    }
}
