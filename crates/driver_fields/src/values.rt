//! What is wrong with the values of options. Each is judged alone, so that the line names its word.
ghost use Rattle.std.specs.Prelude.{◌≡◌};
ghost use Rattle.driver_fields.specs.Values.{number_fault as number_fault_of, only as only_of, threads_fault as threads_fault_of, machine_fault as machine_fault_of, is_unresolved as is_unresolved_of, value_fault as value_fault_of, values_fault as values_fault_of};

use driver_table::{Item, Line, Meaning, amount, is_decimal};

/// The line that refuses the first item whose value is wrong, or that asks for what isn't supported.
pub fn values_fault<'a>(items: &[Item<'a>]) -> Option<Line<'a>>
    ensures { result ≡ values_fault_of items.now }
{
    for item in items {
        if let Some(line) = value_fault(item) {
            return Some(line);
        }
    }
    None
}

fn value_fault<'a>(item: &Item<'a>) -> Option<Line<'a>>
    ensures { result ≡ value_fault_of item.now }
{
    let value = item.value();
    let spelling = item.spelling();
    match item.meaning() {
        Meaning::Refuse => Some(Line::new(spelling, " is not supported", "", "")),
        Meaning::GlobalBase | Meaning::InitialMemory | Meaning::MaxMemory | Meaning::StackSize =>
            number_fault(value, spelling),
        Meaning::Threads => threads_fault(value),
        Meaning::Quoting if value == "posix" => None,
        Meaning::Quoting => Some(Line::new("--rsp-quoting=", value, " is not supported", "")),
        Meaning::TableBase => only(0, 1, "the table begins at 1", value, spelling),
        Meaning::PageSize => only(65_536, 65_536, "pages have 65536 bytes", value, spelling),
        Meaning::InitialHeap => only(0, 0, "use --initial-memory", value, spelling),
        Meaning::Machine => machine_fault(value),
        Meaning::Unresolved if is_unresolved(value) => None,
        Meaning::Unresolved => {
            Some(Line::new("unknown --unresolved-symbols value: ", value, "", ""))
        }
        _ => None,
    }
}

fn number_fault<'a>(value: &'a str, spelling: &'a str) -> Option<Line<'a>>
    ensures { result ≡ number_fault_of value.now spelling.now }
{
    if is_decimal(value) {
        return None;
    }
    Some(Line::new(spelling, ": number expected, but got '", value, "'"))
}

// A number that may be one of two.
fn only<'a>(a: u64, b: u64, why: &'a str, value: &'a str, spelling: &'a str) -> Option<Line<'a>>
    ensures { result ≡ only_of a b why.now value.now spelling.now }
{
    if let Some(line) = number_fault(value, spelling) {
        return Some(line);
    }
    let n = amount(value.as_bytes());
    if n == a || n == b {
        return None;
    }
    Some(Line::new(spelling, " is not supported: ", why, ""))
}

fn threads_fault<'a>(value: &'a str) -> Option<Line<'a>>
    ensures { result ≡ threads_fault_of value.now }
{
    if is_decimal(value) && amount(value.as_bytes()) != 0 {
        return None;
    }
    Some(Line::new(
        "--threads: expected a positive integer, but got '",
        value,
        "'",
        "",
    ))
}

fn machine_fault<'a>(value: &'a str) -> Option<Line<'a>>
    ensures { result ≡ machine_fault_of value.now }
{
    if value == "wasm64" {
        return Some(Line::new(value, " is not supported", "", ""));
    }
    if value == "wasm32" {
        return None;
    }
    Some(Line::new("invalid target architecture: ", value, "", ""))
}

// What may become of unresolved names.
fn is_unresolved(value: &str) -> bool
    ensures { result ≡ is_unresolved_of value.now }
{
    value == "report-all" || value == "ignore-all" || value == "import-dynamic"
}
