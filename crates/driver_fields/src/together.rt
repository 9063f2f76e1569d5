//! What all words together lack. Faults are looked for in one fixed order, and the first is told.
ghost use Rattle.std.specs.Prelude.{◌≡◌, ◌<◌};
ghost use Rattle.std.specs.Option.{option_map};
ghost use Rattle.driver_fields.specs.Lacking.{output_fault as output_fault_of, beside_partial as beside_partial_of, partial_fault as partial_fault_of, import_fault as import_fault_of, export_fault as export_fault_of, memory_fault as memory_fault_of, range_fault as range_fault_of, ranges_fault as ranges_fault_of, within_stack as within_stack_of, lacking as lacking_of};

use crate::fields::{
    exported, has, has_input, imported, is_on, is_partial, is_shared, number, stack_first,
    stack_size, text,
};
use driver_table::{Item, Line, Meaning, amount};

/// The line that refuses what all words together lack, the first alone.
#[tactic(auto, unfolding(crate::specs::Lacking::lacking))]
pub fn lacking<'a>(items: &[Item<'a>]) -> Option<Line<'a>>
    ensures { result ≡ lacking_of items.now }
{
    if let Some(line) = output_fault(text(items, Meaning::Output)) {
        return Some(line);
    }
    if let Some(line) = partial_fault(items) {
        return Some(line);
    }
    if let Some(line) = memory_fault(items) {
        return Some(line);
    }
    if let Some(line) = ranges_fault(items) {
        return Some(line);
    }
    if within_stack(items) {
        return Some(Line::new(
            "--global-base cannot be less than stack size when --stack-first is used",
            "",
            "",
            "",
        ));
    }
    if !has_input(items) {
        return Some(Line::new("no input files", "", "", ""));
    }
    None
}

fn output_fault(name: Option<&str>) -> Option<Line<'_>>
    ensures { result ≡ output_fault_of (option_map (λ t. t.now) name.entry) }
{
    let Some(name) = name else {
        return Some(Line::new("no output file specified", "", "", ""));
    };
    if name.is_empty() {
        return Some(Line::new("no output file specified", "", "", ""));
    }
    if name == "-" {
        return Some(Line::new("-o - is not supported", "", "", ""));
    }
    None
}

// What an object in place of a module can't have.
#[tactic(auto, unfolding(crate::specs::Lacking::beside_partial))]
fn beside_partial<'a>(items: &[Item<'a>]) -> Option<Line<'a>>
    ensures { result ≡ beside_partial_of items.now }
{
    if has(items, Meaning::ExportTable) {
        return Some(Line::new(
            "--relocatable is incompatible with --export-table",
            "",
            "",
            "",
        ));
    }
    if is_on(items, Meaning::Entry, Meaning::NoEntry, false) {
        return Some(Line::new(
            "entry point specified for relocatable output file",
            "",
            "",
            "",
        ));
    }
    if is_on(items, Meaning::GcSections, Meaning::NoGcSections, false) {
        return Some(Line::new("-r and --gc-sections may not be used together", "", "", ""));
    }
    if has(items, Meaning::Undefined) {
        return Some(Line::new("-r and --undefined may not be used together", "", "", ""));
    }
    if is_shared(items) {
        return Some(Line::new("-r and -shared may not be used together", "", "", ""));
    }
    None
}

#[tactic(auto, unfolding(crate::specs::Lacking::partial_fault))]
fn partial_fault<'a>(items: &[Item<'a>]) -> Option<Line<'a>>
    ensures { result ≡ partial_fault_of items.now }
{
    if is_partial(items) {
        return beside_partial(items);
    }
    None
}

fn import_fault(name: Option<&str>) -> Option<Line<'_>>
    ensures { result ≡ import_fault_of (option_map (λ t. t.now) name.entry) }
{
    let Some(name) = name else {
        return None;
    };
    if name == "memory" || name == "env,memory" {
        return None;
    }
    Some(Line::new(
        "--import-memory=",
        name,
        " is not supported: the memory is env.memory",
        "",
    ))
}

fn export_fault(name: Option<&str>) -> Option<Line<'_>>
    ensures { result ≡ export_fault_of (option_map (λ t. t.now) name.entry) }
{
    let Some(name) = name else {
        return None;
    };
    if name == "memory" {
        return None;
    }
    Some(Line::new(
        "--export-memory=",
        name,
        " is not supported: the memory is exported as memory",
        "",
    ))
}

// What words say of the memory that it can't be.
#[tactic(auto, unfolding(crate::specs::Lacking::memory_fault))]
fn memory_fault<'a>(items: &[Item<'a>]) -> Option<Line<'a>>
    ensures { result ≡ memory_fault_of items.now }
{
    if let Some(line) = import_fault(imported(items)) {
        return Some(line);
    }
    if imported(items).is_some() && exported(items).is_some() {
        return Some(Line::new(
            "--import-memory with --export-memory is not supported",
            "",
            "",
            "",
        ));
    }
    if let Some(line) = export_fault(exported(items)) {
        return Some(line);
    }
    let fixed = has(items, Meaning::NoGrowableMemory);
    if fixed && number(items, Meaning::MaxMemory) != 0 {
        return Some(Line::new(
            "--max-memory is incompatible with --no-growable-memory",
            "",
            "",
            "",
        ));
    }
    if fixed && number(items, Meaning::InitialMemory) == 0 {
        return Some(Line::new(
            "--no-growable-memory without --initial-memory is not supported",
            "",
            "",
            "",
        ));
    }
    None
}

// A number that is too large for its option, or none of whole units.
fn range_fault<'a>(
    name: &'a str,
    most: u64,
    unit: u64,
    spelled: &'a str,
    value: Option<&'a str>,
) -> Option<Line<'a>>
    requires { 0 < unit }
    ensures { result ≡ range_fault_of name.now most unit spelled.now (option_map (λ t. t.now) value.entry) }
{
    let Some(value) = value else {
        return None;
    };
    let n = amount(value.as_bytes());
    if n > most {
        return Some(Line::new(name, "=", value, " is too large"));
    }
    if n % unit != 0 {
        return Some(Line::new(name, " must be a multiple of ", spelled, ""));
    }
    None
}

// The first number that its option can't have.
#[tactic(auto, unfolding(crate::specs::Lacking::ranges_fault))]
fn ranges_fault<'a>(items: &[Item<'a>]) -> Option<Line<'a>>
    ensures { result ≡ ranges_fault_of items.now }
{
    let base = text(items, Meaning::GlobalBase);
    if let Some(line) = range_fault("--global-base", (1 << 32) - 1, 1, "1", base) {
        return Some(line);
    }
    let least = text(items, Meaning::InitialMemory);
    if let Some(line) = range_fault("--initial-memory", 1 << 32, 65_536, "65536", least) {
        return Some(line);
    }
    let most = text(items, Meaning::MaxMemory);
    if let Some(line) = range_fault("--max-memory", 1 << 32, 65_536, "65536", most) {
        return Some(line);
    }
    let stack = text(items, Meaning::StackSize);
    range_fault("-z stack-size", (1 << 32) - 16, 16, "16", stack)
}

// Whether the data begin within the stack.
fn within_stack(items: &[Item<'_>]) -> bool
    ensures { result ≡ within_stack_of items.now }
{
    let base = number(items, Meaning::GlobalBase);
    stack_first(items) && base != 0 && base < stack_size(items).unwrap_or(65_536)
}
