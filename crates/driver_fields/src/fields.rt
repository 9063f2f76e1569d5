//! What all items together say. Each field is one pass over the items, and the last of them that
//! speaks of it decides.
ghost use Rattle.std.specs.Prelude.{◌≡◌, ◌≤◌, None, is_some};
ghost use Rattle.std.specs.Option.{option_map};
ghost use Rattle.driver_table.specs.Numbers.{too_much};
ghost use Rattle.driver_fields.specs.Fields.{has as has_of, is_on as is_on_of, text as text_of, number as number_of, entry as entry_of, latest, memory_said, imported as imported_of, exported as exported_of, allows_undefined as allows_undefined_of, ignored as ignored_of, lenient as lenient_of, stack_first as stack_first_of, stack_size as stack_size_of, max_memory as max_memory_of, threads as threads_of, has_input as has_input_of, is_partial as is_partial_of, is_shared as is_shared_of, keeps_debug as keeps_debug_of, fatal as fatal_of};

use driver_table::{Item, Line, Meaning, amount};

/// Whether there is an item of the meaning.
pub fn has(items: &[Item<'_>], meaning: Meaning) -> bool
    ensures { result ≡ has_of meaning items.now }
{
    items.iter().any(|item| item.meaning().is(meaning))
}

/// What the last of two opposite meanings decides, or what stands where there is none.
pub fn is_on(items: &[Item<'_>], on: Meaning, off: Meaning, start: bool) -> bool
    ensures { result ≡ is_on_of on off start items.now }
{
    let mut now = start;
    for item in items {
        if item.meaning().is(on) {
            now = true;
        } else if item.meaning().is(off) {
            now = false;
        }
    }
    now
}

/// The last value of an option.
pub fn text<'a>(items: &[Item<'a>], meaning: Meaning) -> Option<&'a str>
    ensures { option_map (λ t. t.now) result ≡ text_of meaning items.now }
{
    let mut last = None;
    for item in items {
        if item.meaning().is(meaning) {
            last = Some(item.value());
        }
    }
    last
}

/// The last number of an option; 0 is as if it weren't given.
pub fn number(items: &[Item<'_>], meaning: Meaning) -> u64
    ensures value { result ≡ number_of meaning items.now }
    ensures most { result ≤ too_much }
{
    let mut last = 0;
    for item in items {
        if item.meaning().is(meaning) {
            last = amount(item.value().as_bytes());
        }
    }
    last
}

/// The word that gives the entry.
pub fn entry<'a>(items: &[Item<'a>]) -> Option<Line<'a>>
    ensures { result ≡ entry_of items.now }
{
    let mut last = None;
    for item in items {
        if item.meaning().is(Meaning::Entry) {
            last = Some(Line::new("--entry=", item.value(), "", ""));
        } else if item.meaning().is(Meaning::NoEntry) {
            last = Some(Line::new("--no-entry", "", "", ""));
        }
    }
    last
}

// The name of the memory, where a word says that it is imported or exported.
fn memory<'a>(items: &[Item<'a>], plain: Meaning, named: Meaning) -> Option<&'a str>
    ensures { option_map (λ t. t.now) result ≡ latest (memory_said plain named) None items.now }
{
    let mut last = None;
    for item in items {
        if item.meaning().is(plain) {
            last = Some("memory");
        } else if item.meaning().is(named) {
            last = Some(item.value());
        }
    }
    last
}

/// The name under which the memory is imported, where a word says that it is.
pub fn imported<'a>(items: &[Item<'a>]) -> Option<&'a str>
    ensures { option_map (λ t. t.now) result ≡ imported_of items.now }
{
    memory(items, Meaning::ImportMemory, Meaning::ImportMemoryAs)
}

/// Whether a word says that the memory is imported.
pub fn imports_memory(items: &[Item<'_>]) -> bool
    ensures { result ≡ is_some (imported_of items.now) }
{
    imported(items).is_some()
}

/// The name under which the memory is exported, where a word says that it is.
pub fn exported<'a>(items: &[Item<'a>]) -> Option<&'a str>
    ensures { option_map (λ t. t.now) result ≡ exported_of items.now }
{
    memory(items, Meaning::ExportMemory, Meaning::ExportMemoryAs)
}

// Whether unresolved names are ignored.
fn ignored(items: &[Item<'_>]) -> bool
    ensures { result ≡ ignored_of items.now }
{
    let mut now = false;
    for item in items {
        if item.meaning().is(Meaning::Unresolved) {
            now = item.value() == "ignore-all";
        }
    }
    now
}

/// Whether undefined functions are imported.
pub fn allows_undefined(items: &[Item<'_>]) -> bool
    ensures { result ≡ allows_undefined_of items.now }
{
    has(items, Meaning::AllowUndefined) || has(items, Meaning::ImportUndefined)
}

/// Whether names to export may be absent.
pub fn lenient(items: &[Item<'_>]) -> bool
    ensures { result ≡ lenient_of items.now }
{
    has(items, Meaning::AllowUndefined) || ignored(items)
}

/// Whether the stack stands before the data.
pub fn stack_first(items: &[Item<'_>]) -> bool
    ensures { result ≡ stack_first_of items.now }
{
    let usual = number(items, Meaning::GlobalBase) == 0;
    is_on(items, Meaning::StackFirst, Meaning::NoStackFirst, usual)
}

/// The stack's bytes, where they are given.
pub fn stack_size(items: &[Item<'_>]) -> Option<u64>
    ensures { result ≡ stack_size_of items.now }
{
    let mut last = None;
    for item in items {
        if item.meaning().is(Meaning::StackSize) {
            last = Some(amount(item.value().as_bytes()));
        }
    }
    last
}

/// The most bytes that the memory can have; 0 where none are given.
pub fn max_memory(items: &[Item<'_>]) -> u64
    ensures { result ≡ max_memory_of items.now }
{
    if has(items, Meaning::NoGrowableMemory) {
        return number(items, Meaning::InitialMemory);
    }
    number(items, Meaning::MaxMemory)
}

/// How many workers there are; 0 where none are given.
pub fn threads(items: &[Item<'_>]) -> u64
    ensures { result ≡ threads_of items.now }
{
    number(items, Meaning::Threads).min(64)
}

/// Whether there is an input, or a library.
pub fn has_input(items: &[Item<'_>]) -> bool
    ensures { result ≡ has_input_of items.now }
{
    has(items, Meaning::Input) || has(items, Meaning::Library)
}

/// Whether one object is written in place of a module.
pub fn is_partial(items: &[Item<'_>]) -> bool
    ensures { result ≡ is_partial_of items.now }
{
    has(items, Meaning::Relocatable)
}

/// Whether a shared output is written in place of a plain module.
pub fn is_shared(items: &[Item<'_>]) -> bool
    ensures { result ≡ is_shared_of items.now }
{
    has(items, Meaning::Shared)
}

/// Whether debug sections are kept, as no word strips them.
pub fn keeps_debug(items: &[Item<'_>]) -> bool
    ensures { result ≡ keeps_debug_of items.now }
{
    !(has(items, Meaning::StripAll) || has(items, Meaning::StripDebug))
}

/// Whether warnings are errors.
pub fn fatal(items: &[Item<'_>]) -> bool
    ensures { result ≡ fatal_of items.now }
{
    is_on(
        items,
        Meaning::FatalWarnings,
        Meaning::NoFatalWarnings,
        false,
    )
}
