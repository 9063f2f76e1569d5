//! The linker's own words, and what is told of words that ask for something that isn't made.
ghost use Rattle.std.specs.Prelude.{◌≡◌, ◌++◌, ◌∷◌, [], OnOk, IfOk, option_to_list};
ghost use Rattle.std.specs.Option.{option_map};
ghost use Rattle.std.specs.List.{flat_map};
ghost use Rattle.driver_fields.specs.Own.{when, wanted, exported_if, undefined_words, export_of, export_words, export_if_words, name_words, name_switches as name_switches_of, memory_switches as memory_switches_of, switch_words, numbered, stack_words as stack_words_of, memory_numbers as memory_numbers_of, number_words, partial_words, shared_words, debug_words, output_words, own_words as own_words_of, warning as warning_of, warnings as warnings_of};

use crate::fields::{
    allows_undefined, entry, has, imports_memory, is_on, is_partial, is_shared, keeps_debug,
    lenient, max_memory, number, stack_first, stack_size, text, threads,
};
use driver_table::{Item, Line, Meaning};
use std::alloc::Global;
use wl_base::{OutOfMemory, Seq, Text};

/// The linker's own words of the items, but for the inputs.
///
/// # Errors
/// Want of memory.
#[tactic(auto, unfolding(crate::specs::Own::own_words))]
pub fn own_words(alloc: Global, items: &[Item<'_>]) -> Result<Seq<Text>, OutOfMemory>
    ensures { IfOk result (λ words. words ≡ own_words_of items.now) }
{
    let mut words = Seq::new(alloc);
    add_output(alloc, text(items, Meaning::Output), &mut words)?;
    if let Some(entry) = entry(items) {
        words.push(entry.text(alloc)?)?;
    }
    add_names(alloc, items, &mut words)?;
    add_switches(alloc, items, &mut words)?;
    add_numbers(alloc, items, &mut words)?;
    add_partial(alloc, items, &mut words)?;
    add_shared(alloc, items, &mut words)?;
    add_debug(alloc, items, &mut words)?;
    Ok(words)
}

fn add_output(alloc: Global, name: Option<&str>, words: &mut Seq<Text>) -> Result<(), OutOfMemory>
    ensures { OnOk result (words.new ≡ words.old ++ output_words (option_map (λ t. t.now) name.entry)) }
{
    if let Some(name) = name {
        words.push(Text::new(alloc, "-o")?)?;
        words.push(Text::new(alloc, name)?)?;
    }
    Ok(())
}

// Puts a word behind the others, where the test holds.
fn add_when(alloc: Global, test: bool, word: &str, words: &mut Seq<Text>) -> Result<(), OutOfMemory>
    ensures { OnOk result (words.new ≡ words.old ++ when test (word.now ∷ [])) }
{
    if test {
        words.push(Text::new(alloc, word)?)?;
    }
    Ok(())
}

fn add_wanted(alloc: Global, name: &str, words: &mut Seq<Text>) -> Result<(), OutOfMemory>
    ensures { OnOk result (words.new ≡ words.old ++ wanted name.now) }
{
    words.push(Text::new(alloc, "-u")?)?;
    words.push(Text::new(alloc, name)?)?;
    Ok(())
}

fn add_exported_if(alloc: Global, name: &str, words: &mut Seq<Text>) -> Result<(), OutOfMemory>
    ensures { OnOk result (words.new ≡ words.old ++ exported_if name.now) }
{
    add_wanted(alloc, name, words)?;
    words.push(Line::new("--export-if-defined=", name, "", "").text(alloc)?)?;
    Ok(())
}

fn add_undefined(
    alloc: Global,
    items: &[Item<'_>],
    words: &mut Seq<Text>,
) -> Result<(), OutOfMemory>
    ensures { OnOk result (words.new ≡ words.old ++ flat_map undefined_words items.now) }
{
    for item in items {
        if item.meaning().is(Meaning::Undefined) {
            add_wanted(alloc, item.value(), words)?;
        }
    }
    Ok(())
}

// The words of a name to export.
#[tactic(auto, unfolding(crate::specs::Own::export_of))]
fn add_export(
    alloc: Global,
    lenient: bool,
    name: &str,
    words: &mut Seq<Text>,
) -> Result<(), OutOfMemory>
    ensures { OnOk result (words.new ≡ words.old ++ export_of lenient name.now) }
{
    if lenient {
        return add_exported_if(alloc, name, words);
    }
    words.push(Line::new("--export=", name, "", "").text(alloc)?)?;
    Ok(())
}

fn add_exports(
    alloc: Global,
    lenient: bool,
    items: &[Item<'_>],
    words: &mut Seq<Text>,
) -> Result<(), OutOfMemory>
    ensures { OnOk result (words.new ≡ words.old ++ flat_map (export_words lenient) items.now) }
{
    for item in items {
        if item.meaning().is(Meaning::Export) {
            add_export(alloc, lenient, item.value(), words)?;
        }
    }
    Ok(())
}

fn add_exports_if(
    alloc: Global,
    items: &[Item<'_>],
    words: &mut Seq<Text>,
) -> Result<(), OutOfMemory>
    ensures { OnOk result (words.new ≡ words.old ++ flat_map export_if_words items.now) }
{
    for item in items {
        if item.meaning().is(Meaning::ExportIfDefined) {
            add_exported_if(alloc, item.value(), words)?;
        }
    }
    Ok(())
}

// The words of names: those to be loaded, and those to be exported.
#[tactic(auto, unfolding(crate::specs::Own::name_words))]
fn add_names(alloc: Global, items: &[Item<'_>], words: &mut Seq<Text>) -> Result<(), OutOfMemory>
    ensures { OnOk result (words.new ≡ words.old ++ name_words items.now) }
{
    add_undefined(alloc, items, words)?;
    add_exports(alloc, lenient(items), items, words)?;
    add_exports_if(alloc, items, words)?;
    Ok(())
}

// Switches that concern names.
#[tactic(auto, unfolding(crate::specs::Own::name_switches))]
fn add_name_switches(
    alloc: Global,
    items: &[Item<'_>],
    words: &mut Seq<Text>,
) -> Result<(), OutOfMemory>
    ensures { OnOk result (words.new ≡ words.old ++ name_switches_of items.now) }
{
    let shared = is_shared(items);
    let dynamic = is_on(
        items,
        Meaning::ExportDynamic,
        Meaning::NoExportDynamic,
        shared,
    );
    add_when(alloc, dynamic, "--export-dynamic", words)?;
    let table = has(items, Meaning::ExportTable);
    add_when(alloc, table, "--export-table", words)?;
    add_when(alloc, allows_undefined(items), "--allow-undefined", words)?;
    Ok(())
}

// Switches that concern the memory and what is in it.
#[tactic(auto, unfolding(crate::specs::Own::memory_switches))]
fn add_memory_switches(
    alloc: Global,
    items: &[Item<'_>],
    words: &mut Seq<Text>,
) -> Result<(), OutOfMemory>
    ensures { OnOk result (words.new ≡ words.old ++ memory_switches_of items.now) }
{
    add_when(alloc, imports_memory(items), "--import-memory", words)?;
    let all = !is_on(items, Meaning::GcSections, Meaning::NoGcSections, true);
    add_when(alloc, all, "--no-gc-sections", words)?;
    add_when(alloc, stack_first(items), "--stack-first", words)?;
    Ok(())
}

#[tactic(auto, unfolding(crate::specs::Own::switch_words))]
fn add_switches(alloc: Global, items: &[Item<'_>], words: &mut Seq<Text>) -> Result<(), OutOfMemory>
    ensures { OnOk result (words.new ≡ words.old ++ switch_words items.now) }
{
    add_name_switches(alloc, items, words)?;
    add_memory_switches(alloc, items, words)?;
    Ok(())
}

// Puts an option with a number behind the others, where it is given.
fn add_number(alloc: Global, name: &str, n: u64, words: &mut Seq<Text>) -> Result<(), OutOfMemory>
    ensures { OnOk result (words.new ≡ words.old ++ numbered name.now n) }
{
    if n != 0 {
        let mut digits = itoa::Buffer::new();
        words.push(Line::new(name, digits.format(n), "", "").text(alloc)?)?;
    }
    Ok(())
}

fn add_stack(alloc: Global, size: Option<u64>, words: &mut Seq<Text>) -> Result<(), OutOfMemory>
    ensures { OnOk result (words.new ≡ words.old ++ stack_words_of size) }
{
    if let Some(n) = size {
        let mut digits = itoa::Buffer::new();
        words.push(Text::new(alloc, "-z")?)?;
        words.push(Line::new("stack-size=", digits.format(n), "", "").text(alloc)?)?;
    }
    Ok(())
}

// Numbers that concern the memory.
#[tactic(auto, unfolding(crate::specs::Own::memory_numbers))]
fn add_memory_numbers(
    alloc: Global,
    items: &[Item<'_>],
    words: &mut Seq<Text>,
) -> Result<(), OutOfMemory>
    ensures { OnOk result (words.new ≡ words.old ++ memory_numbers_of items.now) }
{
    let base = number(items, Meaning::GlobalBase);
    add_number(alloc, "--global-base=", base, words)?;
    let least = number(items, Meaning::InitialMemory);
    add_number(alloc, "--initial-memory=", least, words)?;
    add_number(alloc, "--max-memory=", max_memory(items), words)?;
    Ok(())
}

#[tactic(auto, unfolding(crate::specs::Own::number_words))]
fn add_numbers(alloc: Global, items: &[Item<'_>], words: &mut Seq<Text>) -> Result<(), OutOfMemory>
    ensures { OnOk result (words.new ≡ words.old ++ number_words items.now) }
{
    add_memory_numbers(alloc, items, words)?;
    add_number(alloc, "--threads=", threads(items), words)?;
    add_stack(alloc, stack_size(items), words)?;
    Ok(())
}

// The word of a partial link.
fn add_partial(alloc: Global, items: &[Item<'_>], words: &mut Seq<Text>) -> Result<(), OutOfMemory>
    ensures { OnOk result (words.new ≡ words.old ++ partial_words items.now) }
{
    add_when(alloc, is_partial(items), "-r", words)
}

// The word of a shared output.
fn add_shared(alloc: Global, items: &[Item<'_>], words: &mut Seq<Text>) -> Result<(), OutOfMemory>
    ensures { OnOk result (words.new ≡ words.old ++ shared_words items.now) }
{
    add_when(alloc, is_shared(items), "-shared", words)
}

// The word that keeps debug sections.
fn add_debug(alloc: Global, items: &[Item<'_>], words: &mut Seq<Text>) -> Result<(), OutOfMemory>
    ensures { OnOk result (words.new ≡ words.old ++ debug_words items.now) }
{
    add_when(alloc, keeps_debug(items), "--keep-debug", words)
}

// What is told of an item.
fn warning<'a>(item: &Item<'a>) -> Option<Line<'a>>
    ensures { result ≡ warning_of item.now }
{
    let meaning = item.meaning();
    if meaning.is(Meaning::Warn) {
        return Some(Line::new("ignored: ", item.spelling(), "", ""));
    }
    if meaning.is(Meaning::Z) {
        return Some(Line::new("unknown -z value: ", item.value(), "", ""));
    }
    if meaning.is(Meaning::Unresolved) && item.value() != "report-all" {
        return Some(Line::new("ignored: ", item.spelling(), "", ""));
    }
    None
}

// Puts a line behind the others, where there is one.
fn add_line(alloc: Global, line: Option<Line<'_>>, lines: &mut Seq<Text>) -> Result<(), OutOfMemory>
    ensures { OnOk result (lines.new ≡ lines.old ++ option_to_list line.entry) }
{
    if let Some(line) = line {
        lines.push(line.text(alloc)?)?;
    }
    Ok(())
}

/// What is told of the items that ask for something that isn't made, in their order.
///
/// # Errors
/// Want of memory.
pub fn warnings(alloc: Global, items: &[Item<'_>]) -> Result<Seq<Text>, OutOfMemory>
    ensures { IfOk result (λ lines. lines ≡ warnings_of items.now) }
{
    let mut lines = Seq::new(alloc);
    for item in items {
        add_line(alloc, warning(item), &mut lines)?;
    }
    Ok(lines)
}
