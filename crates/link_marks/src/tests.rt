//! Tables by hand: two functions of input 1, of which the first refers to the second and to a segment, and a segment with RETAIN.
//!
//! A function that makes a value lends it to the next one, and none has two of them where it may end early: each
//! such end would be proved with all that is dropped there.
ghost use Rattle.std.specs.Prelude.{◌≡◌, length, nat_lt};
ghost use Rattle.std.specs.List.{list_all};

use crate::asked::asked_names;
use crate::chunks::number_led;
use crate::due::due;
use crate::edges::PartEdges;
use crate::exported::chosen;
use crate::numbers::push_some;
use crate::repeated::first_repeat;
use crate::roots::roots_of;
use crate::work::{any_work, has_calls};
use body_windows::kinds as reloc_kinds;
use link_plan::Plan;
use link_program::{Content, Definition, Lead, Named, Names, Object, Part, Symbol, Tables, Winner};
use linking_section::{EXPORTED, HIDDEN, NO_STRIP, RETAIN, SymbolKind};
use live_mark::Edges;
use made_symbols::Mode;
use mark_bits::{Chunk, ChunkTable};
use std::alloc::Global;
use wl_base::{Fault, FileSpan, Name, Seq, Span};
use wl_lists::Lists;
use wl_rows::Rows;

const NOWHERE: FileSpan = FileSpan {
    file: 0,
    span: Span { start: 0, len: 0 },
};

fn add_word(alloc: Global, words: &mut Seq<Name>, name: &[u8]) -> bool {
    match Seq::from_slice(alloc, name) {
        Ok(word) => words.push(word).is_ok(),
        Err(_) => false,
    }
}

/// A plan that asks for nothing.
fn no_words(alloc: Global) -> Plan {
    Plan {
        inputs: Seq::new(alloc),
        output: None,
        entry: None,
        exports: Seq::new(alloc),
        exports_if: Seq::new(alloc),
        wanted: Seq::new(alloc),
        export_dynamic: false,
        allow_undefined: false,
        import_memory: false,
        gc: true,
        stack_first: false,
        global_base: None,
        stack_size: 65536,
        initial_memory: 0,
        max_memory: None,
        threads: 1,
        make_case: None,
        shared: false,
        partial: false,
        validate: false,
        keep_debug: false,
        like_lld: false,
        loose_calls: false,
        names: false,
        features: None,
    }
}

/// `--entry main`.
fn set_entry(alloc: Global, plan: &mut Plan) -> bool {
    match Seq::from_slice(alloc, b"main".as_slice()) {
        Ok(word) => {
            plan.entry = Some(word);
            true
        }
        Err(_) => false,
    }
}

/// `--entry main --export-if-defined extra`.
fn add_words(alloc: Global, plan: &mut Plan) -> bool {
    set_entry(alloc, plan) && add_word(alloc, &mut plan.exports_if, b"extra".as_slice())
}

/// `main`, `extra`, `other`, `memory`: 12 to 15 behind the linker-made names.
fn add_names(alloc: Global, words: &mut Seq<Name>) -> bool {
    add_word(alloc, words, b"main".as_slice())
        && add_word(alloc, words, b"extra".as_slice())
        && add_word(alloc, words, b"other".as_slice())
        && add_word(alloc, words, b"memory".as_slice())
}

fn names_of(alloc: Global, words: &[Name]) -> Option<Names> {
    Names::new(alloc, Mode::Plain, words, &[], 100).ok()
}

fn names(alloc: Global) -> Option<Names> {
    let mut words = Seq::new(alloc);
    let names = if add_names(alloc, &mut words) {
        names_of(alloc, words.as_slice())
    } else {
        None
    };
    names
}

fn function(input: u32, index: u32) -> Definition {
    Definition {
        input,
        place: index,
        kind: SymbolKind::Function,
        index,
        offset: 0,
    }
}

fn winner(input: u32, index: u32, name: u32, flags: u32) -> Winner {
    Winner {
        definition: function(input, index),
        name,
        flags,
    }
}

// ---- exports

fn candidates() -> [Winner; 5] {
    [
        winner(0, 0, 0, HIDDEN),
        winner(1, 0, 12, HIDDEN),
        winner(1, 1, 14, 0),
        winner(2, 0, 13, HIDDEN),
        winner(2, 1, 15, EXPORTED | HIDDEN),
    ]
}

/// Whether just these are exported.
fn are_chosen(alloc: Global, asked: &[bool], dynamic: bool, expected: &[Winner]) -> bool {
    match chosen(alloc, asked, dynamic, &candidates()) {
        Ok(found) => found.as_slice() == expected,
        Err(_) => false,
    }
}

/// Whether those that the words ask for are exported, and with `--export-dynamic` all but the linker's.
fn both_are_chosen(alloc: Global, asked: &[bool]) -> bool {
    let [_, first, second, third, last] = candidates();
    are_chosen(alloc, asked, false, &[first, third, last])
        && are_chosen(alloc, asked, true, &[first, second, third, last])
}

fn chosen_by(alloc: Global, names: &Names, plan: &Plan) -> bool {
    match asked_names(alloc, names, plan) {
        Ok(asked) => both_are_chosen(alloc, &asked),
        Err(_) => false,
    }
}

fn chosen_by_plan(alloc: Global, plan: &Plan) -> bool {
    match names(alloc) {
        Some(names) => chosen_by(alloc, &names, plan),
        None => false,
    }
}

fn winners_are_chosen(alloc: Global) -> bool {
    let mut plan = no_words(alloc);
    let holds = add_words(alloc, &mut plan) && chosen_by_plan(alloc, &plan);
    holds
}

#[test]
fn winners_are_exported_by_name_and_flags(rt: HostRuntime) {
    assert!(rt; winners_are_chosen(rt.alloc()));
}

// ---- what a shared output exports besides

/// `__wasm_call_ctors`, `__wasm_apply_data_relocs`, and a winner that no one asks for.
fn made_and_hidden() -> [Winner; 3] {
    [
        winner(0, 0, 0, HIDDEN),
        winner(0, 1, 1, HIDDEN),
        winner(1, 0, 12, HIDDEN),
    ]
}

fn are_due(alloc: Global, calls: bool, work: bool, expected: &[Winner]) -> bool {
    match due(alloc, &[], false, calls, work, &made_and_hidden()) {
        Ok(found) => found.as_slice() == expected,
        Err(_) => false,
    }
}

fn made_are_due(alloc: Global) -> bool {
    let [ctors, relocs, _] = made_and_hidden();
    are_due(alloc, false, false, &[])
        && are_due(alloc, true, false, &[ctors])
        && are_due(alloc, false, true, &[relocs])
        && are_due(alloc, true, true, &[ctors, relocs])
}

#[test]
fn the_linkers_functions_are_exported_where_they_do_something(rt: HostRuntime) {
    assert!(rt; made_are_due(rt.alloc()));
}

// ---- tables

fn chunk(input: u32, kind: u8, index: u32) -> Chunk {
    Chunk { input, kind, index }
}

/// Gives a chunk that isn't held the next number.
fn put(table: &mut ChunkTable, c: Chunk) -> bool {
    table.count() < u32::MAX && table.find(c).is_none() && table.add(c).is_ok()
}

fn add_chunks(table: &mut ChunkTable) -> bool {
    put(table, chunk(0, 0, 0))
        && put(table, chunk(1, 0, 0))
        && put(table, chunk(1, 0, 1))
        && put(table, chunk(1, 1, 0))
}

fn symbol(kind: SymbolKind, lead: Lead) -> Symbol {
    Symbol {
        kind,
        name: None,
        lead,
    }
}

fn datum(input: u32, place: u32) -> Definition {
    Definition {
        kind: SymbolKind::Datum,
        ..function(input, place)
    }
}

/// Two functions, a datum of input 1, one of the linker, an import, and what means nothing.
fn add_symbols(to: &mut Seq<Symbol>) -> bool {
    let first = symbol(SymbolKind::Function, Lead::Here(function(1, 0)));
    let second = symbol(SymbolKind::Function, Lead::Here(function(1, 1)));
    let own = symbol(SymbolKind::Datum, Lead::Here(datum(1, 0)));
    let made = symbol(SymbolKind::Datum, Lead::Here(datum(0, 5)));
    let import = symbol(SymbolKind::Function, Lead::Import(0));
    let nothing = symbol(SymbolKind::Function, Lead::Nothing);
    to.extend_from_slice(&[first, second, own, made, import, nothing])
        .is_ok()
}

fn part(chunk: Chunk, content: Content) -> Part {
    Part {
        chunk,
        content,
        source: NOWHERE,
    }
}

fn add_parts(to: &mut Seq<Part>) -> bool {
    let retained = Content::Segment {
        align: 0,
        flags: RETAIN,
    };
    let made = part(chunk(0, 0, 0), Content::Made);
    let first = part(chunk(1, 0, 0), Content::Function(0));
    let second = part(chunk(1, 0, 1), Content::Function(0));
    let segment = part(chunk(1, 1, 0), retained);
    to.extend_from_slice(&[made, first, second, segment])
        .is_ok()
}

fn add_winners(to: &mut Seq<Winner>) -> bool {
    let made = winner(0, 0, 0, NO_STRIP);
    let first = winner(1, 0, 12, 0);
    let second = winner(1, 1, 14, NO_STRIP);
    to.extend_from_slice(&[made, first, second]).is_ok()
}

fn names_symbol(symbol: u32) -> Named {
    Named::Symbol {
        kind: 0,
        place: 0,
        addend: 0,
        symbol,
    }
}

/// The first function names all symbols and a type, the second itself twice.
fn add_named(to: &mut Lists<Named>) -> bool {
    let all = [
        names_symbol(5),
        names_symbol(4),
        names_symbol(3),
        names_symbol(2),
        Named::Type {
            place: 20,
            number: 0,
        },
        names_symbol(1),
    ];
    let twice = [names_symbol(1), names_symbol(1)];
    to.push(&[]).is_ok() && to.push(&all).is_ok() && to.push(&twice).is_ok() && to.push(&[]).is_ok()
}

fn rows(alloc: Global) -> Rows<Named> {
    let mut named = Lists::new(alloc);
    add_named(&mut named);
    Rows::of(alloc, named)
}

/// A window that reads the cell of a symbol.
fn reads_cell(symbol: u32) -> Named {
    Named::Symbol {
        kind: reloc_kinds::GLOBAL_INDEX_LEB,
        place: 0,
        addend: 0,
        symbol,
    }
}

/// The linker's function calls one, the first function reads the cell of its own datum, and the second that of an import.
fn add_cells(to: &mut Lists<Named>) -> bool {
    to.push(&[names_symbol(0)]).is_ok()
        && to.push(&[reads_cell(2)]).is_ok()
        && to.push(&[reads_cell(4)]).is_ok()
        && to.push(&[]).is_ok()
}

fn cells(alloc: Global) -> Rows<Named> {
    let mut named = Lists::new(alloc);
    add_cells(&mut named);
    Rows::of(alloc, named)
}

/// Tables with these rows of what parts name, and nothing else.
fn bare_tables(alloc: Global, named: Rows<Named>) -> Tables {
    Tables {
        symbols: Seq::new(alloc),
        winners: Seq::new(alloc),
        parts: Seq::new(alloc),
        named,
        types: Seq::new(alloc),
        chunks: ChunkTable::new(alloc),
        variants: Seq::new(alloc),
    }
}

fn fill(tables: &mut Tables) -> bool {
    add_symbols(&mut tables.symbols)
        && add_winners(&mut tables.winners)
        && add_parts(&mut tables.parts)
        && add_chunks(&mut tables.chunks)
}

/// What is looked at.
#[derive(Clone, Copy)]
enum Look {
    Edges,
    Roots,
}

fn look_at(alloc: Global, tables: &Tables, look: Look) -> bool {
    match look {
        Look::Edges => edges_are_told(alloc, tables),
        Look::Roots => {
            are_roots(alloc, tables, true, &[1, 2, 3])
                && are_roots(alloc, tables, false, &[1, 2, 3, 1, 2, 3])
        }
    }
}

fn holds(alloc: Global, look: Look) -> bool {
    let mut tables = bare_tables(alloc, rows(alloc));
    let holds = fill(&mut tables) && look_at(alloc, &tables, look);
    holds
}

// ---- what parts refer to

/// The numbers of the chunks to which the symbols lead.
fn add_numbers(to: &mut Seq<Option<u32>>, tables: &Tables) -> bool {
    for symbol in tables.symbols.as_slice() {
        if to.push(number_led(&tables.chunks, symbol.lead)).is_err() {
            return false;
        }
    }
    true
}

fn add_targets(to: &mut Seq<u32>, edges: &PartEdges<'_>, chunk: u32) -> bool {
    for item in edges.row(chunk) {
        if push_some(to, edges.target(item)).is_err() {
            return false;
        }
    }
    true
}

/// Whether a part refers to just these chunks, in this order.
fn refers_to(alloc: Global, edges: &PartEdges<'_>, chunk: u32, expected: &[u32]) -> bool {
    let mut targets = Seq::new(alloc);
    let holds = add_targets(&mut targets, edges, chunk) && targets.as_slice() == expected;
    holds
}

fn all_refer(alloc: Global, edges: &PartEdges<'_>) -> bool {
    edges.count() == 4
        && refers_to(alloc, edges, 0, &[])
        && refers_to(alloc, edges, 1, &[3, 2])
        && refers_to(alloc, edges, 2, &[2, 2])
        && refers_to(alloc, edges, 3, &[])
        && refers_to(alloc, edges, 4, &[])
}

fn refer_by(alloc: Global, tables: &Tables, led: &[Option<u32>]) -> bool {
    let edges = PartEdges {
        rows: &tables.named,
        led,
    };
    all_refer(alloc, &edges)
}

fn edges_are_told(alloc: Global, tables: &Tables) -> bool {
    let mut led = Seq::new(alloc);
    let holds = add_numbers(&mut led, tables) && refer_by(alloc, tables, led.as_slice());
    holds
}

#[test]
fn parts_refer_to_chunks(rt: HostRuntime) {
    assert!(rt; holds(rt.alloc(), Look::Edges));
}

// ---- what needs work

fn is_work(tables: &Tables) -> bool {
    has_calls(tables) && any_work(tables, &[2, 1]) && !any_work(tables, &[0, 2, 3])
}

fn work_is_told(alloc: Global) -> bool {
    let mut tables = bare_tables(alloc, cells(alloc));
    let holds = fill(&mut tables) && is_work(&tables);
    holds
}

#[test]
fn cells_of_the_link_need_work(rt: HostRuntime) {
    assert!(rt; work_is_told(rt.alloc()));
}

// ---- roots

/// Whether these are the roots, where the tables are short.
fn are_roots(alloc: Global, tables: &Tables, gc: bool, expected: &[u32]) -> bool {
    if tables.parts.as_slice().len() >= 1 << 32 {
        return false;
    }
    match roots_of(alloc, tables, gc, &[winner(1, 0, 12, 0)]) {
        Ok(roots) => roots.as_slice() == expected,
        Err(_) => false,
    }
}

#[test]
fn roots_are_exports_and_what_is_kept(rt: HostRuntime) {
    assert!(rt; holds(rt.alloc(), Look::Roots));
}

// ---- repeats

fn are_named(names: &Names, exports: &[Winner]) -> bool
    ensures { result ≡ list_all (λ w. nat_lt w.name (length names.now.names)) exports.now }
{
    exports.iter().all(|export| export.name < names.count())
}

/// Whether the fault is that `memory` is exported twice, by the linker first and then by this input.
fn is_repeat(found: Option<&Fault>, other_input: u32) -> bool {
    match found {
        Some(Fault::Duplicate { name, first, other }) => {
            name.as_slice() == b"memory".as_slice() && *first == 0 && *other == other_input
        }
        _ => false,
    }
}

/// Whether a name is exported twice, or none.
#[tactic(auto, using(crate::proofs::Steps::all_below))]
fn is_told(
    alloc: Global,
    names: &Names,
    imports_memory: bool,
    exports: &[Winner],
    other_input: Option<u32>,
) -> bool {
    let objects: [Object; 0] = [];
    if !are_named(names, exports) {
        return false;
    }
    let found = first_repeat(alloc, &objects, names, imports_memory, exports);
    match &found {
        Ok(fault) => match other_input {
            Some(input) => is_repeat(fault.as_ref(), input),
            None => fault.is_none(),
        },
        Err(_) => false,
    }
}

fn repeats_are_told(alloc: Global) -> bool {
    let main = winner(1, 0, 12, 0);
    let memory = winner(2, 0, 15, 0);
    match names(alloc) {
        Some(names) => {
            is_told(alloc, &names, false, &[main], None)
                && is_told(alloc, &names, true, &[main, memory], None)
                && is_told(alloc, &names, false, &[main, memory], Some(2))
        }
        None => false,
    }
}

#[test]
fn the_second_export_of_a_name_is_told(rt: HostRuntime) {
    assert!(rt; repeats_are_told(rt.alloc()));
}
