use image_emit::{Image, PlacedSource, Source, lie_in, measure};
use std::alloc::Global;
use std::sync::atomic::{AtomicU64, Ordering};
use std::thread::Threads;
use test_images::{emitted, empty_image, file_part, own_block};
use test_kit::{Meeting, calling_module, func_type, import, joined, name};
use wasm_module::{Element, Export, ModuleGlobal};
use wasm_types::{ConstExpr, GlobalType, ImportKind, Limits, TableType, ValType};
use wl_base::{LayoutError, OutOfMemory, Seq, What};
use wl_outside::{Gate, OpenGate, Phase};

// Counts each job in eight bits of its own, and jobs of another phase in the highest ones.
#[derive(Drop)]
struct Counts {
    jobs: AtomicU64,
}

impl Gate for Counts {
    fn turn(&self, phase: Phase, _worker: u32, job: u32) {
        let place = if phase == Phase::Fill { job.min(6) } else { 7 };
        self.jobs
            .fetch_add(1u64.wrapping_shl(8 * place), Ordering::SeqCst);
    }
}

// The images of these tests.
#[derive(Clone, Copy)]
enum Case {
    Empty,
    Calls,
    Kinds,
    Data,
    Mixed,
}

fn image_of(alloc: Global, case: Case) -> Result<Image, OutOfMemory> {
    let mut image = empty_image(alloc);
    fill(alloc, &mut image, case)?;
    Ok(image)
}

fn fill(alloc: Global, image: &mut Image, case: Case) -> Result<(), OutOfMemory> {
    match case {
        Case::Empty => Ok(()),
        Case::Calls => add_calls(alloc, image),
        Case::Kinds => add_kinds(alloc, image),
        Case::Data => add_data(alloc, image),
        Case::Mixed => add_mixed(alloc, image),
    }
}

fn files_of(alloc: Global, case: Case) -> Result<Seq<Seq<u8>>, OutOfMemory> {
    let mut files = Seq::new(alloc);
    add_files(alloc, &mut files, case)?;
    Ok(files)
}

fn add_files(alloc: Global, files: &mut Seq<Seq<u8>>, case: Case) -> Result<(), OutOfMemory> {
    match case {
        Case::Empty => Ok(()),
        Case::Calls => {
            files.push(Seq::from_slice(alloc, b"\xFF\x00\x41\x07\x0B".as_slice())?)?;
            files.push(Seq::from_slice(
                alloc,
                b"\xFF\xFF\xFF\x00\x10\x81\x80\x80\x80\x00\x0B\xFF".as_slice(),
            )?)
        }
        Case::Kinds => {
            files.push(Seq::from_slice(alloc, b"\xFF".as_slice())?)?;
            files.push(Seq::from_slice(
                alloc,
                b"\xFF\xFF\x00\x10\x80\x80\x80\x80\x00\x0B\xFF".as_slice(),
            )?)
        }
        Case::Data | Case::Mixed => files.push(Seq::from_slice(
            alloc,
            b"\xFF\x04\x00\x0B".as_slice(),
        )?),
    }
}

// The bytes of a case's image.
fn written<G: Gate, R: Threads + Sync>(
    rt: &R,
    alloc: Global,
    case: Case,
    workers: u32,
    gate: &G,
) -> Option<Vec<u8>> {
    let image = image_of(alloc, case).ok()?;
    let files = files_of(alloc, case).ok()?;
    emitted(rt, alloc, &image, files.as_slice(), workers, gate)
}

// Whether bytes are these parts, one behind another.
fn are_together(alloc: Global, bytes: &[u8], parts: &[&[u8]]) -> bool {
    match joined(alloc, parts) {
        Ok(all) => bytes == all.as_slice(),
        Err(_) => false,
    }
}

// Whether so many workers write these bytes.
fn is_written_by<R: Threads + Sync>(
    rt: &R,
    alloc: Global,
    workers: u32,
    case: Case,
    parts: &[&[u8]],
) -> bool {
    match written(rt, alloc, case, workers, &OpenGate) {
        Some(out) => are_together(alloc, out.as_slice(), parts),
        None => false,
    }
}

// Whether a case's image has these bytes, whoever writes them.
fn is_written<R: Threads + Sync>(rt: &R, alloc: Global, case: Case, parts: &[&[u8]]) -> bool {
    for workers in [1u32, 2, 64] {
        if !is_written_by(rt, alloc, workers, case, parts) {
            return false;
        }
    }
    true
}

fn export(alloc: Global, text: &str, kind: u8, index: u32) -> Result<Export, OutOfMemory> {
    let name = name(alloc, text)?;
    Ok(Export { name, kind, index })
}

fn element(
    alloc: Global,
    table: Option<u32>,
    offset: ConstExpr,
    functions: &[u32],
) -> Result<Element, OutOfMemory> {
    let functions = Seq::from_slice(alloc, functions)?;
    Ok(Element {
        table,
        offset,
        functions,
    })
}

fn global(kind: ValType, var: bool, value: ConstExpr) -> ModuleGlobal {
    ModuleGlobal {
        kind: GlobalType { kind, var },
        value,
    }
}

// f calls g, which gives 7.
fn add_calls(alloc: Global, image: &mut Image) -> Result<(), OutOfMemory> {
    let only = Limits {
        min: 1,
        max: Some(1),
    };
    image.types.push(func_type(alloc, &[], &[ValType::I32])?)?;
    image.functions.extend_from_slice(&[0, 0])?;
    image.tables.push(TableType {
        funcref: true,
        limits: only,
    })?;
    image.memories.push(Limits { min: 2, max: None })?;
    image.exports.push(export(alloc, "memory", 2, 0)?)?;
    image.exports.push(export(alloc, "f", 0, 0)?)?;
    image.bodies.push(file_part(1, 3, 8))?;
    image.bodies.push(file_part(0, 1, 4))
}

// Every kind of section but data. Its memories are more than one, so the module is well formed but not valid (Core 3.4.10).
fn add_kinds(alloc: Global, image: &mut Image) -> Result<(), OutOfMemory> {
    image.custom = Some(Seq::from_slice(alloc, b"\x01x\x07".as_slice())?);
    add_types(alloc, image)?;
    add_imports(alloc, image)?;
    add_tables(image)?;
    add_globals(image)?;
    add_exports(alloc, image)?;
    add_elements(alloc, image)?;
    add_bodies(alloc, image)
}

fn add_types(alloc: Global, image: &mut Image) -> Result<(), OutOfMemory> {
    let params = [ValType::I32, ValType::I64, ValType::F64];
    image
        .types
        .push(func_type(alloc, &params, &[ValType::F32])?)?;
    image.types.push(func_type(alloc, &[], &[])?)
}

fn add_tables(image: &mut Image) -> Result<(), OutOfMemory> {
    let two = Limits {
        min: 2,
        max: Some(2),
    };
    let none = Limits { min: 0, max: None };
    let one = Limits { min: 1, max: None };
    let wide = Limits {
        min: 1,
        max: Some(65536),
    };
    image.tables.push(TableType {
        funcref: true,
        limits: two,
    })?;
    image.tables.push(TableType {
        funcref: false,
        limits: none,
    })?;
    image.memories.push(one)?;
    image.memories.push(wide)
}

fn add_exports(alloc: Global, image: &mut Image) -> Result<(), OutOfMemory> {
    image.exports.push(export(alloc, "f", 0, 1)?)?;
    image.exports.push(export(alloc, "t", 1, 1)?)?;
    image.exports.push(export(alloc, "m", 2, 0)?)?;
    image.exports.push(export(alloc, "g", 3, 2)?)?;
    image.exports.push(export(alloc, "", 3, 3)?)
}

fn add_elements(alloc: Global, image: &mut Image) -> Result<(), OutOfMemory> {
    let first = element(alloc, None, ConstExpr::I32(1), &[1, 2])?;
    image.elements.push(first)?;
    let second = element(alloc, Some(1), ConstExpr::Get(0), &[0])?;
    image.elements.push(second)
}

fn add_bodies(alloc: Global, image: &mut Image) -> Result<(), OutOfMemory> {
    image.functions.extend_from_slice(&[1, 1])?;
    image.bodies.push(file_part(1, 2, 8))?;
    let own = Seq::from_slice(alloc, b"\x01\x01\x7F\x0B".as_slice())?;
    image.bodies.push(Source::Own(own))
}

fn add_imports(alloc: Global, image: &mut Image) -> Result<(), OutOfMemory> {
    let least = Limits { min: 3, max: None };
    let both = Limits {
        min: 1,
        max: Some(300),
    };
    let table = ImportKind::Table(TableType {
        funcref: true,
        limits: least,
    });
    let global = ImportKind::GlobalVar(GlobalType {
        kind: ValType::I32,
        var: false,
    });
    image
        .imports
        .push(import(alloc, "f", ImportKind::Function(1))?)?;
    image.imports.push(import(alloc, "t", table)?)?;
    image
        .imports
        .push(import(alloc, "m", ImportKind::Memory(both))?)?;
    image.imports.push(import(alloc, "g", global)?)
}

fn add_globals(image: &mut Image) -> Result<(), OutOfMemory> {
    image
        .globals
        .push(global(ValType::I64, true, ConstExpr::I64(-1)))?;
    image
        .globals
        .push(global(ValType::I32, true, ConstExpr::I32(64)))?;
    image
        .globals
        .push(global(ValType::I32, false, ConstExpr::I32(-65)))?;
    image
        .globals
        .push(global(ValType::I32, false, ConstExpr::Get(0)))?;
    image
        .globals
        .push(global(ValType::I64, false, ConstExpr::I64(i64::MIN)))
}

// The 188 bytes, a section or entry a line.
fn kinds_bytes() -> [&'static [u8]; 18] {
    [
        b"\x00asm\x01\x00\x00\x00".as_slice(),
        b"\x00\x03\x01x\x07".as_slice(),
        b"\x01\x0B\x02\x60\x03\x7F\x7E\x7C\x01\x7D\x60\x00\x00".as_slice(),
        b"\x02\x27\x04\x03env\x01f\x00\x01".as_slice(),
        b"\x03env\x01t\x01\x70\x00\x03".as_slice(),
        b"\x03env\x01m\x02\x01\x01\xAC\x02".as_slice(),
        b"\x03env\x01g\x03\x7F\x00".as_slice(),
        b"\x03\x03\x02\x01\x01".as_slice(),
        b"\x04\x08\x02\x70\x01\x02\x02\x6F\x00\x00".as_slice(),
        b"\x05\x08\x02\x00\x01\x01\x01\x80\x80\x04".as_slice(),
        b"\x06\x25\x05\x7E\x01\x42\x7F\x0B\x7F\x01\x41\xC0\x00\x0B".as_slice(),
        b"\x7F\x00\x41\xBF\x7F\x0B\x7F\x00\x23\x00\x0B".as_slice(),
        b"\x7E\x00\x42\x80\x80\x80\x80\x80\x80\x80\x80\x80\x7F\x0B".as_slice(),
        b"\x07\x14\x05\x01f\x00\x01\x01t\x01\x01\x01m\x02\x00\x01g\x03\x02\x00\x03\x03".as_slice(),
        b"\x09\x10\x02\x00\x41\x01\x0B\x02\x01\x02".as_slice(),
        b"\x02\x01\x23\x00\x0B\x00\x01\x00".as_slice(),
        b"\x0A\x0F\x02\x08\x00\x10\x80\x80\x80\x80\x00\x0B".as_slice(),
        b"\x04\x01\x01\x7F\x0B".as_slice(),
    ]
}

// Three bytes at 16 and one at 20: the one byte between is 0.
fn add_data(alloc: Global, image: &mut Image) -> Result<(), OutOfMemory> {
    image.data_offset = ConstExpr::I32(16);
    image
        .blocks
        .push(own_block(alloc, 16, b"\x01\x02\x03".as_slice())?)?;
    image.blocks.push(PlacedSource {
        address: 20,
        source: file_part(0, 1, 1),
    })
}

// A body, and three blocks with gaps, of which the last has no bytes.
fn add_mixed(alloc: Global, image: &mut Image) -> Result<(), OutOfMemory> {
    add_data(alloc, image)?;
    image.types.push(func_type(alloc, &[], &[])?)?;
    image.functions.push(0)?;
    image.bodies.push(file_part(0, 1, 3))?;
    image.blocks.push(PlacedSource {
        address: 23,
        source: file_part(0, 0, 0),
    })
}

#[test]
fn images_have_their_bytes(rt: HostRuntime) {
    let alloc = rt.alloc();
    assert!(rt; is_written(&rt, alloc, Case::Calls, &[calling_module()]));
    assert!(rt; is_written(&rt, alloc, Case::Kinds, &kinds_bytes()));
}

#[test]
fn data_has_gaps_of_zeros(rt: HostRuntime) {
    let alloc = rt.alloc();
    let data =
        b"\x00asm\x01\x00\x00\x00\x0B\x0B\x01\x00\x41\x10\x0B\x05\x01\x02\x03\x00\x04".as_slice();
    assert!(rt; is_written(&rt, alloc, Case::Data, &[data]));
    let head =
        b"\x00asm\x01\x00\x00\x00\x01\x04\x01\x60\x00\x00\x03\x02\x01\x00\x0A\x05\x01\x03\x04\x00\x0B".as_slice();
    let tail = b"\x0B\x0D\x01\x00\x41\x10\x0B\x07\x01\x02\x03\x00\x04\x00\x00".as_slice();
    assert!(rt; is_written(&rt, alloc, Case::Mixed, &[head, tail]));
    let header = b"\x00asm\x01\x00\x00\x00".as_slice();
    assert!(rt; is_written(&rt, alloc, Case::Empty, &[header]));
}

fn are_measured(alloc: Global, image: &Image, len: u64, places: &[u64]) -> bool {
    match measure(alloc, image) {
        Ok(m) => m.len == len && m.places.as_slice() == places,
        Err(_) => false,
    }
}

// Whether a case's module has this length, and its parts these places.
fn places_are(alloc: Global, case: Case, len: u64, places: &[u64]) -> bool {
    match image_of(alloc, case) {
        Ok(image) => are_measured(alloc, &image, len, places),
        Err(_) => false,
    }
}

#[test]
fn sources_have_their_places(rt: HostRuntime) {
    let alloc = rt.alloc();
    assert!(rt; places_are(alloc, Case::Calls, 65, &[52, 61]));
    assert!(rt; places_are(alloc, Case::Kinds, 188, &[175, 184]));
    assert!(rt; places_are(alloc, Case::Data, 21, &[16, 20]));
    assert!(rt; places_are(alloc, Case::Mixed, 40, &[22, 33, 37, 40]));
    assert!(rt; places_are(alloc, Case::Empty, 8, &[]));
}

fn add_lengths(image: &mut Image, lens: &[u64]) -> Result<(), OutOfMemory> {
    for &len in lens {
        image.bodies.push(file_part(0, 0, len))?;
    }
    Ok(())
}

// The length that is too long.
fn told_length(error: LayoutError) -> Option<i64> {
    match error {
        LayoutError::Overflow {
            what: What::OutputLength,
            needed,
        } => Some(needed),
        _ => None,
    }
}

// The length of an image that is too long.
fn long_length(alloc: Global, image: &Image) -> Option<i64> {
    match measure(alloc, image) {
        Ok(_) => None,
        Err(error) => told_length(error),
    }
}

// The length that is told for bodies of these lengths, where it is too long.
fn too_long(alloc: Global, lens: &[u64]) -> Result<Option<i64>, OutOfMemory> {
    let mut image = empty_image(alloc);
    add_lengths(&mut image, lens)?;
    Ok(long_length(alloc, &image))
}

#[test]
fn no_module_has_more_than_2_31_bytes(rt: HostRuntime) {
    let alloc = rt.alloc();
    assert_eq!(rt; too_long(alloc, &[0x8000_0000]), Ok(Some(0x8000_0014)));
    assert_eq!(rt; too_long(alloc, &[0x7FFF_FFEC]), Ok(Some(0x8000_0000)));
    assert_eq!(rt; too_long(alloc, &[0x7FFF_FFEB]), Ok(None));
    assert_eq!(rt; too_long(alloc, &[u64::MAX, u64::MAX]), Ok(Some(i64::MAX)));
}

// Whether a body of this place lies in the files.
fn lies_in(
    alloc: Global,
    files: &[Seq<u8>],
    file: u32,
    start: u64,
    len: u64,
) -> Result<bool, OutOfMemory> {
    let mut image = empty_image(alloc);
    image.bodies.push(file_part(file, start, len))?;
    Ok(lie_in(files, &image))
}

// Whether it lies in the one file of the data.
fn lies_in_data(alloc: Global, file: u32, start: u64, len: u64) -> Result<bool, OutOfMemory> {
    let files = files_of(alloc, Case::Data)?;
    lies_in(alloc, files.as_slice(), file, start, len)
}

#[test]
fn parts_outside_of_files_are_told(rt: HostRuntime) {
    for (file, start, len) in [(0u32, 1u64, 4u64), (0, 5, 0), (1, 0, 1), (0, u64::MAX, 2)] {
        assert_eq!(rt; lies_in_data(rt.alloc(), file, start, len), Ok(false));
    }
}

// How many bytes workers write that wait for each other, and whether they met.
fn met<R: Threads + Sync>(rt: &R, alloc: Global, workers: u32) -> Option<(usize, bool)> {
    let gate = Meeting::new(Phase::Fill);
    let out = written(rt, alloc, Case::Calls, workers, &gate)?;
    Some((out.len(), gate.was_met()))
}

#[test]
fn two_workers_fill_at_once(rt: HostRuntime) {
    for workers in [2u32, 64] {
        assert_eq!(rt; met(&rt, rt.alloc(), workers), Some((65, true)));
    }
}

// How many bytes workers write, and the counts of their jobs.
fn counted<R: Threads + Sync>(rt: &R, alloc: Global, workers: u32) -> Option<(usize, u64)> {
    let gate = Counts {
        jobs: AtomicU64::new(0),
    };
    let out = written(rt, alloc, Case::Mixed, workers, &gate)?;
    Some((out.len(), gate.jobs.load(Ordering::SeqCst)))
}

#[test]
fn each_chunk_passes_the_gate_once(rt: HostRuntime) {
    for workers in [1u32, 3, 64] {
        assert_eq!(rt; counted(&rt, rt.alloc(), workers), Some((40, 0x0101_0101)));
    }
}
