//! Inputs over real bytes, read by real threads.
ghost use Rattle.std.specs.Prelude.{◌≡◌, ◌<◌, ◌≤◌, ◌^◌, Some, None, length, IfSome, IfOk};
ghost use Rattle.link_program.specs.link_plan.Plan.{IsPlan};

use link_inputs::{Inputs, LinkError, load_inputs};
use link_plan::{InputWord, Plan};
use std::alloc::Global;
use std::test::Fail;
use std::thread::Threads;
use test_kit::{Meeting, defines_a, library, needs_a};
use wl_base::{Fault, OutOfMemory, Seq};
use wl_fan::Workers;
use wl_outside::{Gate, OpenGate, Phase};

/// No object: its version is 2.
fn broken() -> &'static [u8] {
    b"\0asm\x02\0\0\0".as_slice()
}

/// A library whose one member, which its index gives for `a`, is no object.
fn broken_library() -> &'static [u8] {
    b"!<arch>\n/                                               10        `\n\0\0\0\x01\0\0\0Na\0m/                                              8         `\n\0asm\x02\0\0\0".as_slice()
}

/// A library without an index.
fn no_library() -> &'static [u8] {
    b"!<arch>\nm/                                              8         `\n\0asm\x02\0\0\0".as_slice()
}

/// What a call answers, as far as the cases tell.
#[derive(Clone, Copy, Debug, PartialEq, Eq)]
enum Outcome {
    /// The first inputs that are loaded, in order, and how many there are in all.
    Loaded([u32; 3], usize),
    /// The input that is malformed.
    Malformed(u32),
    /// The file that is no library.
    NoLibrary(u32),
    Other,
}

/// A file, and whether its word is lazy or whole.
#[derive(Clone, Copy)]
struct Word {
    bytes: &'static [u8],
    lazy: bool,
    whole: bool,
}

fn plain(bytes: &'static [u8]) -> Word {
    Word {
        bytes,
        lazy: false,
        whole: false,
    }
}

fn lazy(bytes: &'static [u8]) -> Word {
    Word {
        bytes,
        lazy: true,
        whole: false,
    }
}

fn whole(bytes: &'static [u8]) -> Word {
    Word {
        bytes,
        lazy: false,
        whole: true,
    }
}

/// A plan of these words, or of so many generated objects.
fn plan_of(alloc: Global, inputs: Seq<InputWord>, case: Option<u32>, threads: u32) -> Plan
    requires words { length inputs < 2 ^ 32 }
    requires case { IfSome case (λ n. (1 ≤ n) × (n ≤ 20000)) }
    requires threads { (1 ≤ threads) × (threads ≤ 64) }
    ensures plan { IsPlan result }
    ensures inputs { result.inputs ≡ inputs }
    ensures case { result.make_case ≡ case }
{
    Plan {
        inputs,
        output: None,
        entry: None,
        exports: Seq::new(alloc),
        exports_if: Seq::new(alloc),
        wanted: Seq::new(alloc),
        export_dynamic: false,
        allow_undefined: false,
        import_memory: false,
        gc: false,
        stack_first: false,
        global_base: None,
        stack_size: 65536,
        initial_memory: 0,
        max_memory: None,
        threads,
        make_case: case,
        shared: false,
        partial: false,
        validate: false,
        keep_debug: false,
        like_lld: false,
        loose_calls: false,
        names: false,
        features: None,
    }
}

fn input_word(word: Word) -> InputWord {
    InputWord {
        place: 0,
        lazy: word.lazy,
        whole: word.whole,
    }
}

/// Two words.
fn two_words(alloc: Global, first: Word, second: Word) -> Result<Seq<InputWord>, OutOfMemory>
    ensures { IfOk result (λ words. length words ≡ 2) }
{
    let mut words = Seq::new(alloc);
    words.push(input_word(first))?;
    words.push(input_word(second))?;
    Ok(words)
}

/// Two files.
fn two_files(alloc: Global, first: Word, second: Word) -> Result<Seq<Seq<u8>>, OutOfMemory>
    ensures { IfOk result (λ files. length files ≡ 2) }
{
    let mut files = Seq::new(alloc);
    files.push(Seq::from_slice(alloc, first.bytes)?)?;
    files.push(Seq::from_slice(alloc, second.bytes)?)?;
    Ok(files)
}

/// The call with two files.
fn loaded<R: Threads + Sync, G: Gate>(
    rt: &R,
    alloc: Global,
    first: Word,
    second: Word,
    threads: u32,
    gate: &G,
) -> Result<Inputs, LinkError>
    requires { (1 ≤ threads) × (threads ≤ 64) }
{
    let words = two_words(alloc, first, second)?;
    let files = two_files(alloc, first, second)?;
    let plan = plan_of(alloc, words, None, threads);
    let Some(workers) = Workers::new(threads) else {
        unreachable!()
    };
    load_inputs(rt, alloc, &plan, files.as_slice(), workers, gate)
}

/// The call with two files in the place of generated objects.
fn generated<R: Threads + Sync>(
    rt: &R,
    alloc: Global,
    first: Word,
    second: Word,
) -> Result<Inputs, LinkError> {
    let files = two_files(alloc, first, second)?;
    let plan = plan_of(alloc, Seq::new(alloc), Some(2), 2);
    let Some(workers) = Workers::new(2) else {
        unreachable!()
    };
    load_inputs(rt, alloc, &plan, files.as_slice(), workers, &OpenGate)
}

/// The input of the object at this place, or 0.
fn input_at(inputs: &Inputs, at: usize) -> u32 {
    match inputs.objects().get(at) {
        Some(object) => object.input,
        None => 0,
    }
}

/// What the call answers.
fn told(answer: Result<Inputs, LinkError>) -> Outcome {
    match answer {
        Ok(inputs) => Outcome::Loaded(
            [
                input_at(&inputs, 0),
                input_at(&inputs, 1),
                input_at(&inputs, 2),
            ],
            inputs.objects().len(),
        ),
        Err(LinkError::Refused(Fault::Malformed { input, part: _ })) => Outcome::Malformed(input),
        Err(LinkError::Refused(Fault::Library { file, fault: _ })) => Outcome::NoLibrary(file),
        Err(_) => Outcome::Other,
    }
}

/// Two words, and what is answered.
type Case = (Word, Word, Outcome);

/// Whether the call answers so in each case, whoever reads.
fn are_answered<R: Threads + Sync>(rt: &R, alloc: Global, cases: &[Case]) -> bool {
    for (first, second, outcome) in cases {
        for threads in [1u32, 2, 64] {
            let answer = loaded(rt, alloc, *first, *second, threads, &OpenGate);
            if told(answer) != *outcome {
                return false;
            }
        }
    }
    true
}

fn needed_objects() -> [Case; 4] {
    let all = Outcome::Loaded([1, 2, 3], 3);
    let first_two = Outcome::Loaded([1, 2, 0], 2);
    let last_two = Outcome::Loaded([2, 3, 0], 2);
    [
        (plain(needs_a()), plain(library()), all),
        (plain(library()), plain(needs_a()), all),
        (plain(needs_a()), lazy(defines_a()), first_two),
        (lazy(defines_a()), whole(library()), last_two),
    ]
}

/// A member that is no object counts where it is needed, or its library is whole.
fn broken_members() -> [Case; 4] {
    let first = Outcome::Loaded([1, 0, 0], 1);
    let second = Outcome::Malformed(2);
    [
        (plain(broken_library()), plain(broken()), second),
        (plain(needs_a()), plain(broken_library()), second),
        (plain(defines_a()), plain(broken_library()), first),
        (plain(defines_a()), whole(broken_library()), second),
    ]
}

/// Of two faults the least input's is told, and one of a library before both.
fn least_faults() -> [Case; 4] {
    let first = Outcome::Malformed(1);
    [
        (plain(broken()), whole(broken_library()), first),
        (whole(broken_library()), plain(broken()), first),
        (lazy(broken()), plain(needs_a()), first),
        (plain(broken()), plain(no_library()), Outcome::NoLibrary(1)),
    ]
}

#[test]
fn the_least_fault_or_what_is_needed(rt: HostRuntime) {
    assert!(rt; are_answered(&rt, rt.alloc(), &needed_objects()));
    assert!(rt; are_answered(&rt, rt.alloc(), &broken_members()));
    assert!(rt; are_answered(&rt, rt.alloc(), &least_faults()));
}

/// Where the input stands, as its file, its first byte there, and how many bytes it has.
fn home_at(inputs: &Inputs, at: usize) -> Option<(u32, u64, u64)> {
    let home = inputs.homes().get(at)?;
    Some((home.file, home.start, home.len))
}

#[test]
fn each_input_has_a_home(rt: HostRuntime) -> Result<(), Fail> {
    let inputs = loaded(
        &rt,
        rt.alloc(),
        plain(library()),
        lazy(defines_a()),
        2,
        &OpenGate,
    )
    .ok()
    .ok_or("inputs")?;
    assert_eq!(rt; inputs.homes().len(), 3);
    assert_eq!(rt; home_at(&inputs, 0), Some((0, 144, 47)));
    assert_eq!(rt; home_at(&inputs, 1), Some((0, 252, 47)));
    assert_eq!(rt; home_at(&inputs, 2), Some((1, 0, 47)));
    assert_eq!(rt; inputs.objects().len(), 0);
    Ok(())
}

#[test]
fn generated_objects_are_loaded_at_once(rt: HostRuntime) {
    let answer = generated(&rt, rt.alloc(), lazy(defines_a()), whole(library()));
    assert_eq!(rt; told(answer), Outcome::Loaded([1, 3, 0], 2));
}

#[test]
fn two_objects_are_read_at_once(rt: HostRuntime) {
    for threads in [2u32, 64] {
        let gate = Meeting::new(Phase::Read);
        let answer = loaded(
            &rt,
            rt.alloc(),
            plain(needs_a()),
            lazy(defines_a()),
            threads,
            &gate,
        );
        assert_eq!(rt; told(answer), Outcome::Loaded([1, 2, 0], 2));
        assert_eq!(rt; gate.passed(), 2);
        assert!(rt; gate.was_met());
    }
}
