//! What the words of a command line ask for.

use wl_base::{Name, Seq, Text};

/// An input, by its word.
#[derive(Clone, Copy, Debug, PartialEq, Eq)]
pub struct InputWord {
    /// The place of the word, counted from 0.
    pub place: u32,
    /// Whether the word stands between `--start-lib` and `--end-lib`: an object that is loaded by need.
    pub lazy: bool,
    /// Whether the word stands after `--whole-archive`: a library that is loaded whole.
    pub whole: bool,
}

/// What drivers say of the features that objects use (Linking.md, "Target Features Section").
#[derive(Debug, Drop)]
pub struct FeatureWords {
    /// `--features`: those that the module may use; none where they are those that objects use.
    pub allowed: Option<Seq<Name>>,
    /// `--extra-features`: those that the module says beside these.
    pub extra: Seq<Name>,
    /// `--check-features`: objects that don't agree are refused.
    pub checked: bool,
    /// A section `target_features` stands behind the module.
    pub kept: bool,
}

/// What the words ask for, with one field for each option.
#[derive(Debug, Drop)]
pub struct Plan {
    /// The inputs, in the order of the words.
    pub inputs: Seq<InputWord>,
    /// `-o`: the output's name.
    pub output: Option<Text>,
    /// `--entry`: the function where the program begins; none with `--no-entry`.
    pub entry: Option<Name>,
    /// `--export`: names that are exported.
    pub exports: Seq<Name>,
    /// `--export-if-defined`: names that are exported where they are defined.
    pub exports_if: Seq<Name>,
    /// `-u`: names that count as referenced when library members are loaded.
    pub wanted: Seq<Name>,
    /// `--export-dynamic`: export every definition that isn't local or hidden.
    pub export_dynamic: bool,
    /// `--allow-undefined`: import undefined functions and globals.
    pub allow_undefined: bool,
    /// `--import-memory`: import `env.memory` in place of an own memory.
    pub import_memory: bool,
    /// `--gc-sections`: drop what nothing refers to.
    pub gc: bool,
    /// `--stack-first`: the stack stands at address 0.
    pub stack_first: bool,
    /// `--global-base`: the address where data begin.
    pub global_base: Option<u32>,
    /// `-z stack-size`: the stack's bytes.
    pub stack_size: u32,
    /// `--initial-memory`: the least size of the memory, in bytes.
    pub initial_memory: u64,
    /// `--max-memory`: the greatest size of the memory, in bytes.
    pub max_memory: Option<u64>,
    /// `--threads`: how many workers there are, from 1 to 64.
    pub threads: u32,
    /// `--make-case`: how many objects are generated in place of inputs.
    pub make_case: Option<u32>,
    /// `-shared`: a position-independent output, which a loader places at run time.
    pub shared: bool,
    /// `-r`: a partial link, whose output is one relocatable object.
    pub partial: bool,
    /// `--validate`: the output is checked by the standard's rules of validation.
    pub validate: bool,
    /// `--keep-debug`: the objects' debug sections are joined behind the module.
    pub keep_debug: bool,
    /// The link is a compiler driver's: one that would lose constructors is refused. No word sets it.
    pub like_lld: bool,
    /// A function may be called by another type than its definition has, as with wasm-ld: such a call traps. No word sets it.
    pub loose_calls: bool,
    /// A section `name` with the functions' names stands behind the module (Core, appendix 7.4). No word sets it.
    pub names: bool,
    /// What is done with the features that objects use; none where nobody asks. No word sets it.
    pub features: Option<FeatureWords>,
}
