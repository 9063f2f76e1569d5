//! What the output has, in order: its functions, the slots of its table, its globals and its types, by what the live parts ask for.
//! `link_numbers` gives them their numbers.
#![tactic(auto)]

mod asked;
mod codes;
mod firsts;
mod lists;
mod marking;
mod marks;
mod sharing;
mod types;

pub(crate) use codes::got_code;
pub use codes::{Code, function_code, global_code};
pub use firsts::At;
pub use link_program::{
    Entries, FunctionKey, GlobalKey, Named, Names, Program, Symbol, Tables, Winner, symbol_at,
};
pub use lists::{
    flag_at, function_codes, functions_listed, global_codes, globals_listed, is_global_import,
    push_data, push_own_globals, slots_taken,
};
pub use marking::marks_of;
pub use marks::{Marks, flag, import_named, put_numbers};
pub use types::{TypeNumbers, numbers_in, types_told};
