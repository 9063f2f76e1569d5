//! Modules, read and written (Core 2.5 and 5.5), and the parts that only a module has.
#![tactic(auto)]

mod codes;
mod entries;
pub mod export_kinds;
mod fault;
mod forms;
mod laws;
mod parts;
mod reading;
mod sections;
mod segments;
mod structure;
mod writing;

pub use entries::{export_at, global_at, init_at};
pub use fault::ModuleFault;
pub use laws::{
    module_is_unambiguous, parts_are_steady, parts_are_unambiguous, written_module_is_read,
};
pub use parts::{DataSegment, Element, Export, ModuleGlobal};
pub use reading::read;
pub use sections::lent_name_at;
pub use segments::{data_segment_at, element_at, lent_segment_at};
pub use structure::Module;
pub use wasm_sections::{FrameFault, SectionSpan, frame};
pub use wasm_types::{
    ConstExpr, FuncType, GlobalType, Import, ImportKind, const_expr_at, global_type_at,
    import_kind_at, table_type_at,
};
pub use writing::write;
