//! The types of a module (Core 5.3), imports (Core 5.5.5) and constant expressions (Core 5.4.9),
//! read and written.
//!
//! `read_` and `write_` are for one type alone. The `_at` and `put_` calls are the parts that the
//! readers and writers of whole sections are made of.
#![tactic(auto)]

mod const_expr;
mod fault;
mod function;
mod import;
mod laws;
mod table;
mod val_byte;
mod value;

pub use const_expr::{ConstExpr, const_expr_at, put_const_expr};
pub use fault::{FormFault, PlainFault};
pub use function::{FuncType, func_type_at, put_func_type, read_func_type, write_func_type};
pub use import::{Import, ImportKind, import_at, import_kind_at, put_import_kind};
pub use laws::{
    const_expr_is_steady, const_expr_is_unambiguous, func_type_is_steady, func_type_is_unambiguous,
    global_type_is_steady, global_type_is_unambiguous, import_is_steady, import_is_unambiguous,
    limits_are_steady, limits_are_unambiguous, same_types_are_equal, table_type_is_steady,
    table_type_is_unambiguous, val_type_is_steady, val_type_is_unambiguous,
};
pub use table::{
    GlobalType, Limits, TableType, global_type_at, limits_at, put_global_type, put_limits,
    put_table_type, read_global_type, read_limits, table_type_at, write_global_type, write_limits,
};
pub use value::{ValType, plain_val_type_at, val_type_of};
