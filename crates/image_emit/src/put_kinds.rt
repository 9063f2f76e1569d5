//! How each kind of entry is written.
ghost use Rattle.std.specs.Prelude.{◌≡◌, length};

use crate::put::{
    Put, plus, put_byte, put_bytes, put_number, put_sized, put_vector, sized_size, u32_size,
    vector_size,
};
use leb_codec::{write_s32, write_s64};
use wasm_module::{Element, Export, ModuleGlobal};
use wasm_types::{ConstExpr, FuncType, GlobalType, Import, ImportKind, Limits, TableType, ValType};

impl Put for u32 {
    ghost use Rattle.wasm_module.specs.wasm_instr.leb_codec.Shortest.{u32 as shortest_u32};
    ghost use Rattle.image_emit.specs.Some.{u32_some};

    ghost spelled = { shortest_u32 };

    ghost some = { u32_some };

    fn size(&self) -> u64 {
        u32_size(u64::from(*self))
    }

    fn put(&self, at: usize, out: &mut [u8]) -> usize {
        put_number(*self, at, out)
    }
}

impl Put for ValType {
    ghost use Rattle.image_emit.specs.Bytes.{val_type};
    ghost use Rattle.image_emit.specs.Some.{val_type_some};

    ghost spelled = { val_type };

    ghost some = { val_type_some };

    fn size(&self) -> u64 {
        1
    }

    fn put(&self, at: usize, out: &mut [u8]) -> usize {
        put_byte(self.byte(), at, out)
    }
}

impl Put for FuncType {
    ghost use Rattle.image_emit.specs.Bytes.{func_type};
    ghost use Rattle.image_emit.specs.Some.{func_type_some};

    ghost spelled = { func_type };

    ghost some = { func_type_some };

    fn size(&self) -> u64 {
        let params = vector_size(self.params.as_slice());
        plus(plus(1, params), vector_size(self.results.as_slice()))
    }

    fn put(&self, at: usize, out: &mut [u8]) -> usize {
        let at = put_byte(0x60, at, out);
        let at = put_vector(self.params.as_slice(), at, out);
        put_vector(self.results.as_slice(), at, out)
    }
}

impl Put for Limits {
    ghost use Rattle.image_emit.specs.Bytes.{limits};
    ghost use Rattle.image_emit.specs.Some.{limits_some};

    ghost spelled = { limits };

    ghost some = { limits_some };

    fn size(&self) -> u64 {
        match self.max {
            None => plus(1, self.min.size()),
            Some(max) => plus(plus(1, self.min.size()), max.size()),
        }
    }

    fn put(&self, at: usize, out: &mut [u8]) -> usize {
        match self.max {
            None => {
                let at = put_byte(0, at, out);
                put_number(self.min, at, out)
            }
            Some(max) => {
                let at = put_byte(1, at, out);
                let at = put_number(self.min, at, out);
                put_number(max, at, out)
            }
        }
    }
}

impl Put for TableType {
    ghost use Rattle.image_emit.specs.Bytes.{table};
    ghost use Rattle.image_emit.specs.Some.{table_some};

    ghost spelled = { table };

    ghost some = { table_some };

    fn size(&self) -> u64 {
        plus(1, self.limits.size())
    }

    fn put(&self, at: usize, out: &mut [u8]) -> usize {
        let at = put_byte(if self.funcref { 0x70 } else { 0x6F }, at, out);
        self.limits.put(at, out)
    }
}

impl Put for GlobalType {
    ghost use Rattle.image_emit.specs.Bytes.{global_type};
    ghost use Rattle.image_emit.specs.Some.{global_type_some};

    ghost spelled = { global_type };

    ghost some = { global_type_some };

    fn size(&self) -> u64 {
        2
    }

    fn put(&self, at: usize, out: &mut [u8]) -> usize {
        let at = put_byte(self.kind.byte(), at, out);
        put_byte(if self.var { 1 } else { 0 }, at, out)
    }
}

impl Put for ImportKind {
    ghost use Rattle.image_emit.specs.Bytes.{import_kind};
    ghost use Rattle.image_emit.specs.Some.{import_kind_some};

    ghost spelled = { import_kind };

    ghost some = { import_kind_some };

    fn size(&self) -> u64 {
        match self {
            ImportKind::Function(index) => plus(1, index.size()),
            ImportKind::Table(table) => plus(1, table.size()),
            ImportKind::Memory(limits) => plus(1, limits.size()),
            ImportKind::GlobalVar(global) => plus(1, global.size()),
        }
    }

    fn put(&self, at: usize, out: &mut [u8]) -> usize {
        match self {
            ImportKind::Function(index) => {
                let at = put_byte(0, at, out);
                index.put(at, out)
            }
            ImportKind::Table(table) => {
                let at = put_byte(1, at, out);
                table.put(at, out)
            }
            ImportKind::Memory(limits) => {
                let at = put_byte(2, at, out);
                limits.put(at, out)
            }
            ImportKind::GlobalVar(global) => {
                let at = put_byte(3, at, out);
                global.put(at, out)
            }
        }
    }
}

impl Put for Import {
    ghost use Rattle.image_emit.specs.Bytes.{import_entry};
    ghost use Rattle.image_emit.specs.Some.{import_entry_some};

    ghost spelled = { import_entry };

    ghost some = { import_entry_some };

    fn size(&self) -> u64 {
        let module = sized_size(self.module.as_slice());
        let field = sized_size(self.field.as_slice());
        plus(plus(module, field), self.kind.size())
    }

    fn put(&self, at: usize, out: &mut [u8]) -> usize {
        let at = put_sized(self.module.as_slice(), at, out);
        let at = put_sized(self.field.as_slice(), at, out);
        self.kind.put(at, out)
    }
}

impl Put for ConstExpr {
    ghost use Rattle.image_emit.specs.Bytes.{const_expr};
    ghost use Rattle.image_emit.specs.Some.{const_expr_some};

    ghost spelled = { const_expr };

    ghost some = { const_expr_some };

    fn size(&self) -> u64 {
        let mut bytes = [0u8; 10];
        match *self {
            ConstExpr::I32(n) => 2 + write_s32(n, &mut bytes) as u64,
            ConstExpr::I64(n) => 2 + write_s64(n, &mut bytes) as u64,
            ConstExpr::Get(global) => plus(2, global.size()),
        }
    }

    fn put(&self, at: usize, out: &mut [u8]) -> usize {
        let mut bytes = [0u8; 10];
        let at = match *self {
            ConstExpr::I32(n) => {
                let len = write_s32(n, &mut bytes);
                let at = put_byte(0x41, at, out);
                put_bytes(&bytes[..len], at, out)
            }
            ConstExpr::I64(n) => {
                let len = write_s64(n, &mut bytes);
                let at = put_byte(0x42, at, out);
                put_bytes(&bytes[..len], at, out)
            }
            ConstExpr::Get(global) => {
                let at = put_byte(0x23, at, out);
                put_number(global, at, out)
            }
        };
        put_byte(0x0B, at, out)
    }
}

impl Put for ModuleGlobal {
    ghost use Rattle.image_emit.specs.Bytes.{global};
    ghost use Rattle.image_emit.specs.Some.{global_some};

    ghost spelled = { global };

    ghost some = { global_some };

    fn size(&self) -> u64 {
        plus(self.kind.size(), self.value.size())
    }

    fn put(&self, at: usize, out: &mut [u8]) -> usize {
        let at = self.kind.put(at, out);
        self.value.put(at, out)
    }
}

impl Put for Export {
    ghost use Rattle.image_emit.specs.Bytes.{export};
    ghost use Rattle.image_emit.specs.Some.{export_some};

    ghost spelled = { export };

    ghost some = { export_some };

    fn size(&self) -> u64 {
        plus(sized_size(self.name.as_slice()), plus(1, self.index.size()))
    }

    fn put(&self, at: usize, out: &mut [u8]) -> usize {
        let at = put_sized(self.name.as_slice(), at, out);
        let at = put_byte(self.kind, at, out);
        put_number(self.index, at, out)
    }
}

impl Put for Element {
    ghost use Rattle.image_emit.specs.Bytes.{element};
    ghost use Rattle.image_emit.specs.Some.{element_some};

    ghost spelled = { element };

    ghost some = { element_some };

    fn size(&self) -> u64 {
        let head = match self.table {
            None => plus(1, self.offset.size()),
            Some(table) => plus(plus(2, table.size()), self.offset.size()),
        };
        plus(head, vector_size(self.functions.as_slice()))
    }

    fn put(&self, at: usize, out: &mut [u8]) -> usize {
        let at = match self.table {
            None => {
                let at = put_byte(0, at, out);
                self.offset.put(at, out)
            }
            Some(table) => {
                let at = put_byte(2, at, out);
                let at = put_number(table, at, out);
                let at = self.offset.put(at, out);
                put_byte(0, at, out)
            }
        };
        put_vector(self.functions.as_slice(), at, out)
    }
}
