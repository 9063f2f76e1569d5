//! What the windows of bodies and segments name.
ghost use Rattle.std.specs.Prelude.{◌≡◌, ◌+◌, ◌<◌, ◌^◌, length, filter_map, OnOk};
ghost use Rattle.link_program.specs.body_windows.Operands.{operands_seen};
ghost use Rattle.program_tables.specs.Views.{view_seen};
ghost use Rattle.program_tables.specs.Rows.{symbol_named, operand_named, window_named};

use crate::pushing::push_some;
use crate::view::ObjectView;
use body_windows::{Operand, OperandsRef};
use link_program::Named;
use reloc_section::Reloc;
use wl_base::{OutOfMemory, Seq};

impl ObjectView<'_> {
    /// A window that names a symbol of the object; `None` exactly where there is no such symbol.
    fn symbol_named(self, place: u32, kind: u8, addend: i32, symbol: u32) -> Option<Named>
        requires { self.first + length self.from.now.symbols < 2 ^ 32 }
        ensures { result ≡ symbol_named (view_seen self.entry) place kind addend symbol }
    {
        if symbol as usize >= self.from.symbols.len() {
            return None;
        }
        Some(Named::Symbol {
            kind,
            place,
            addend,
            symbol: self.named_by(kind, symbol),
        })
    }

    /// What an operand names, if it names anything.
    fn operand_named(self, operand: Operand) -> Option<Named>
        requires { self.first + length self.from.now.symbols < 2 ^ 32 }
        ensures { result ≡ operand_named (view_seen self.entry) operand }
    {
        match operand {
            Operand::Number | Operand::TableZero => None,
            Operand::Symbol {
                kind,
                place,
                symbol,
                addend,
            } => self.symbol_named(place, kind, addend, symbol),
            Operand::TypeRef { place, index } => Some(Named::Type {
                place,
                number: self.type_number(index),
            }),
        }
    }

    /// What a window of a segment names, if its symbol is there.
    fn window_named(self, window: Reloc) -> Option<Named>
        requires { self.first + length self.from.now.symbols < 2 ^ 32 }
        ensures { result ≡ window_named (view_seen self.entry) window }
    {
        self.symbol_named(window.offset, window.kind, window.addend, window.index)
    }

    /// What the operands of a body name, in place of what the row has.
    pub(crate) fn name_operands(
        self,
        row: &mut Seq<Named>,
        operands: OperandsRef<'_>,
    ) -> Result<(), OutOfMemory>
        requires { self.first + length self.from.now.symbols < 2 ^ 32 }
        ensures { OnOk result (row.new ≡ filter_map (operand_named (view_seen self.entry)) (operands_seen operands.entry)) }
    {
        row.truncate(0);
        for reference in operands.references {
            push_some(row, self.operand_named(reference.operand()))?;
        }
        Ok(())
    }

    /// What the windows of a segment name, in place of what the row has.
    pub(crate) fn name_windows(
        self,
        row: &mut Seq<Named>,
        windows: &[Reloc],
    ) -> Result<(), OutOfMemory>
        requires { self.first + length self.from.now.symbols < 2 ^ 32 }
        ensures { OnOk result (row.new ≡ filter_map (window_named (view_seen self.entry)) windows.now) }
    {
        row.truncate(0);
        for window in windows {
            push_some(row, self.window_named(*window))?;
        }
        Ok(())
    }
}
