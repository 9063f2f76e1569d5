//! Why bytes are no module.
ghost use Rattle.std.specs.Prelude.{◌≡◌};
ghost use Rattle.wasm_module.specs.ModuleReading.{module_fault};

use wasm_grammar::ReadFault;

/// Why no module is read.
#[derive(Clone, Copy, Debug, PartialEq, Eq)]
pub enum ModuleFault {
    /// The bytes are outside the grammar of a module, or have an item that isn't linked.
    NotModule,
    /// Memory was refused. It says nothing of the bytes.
    OutOfMemory,
}

impl From<ReadFault> for ModuleFault {
    ghost from_gives = { λ e f. f ≡ module_fault e };

    fn from(e: ReadFault) -> ModuleFault {
        match e {
            ReadFault::Stopped(_) => ModuleFault::NotModule,
            ReadFault::OutOfMemory => ModuleFault::OutOfMemory,
        }
    }
}
