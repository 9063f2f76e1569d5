//! What the linker makes each symbol for.

/// What a linker-made symbol stands for, whatever its number is in a mode.
#[derive(Clone, Copy, Debug, PartialEq, Eq)]
pub enum Role {
    /// The function that calls the init functions (Linking.md, "Start Section").
    CallCtors,
    /// The function that writes the addresses which the loader chose into the data (DynamicLinking.md).
    ApplyDataRelocs,
    /// The global that holds the end of the stack in use.
    StackPointer,
    /// The global that holds where the module's data begin (DynamicLinking.md).
    MemoryBase,
    /// The global that holds the module's first slot of the table (DynamicLinking.md).
    TableBase,
    /// The table that indirect calls look functions up in.
    IndirectFunctionTable,
    /// The address at which the heap begins.
    HeapBase,
    /// The address at which the data end.
    DataEnd,
    /// The address at which the data begin.
    GlobalBase,
    /// An address that is the module's own.
    DsoHandle,
    /// The stack's lower end.
    StackLow,
    /// The stack's upper end.
    StackHigh,
    /// The end of the memory at first.
    HeapEnd,
}
