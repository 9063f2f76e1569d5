//! What places segments, and where they stand.

use wl_base::Seq;

/// How memory is laid out. All numbers are bytes.
#[derive(Clone, Copy, Debug, PartialEq, Eq)]
pub enum MemoryRules {
    /// The linker chooses all addresses.
    Absolute {
        /// Whether the stack stands at 0 and the data behind it; else it stands behind the data.
        stack_first: bool,
        /// Where data begin at the least. Without it, at 1024, and at 0 with the stack first.
        base: Option<u32>,
        /// The size of the stack.
        stack: u32,
        /// The least size of the memory: a multiple of 65,536, at most 2^32.
        initial: u64,
        /// The greatest size of the memory, where there is one: a multiple of 65,536, at most 2^32.
        max: Option<u64>,
    },
    /// The loader chooses the base: addresses count from it, and stack, heap and pages are its own.
    Relative,
}

/// What of a segment its place depends on.
#[derive(Clone, Copy, Debug, PartialEq, Eq)]
pub struct SegmentShape {
    /// How many bytes it has.
    pub len: u32,
    /// Its address is a multiple of two to this power, which is at most 31.
    pub align: u32,
    /// Whether it holds zeros alone, and so stands behind those that don't.
    pub zero: bool,
}

/// Where everything stands, in bytes from 0. Under `Relative` all but the addresses and the data's
/// end is 0, and these count from the base.
#[derive(Debug, PartialEq, Eq, Drop)]
pub struct Places {
    /// The address of each segment, in the order in which they were given.
    pub addresses: Seq<u32>,
    /// Where data begin.
    pub base: u32,
    /// The end of the segment that is placed last, or where data begin.
    pub data_end: u32,
    /// The stack's lower end.
    pub stack_low: u32,
    /// The stack's upper end.
    pub stack_high: u32,
    /// Where the heap begins.
    pub heap_base: u32,
    /// How many pages of 65,536 bytes the memory has at first.
    pub pages: u32,
}
