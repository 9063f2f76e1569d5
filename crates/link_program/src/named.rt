//! What windows name.

/// What a window of a part names, or what an init entry calls (Linking.md, "Relocation Sections").
#[derive(Clone, Copy, Debug, PartialEq, Eq)]
pub enum Named {
    /// A symbol, by its place among the symbols of all objects. The kind stands first, so that an item takes 16 bytes.
    Symbol {
        /// The type of the relocation; 0 of an init entry.
        kind: u8,
        /// Where the window stands in the part.
        place: u32,
        addend: i32,
        symbol: u32,
    },
    /// A function type, by its number among all types.
    Type {
        /// Where the window stands in the part.
        place: u32,
        number: u32,
    },
}
