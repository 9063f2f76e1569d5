//! What holds of told data, as calls that do nothing: their contracts are the laws.
ghost use Rattle.partial_bytes.specs.Told.{RowsAreWindowed, RowsFit};

/// Parts whose relocations are those that the definition makes of what parts of a program name, and
/// whose bytes are theirs, stand for those with empty windows. Where these windows lie in the parts,
/// they meet what is asked of a tree.
pub fn rows_are_windowed()
    ensures told { RowsAreWindowed }
    ensures fit { RowsFit }
{}
