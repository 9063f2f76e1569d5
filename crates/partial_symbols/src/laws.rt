//! What the numbers tell, as calls that do nothing: their contracts are the laws.
ghost use Rattle.partial_symbols.specs.Laws.{NumbersAre};

/// The number that is found for what a window names is the one that the definition gives.
pub fn numbers_are()
    ensures { NumbersAre }
{}
