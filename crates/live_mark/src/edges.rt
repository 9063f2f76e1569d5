//! What chunks refer to.
ghost use Rattle.std.specs.Prelude.{◌≡◌, ℕ, [], List, Option, filter_map, length, slice_index_or};

/// The references between chunks, which are numbered from 0. A chunk has a row of items, and each item leads to a chunk or to none: so what
/// chunks refer to is looked up where it is marked, and no list of it is made.
pub trait Edges: Sync {
    /// What a row is made of.
    type Item;

    /// For each chunk the chunks that it refers to, in any order, also more than once.
    ghost targets: { Self → List (List ℕ) };

    /// The chunk to which an item leads.
    ghost target: { Self → Self.Item → Option ℕ };

    /// How many chunks there are.
    fn count(&self) -> usize
        ensures { result ≡ length (targets self.now) };

    /// The row of a chunk; no items where there is no such chunk.
    fn row(&self, chunk: u32) -> &[Self::Item]
        ensures { filter_map (target self.now) result.now ≡ slice_index_or (targets self.now) chunk [] };

    /// The chunk to which an item leads.
    fn target(&self, item: &Self::Item) -> Option<u32>
        ensures { result ≡ target self.now item.now };
}
