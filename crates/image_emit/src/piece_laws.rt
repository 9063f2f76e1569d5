//! Laws of the bytes of images.
ghost use Rattle.std.specs.Prelude.{◌≡◌, ◌<◌, ◌++◌, ℕ, List, [], length, take, drop, slice_index_or};
ghost use Rattle.image_emit.specs.declared.tree.Image.{Image};
ghost use Rattle.image_emit.specs.Bytes.{Tree, tree_of, bytes_of};
ghost use Rattle.image_emit.specs.Filled.{FillLaw};
ghost use Rattle.image_emit.specs.Measures.{LieIn, measure_of, image_measure};
ghost use Rattle.image_emit.specs.Stored.{OneSegment};
ghost use Rattle.image_emit.specs.Pieces.{front, pieces, joined, source_places, sources};

/// What stands before the first source and the pieces, one behind another, are the bytes of the module.
#[tactic(auto, using(crate::proofs::Joined::pieces_are_bytes))]
pub fn pieces_are_bytes()
    ensures { (t : Tree) → front t ++ joined (pieces t) ≡ bytes_of t }
{}

/// The measure of an image is that of its bytes, whatever its files hold.
#[tactic(auto, using(crate::proofs::Emitted::files_measure))]
pub fn measure_of_any_files()
    ensures { (files : List (List ℕ)) (i : Image) → LieIn files i → measure_of (tree_of files i) ≡ image_measure i }
{}

/// Each source stands at its place.
#[tactic(auto, using(crate::proofs::Stands::sources_stand))]
pub fn sources_stand()
    ensures { (t : Tree) (k : ℕ) → k < length (sources t) → take (length (slice_index_or (sources t) k [])) (drop (slice_index_or (source_places t) k 0) (bytes_of t)) ≡ slice_index_or (sources t) k [] }
{}

/// Windows that lie in their sources may be written into the module's bytes, each as much later as its source stands, or into
/// each source before these are joined.
#[tactic(auto, using(crate::proofs::Fills::fill_law))]
pub fn emit_then_fill()
    ensures { FillLaw }
{}

/// The one data segment leaves the memory that its blocks would leave one by one.
#[tactic(auto, using(crate::proofs::Laid::one_segment_law))]
pub fn one_segment()
    ensures { OneSegment }
{}
