//! Whether parts of files lie in them.
ghost use Rattle.std.specs.Prelude.{◌≡◌, true};
ghost use Rattle.std.specs.List.{list_all};
ghost use Rattle.image_emit.specs.Measures.{LieIn, lies, placed_lies};

use crate::{Image, PlacedSource, Source};
use wl_base::Seq;

/// Whether all parts of files lie in them: true exactly where they do.
#[tactic(auto, using(crate::proofs::Emitted::lie_from, crate::proofs::Emitted::lie_back))]
pub fn lie_in(files: &[Seq<u8>], image: &Image) -> bool
    ensures lie { result ≡ true → LieIn files.now image.now }
    ensures only { LieIn files.now image.now → result ≡ true }
{
    sources_lie(files, image.bodies.as_slice()) && blocks_lie(files, image.blocks.as_slice())
}

fn sources_lie(files: &[Seq<u8>], sources: &[Source]) -> bool
    ensures { result ≡ list_all (lies files.now) sources.now }
{
    sources.iter().all(|source| lies(files, source))
}

fn blocks_lie(files: &[Seq<u8>], blocks: &[PlacedSource]) -> bool
    ensures { result ≡ list_all (placed_lies files.now) blocks.now }
{
    blocks.iter().all(|block| lies(files, &block.source))
}

// Whether a part of a file lies in it.
fn lies(files: &[Seq<u8>], source: &Source) -> bool
    ensures { result ≡ lies files.now source.now }
{
    match source {
        Source::File(part) => {
            let len = match files.get(part.file as usize) {
                Some(file) => file.as_slice().len() as u64,
                None => 0,
            };
            part.span.start <= len && part.span.len <= len - part.span.start
        }
        Source::Own(_) => true,
    }
}
