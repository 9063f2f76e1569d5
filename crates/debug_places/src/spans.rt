//! Where the bytes of objects stand.
ghost use Rattle.std.specs.Prelude.{◌≡◌, map, IfOk};
ghost use Rattle.link_program.specs.Loaded.{IsLoaded, Origin};
ghost use Rattle.link_debug.specs.Places.{link_inputs};
ghost use Rattle.debug_out.specs.Inputs.{inputs_of};
ghost use Rattle.debug_places.specs.Spans.{span_seen};

use link_program::{Home, Object};
use std::alloc::Global;
use wl_base::{FileSpan, InputId, OutOfMemory, Seq, Span};

/// Where the bytes of an input stand; inputs count from 1. It has none where it has no home.
fn span_of(homes: &[Home], input: InputId) -> FileSpan
    ensures { result ≡ span_seen homes.now input }
{
    let at = (input as usize).saturating_sub(1);
    match homes.get(at) {
        Some(home) => FileSpan {
            file: home.file,
            span: Span {
                start: home.start,
                len: home.len,
            },
        },
        None => FileSpan {
            file: 0,
            span: Span { start: 0, len: 0 },
        },
    }
}

/// Where the bytes of each object stand.
pub(crate) fn spans(
    alloc: Global,
    homes: &[Home],
    objects: &[Object],
) -> Result<Seq<FileSpan>, OutOfMemory>
    ensures { IfOk result (λ spans. spans ≡ map (λ o. span_seen homes.now o.input) objects.now) }
{
    let mut spans = Seq::with_room(alloc, objects.len())?;
    for o in objects {
        spans.push(span_of(homes, o.input))?;
    }
    Ok(spans)
}

/// Where the bytes of each loaded object stand in the files, by where each input does.
pub fn object_spans(
    alloc: Global,
    homes: &[Home],
    objects: &[Object],
) -> Result<Seq<FileSpan>, OutOfMemory>
    ghost origin: { Origin }
    requires { IsLoaded origin.files origin.all objects.now homes.now }
    ensures { IfOk result (λ spans. inputs_of origin.files objects.now spans ≡ link_inputs origin.files origin.all objects.now) }
{
    let spans = spans(alloc, homes, objects)?;
    Ok(spans)
}
