//! Images are written by several workers.
ghost use Rattle.std.specs.Prelude.{◌≡◌, length, Ok};
ghost use Rattle.image_emit.specs.Bytes.{tree_of, bytes_of};
ghost use Rattle.image_emit.specs.Measures.{LieIn, image_measure};

use crate::parts::parts_of;
use crate::splitting::{Division, Emitter};
use crate::{Image, Measured};
use std::thread::Threads;
use wl_base::Seq;
use wl_fan::{Workers, each_slice};
use wl_outside::Gate;

/// Writes the bytes of an image (Core 5.5.16), with the parts of files as they stand there, into a buffer of the measured
/// length, whatever that holds. It takes no memory and can't fail.
///
/// The chunks, which are the bodies and the blocks, are shared out among the workers by their bytes: each has one at least,
/// and where there is little to copy there are fewer. A worker passes the gate before each chunk; the job is the number of the
/// chunk in the output.
pub fn emit<'a, R: Threads + Sync, G: Gate>(
    rt: &R,
    image: &'a Image,
    m: &'a Measured,
    files: &'a [Seq<u8>],
    out: &mut [u8],
    workers: Workers,
    gate: &'a G,
)
    requires measured { image_measure image.now ≡ Ok m.now }
    requires files { LieIn files.now image.now }
    requires room { length out.old ≡ m.now.len }
    ensures { out.new ≡ bytes_of (tree_of files.now image.now) }
{
    let places = m.places.as_slice();
    let width = parts_of(m.len, places.len(), workers.count());
    let division = Division {
        image,
        places,
        files,
        len: m.len,
        width,
    };
    let emitter = Emitter { division, gate };
    each_slice(rt, &emitter, out, 0, width);
}
