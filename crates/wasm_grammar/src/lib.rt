//! What every reader and writer of the binary format is made of: bytes, numbers, names, vectors and
//! parts of a given size, each as a relation (which bytes spell it), as a function (what reading
//! gives, with the first fault from left to right and its place) and as the call that does it.
#![tactic(auto)]

mod fault;
mod laws;
mod names;
mod parts;
mod sized;
mod vector;
mod writing;

pub use fault::{ReadFault, Stop};
pub use laws::{one_value, read_again};
pub use names::{blob_at, name_at};
pub use parts::{
    byte_at, bytes_at, front_at, none_at, part_at, place, s32_at, s33_at, s64_at, tag_at, u32_at,
};
pub use sized::{read_front, sized_at, whole};
pub use vector::{Form, many_at, vector_at};
pub use writing::{
    Spell, cut_back, put_byte, put_bytes, put_count, put_itself, put_s32, put_s64, put_u32,
    put_vector,
};
