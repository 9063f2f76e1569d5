//! A function and its name, as it is written.
ghost use Rattle.std.specs.Prelude.{◌≡◌};
ghost use Rattle.image_emit.specs.Put.{capped};

use image_emit::put::{Put, plus, put_bytes, put_number, u32_size};

/// A function of the output by its number, and its name, which is lent in two pieces: a prefix that the linker puts before the names of the
/// functions that it makes in place of others, and a name of an object.
#[derive(Clone, Copy)]
pub struct FunctionName<'a> {
    pub index: u32,
    pub prefix: &'a [u8],
    pub name: &'a [u8],
}

impl Put for FunctionName<'_> {
    ghost use Rattle.name_section.specs.Names.{association, named_seen};
    ghost use Rattle.name_section.specs.Some.{association_some};

    ghost spelled = { λ n. association (named_seen n) };

    ghost some = { λ n. association_some (named_seen n) };

    fn size(&self) -> u64 {
        let len = plus(self.prefix.len() as u64, self.name.len() as u64);
        plus(u32_size(u64::from(self.index)), plus(u32_size(len), len))
    }

    fn put(&self, at: usize, out: &mut [u8]) -> usize {
        let len = self.prefix.len() + self.name.len();
        let at = put_number(self.index, at, out);
        let at = put_number(len as u32, at, out);
        let at = put_bytes(self.prefix, at, out);
        put_bytes(self.name, at, out)
    }
}
