//! How globals, segment infos, init functions and groups are written.
ghost use Rattle.std.specs.Prelude.{◌≡◌, length};

use crate::item::{Item, put_vector, vector_size};
use crate::tree::{GlobalRow, GroupRow, InfoRow};
use image_emit::put::{
    Put, plus, put_byte, put_bytes, put_number, put_sized, sized_size, u32_size,
};
use linking_section::{InitFunc, Member};

impl Item for GlobalRow<'_> {
    ghost use Rattle.partial_bytes.specs.Items.{global_row};
    ghost use Rattle.partial_bytes.specs.Some.{global_some};

    ghost spelled = { global_row };

    ghost some = { global_some };

    fn size(&self) -> u64 {
        plus(2, self.bytes.len() as u64)
    }

    fn put(&self, at: usize, out: &mut [u8]) -> usize {
        let at = Put::put(&self.kind, at, out);
        put_bytes(self.bytes, at, out)
    }
}

impl Item for InfoRow<'_> {
    ghost use Rattle.partial_bytes.specs.Items.{info_row};
    ghost use Rattle.partial_bytes.specs.Some.{info_some};

    ghost spelled = { info_row };

    ghost some = { info_some };

    fn size(&self) -> u64 {
        let align = u32_size(u64::from(self.align));
        let flags = u32_size(u64::from(self.flags));
        plus(plus(sized_size(self.name), align), flags)
    }

    fn put(&self, at: usize, out: &mut [u8]) -> usize {
        let at = put_sized(self.name, at, out);
        let at = put_number(self.align, at, out);
        put_number(self.flags, at, out)
    }
}

impl Item for InitFunc {
    ghost use Rattle.partial_rules.specs.Relocatable.{init};
    ghost use Rattle.partial_bytes.specs.Some.{init_some};

    ghost spelled = { init };

    ghost some = { init_some };

    fn size(&self) -> u64 {
        plus(
            u32_size(u64::from(self.priority)),
            u32_size(u64::from(self.symbol)),
        )
    }

    fn put(&self, at: usize, out: &mut [u8]) -> usize {
        let at = put_number(self.priority, at, out);
        put_number(self.symbol, at, out)
    }
}

impl Item for Member {
    ghost use Rattle.partial_rules.specs.Relocatable.{member};
    ghost use Rattle.partial_bytes.specs.Some.{member_some};

    ghost spelled = { member };

    ghost some = { member_some };

    fn size(&self) -> u64 {
        plus(1, u32_size(u64::from(self.index)))
    }

    fn put(&self, at: usize, out: &mut [u8]) -> usize {
        let at = put_byte(self.kind, at, out);
        put_number(self.index, at, out)
    }
}

impl Item for GroupRow<'_> {
    ghost use Rattle.partial_bytes.specs.Items.{group_row};
    ghost use Rattle.partial_bytes.specs.Some.{group_some};

    ghost spelled = { group_row };

    ghost some = { group_some };

    fn size(&self) -> u64 {
        plus(
            plus(sized_size(self.name), u32_size(0)),
            vector_size(self.members),
        )
    }

    fn put(&self, at: usize, out: &mut [u8]) -> usize {
        let at = put_sized(self.name, at, out);
        let at = put_number(0, at, out);
        put_vector(self.members, at, out)
    }
}
