//! Windows are divided among workers.
ghost use Rattle.std.specs.Prelude.{◌≡◌, ◌-◌, ◌^◌, min};

use crate::Patch;
use crate::cuts::Cuts;
use crate::writing::fill_window;
use wl_fan::Slices;
use wl_outside::{Gate, Phase};

/// An output whose parts are filled. Each worker passes the gate before each window.
#[derive(Drop)]
pub struct Sharing<'a, 'b, G: Gate> {
    pub cuts: Cuts<'a>,
    pub gate: &'b G,
}

impl<G: Gate> Slices<u8> for Sharing<'_, '_, G> {
    ghost use Rattle.std.specs.Prelude.{◌≡◌, ◌+◌};
    ghost use Rattle.reloc_apply.specs.Windows.{filled};
    ghost use Rattle.reloc_apply.specs.Apart.{from_here};
    ghost use Rattle.reloc_apply.specs.Parts.{begins, windows_in};
    ghost use Rattle.reloc_apply.specs.PartLaws.{begins_rises};

    ghost begins = { λ s part. begins s.cuts.patches.now s.cuts.end s.cuts.parts part };

    ghost worked = { λ s part old new. new ≡ filled (from_here (begins s.cuts.patches.now s.cuts.end s.cuts.parts part) (windows_in s.cuts.patches.now s.cuts.parts part (part + 1))) old };

    ghost rises = { λ s p q le below. begins_rises s.cuts.patches.now s.cuts.end s.cuts.parts p q s.cuts.apart le };

    fn cut(&self, part: u32) -> usize {
        self.cuts.begin(part)
    }

    fn work(&self, part: u32, items: &mut [u8]) {
        let Cuts { patches, .. } = self.cuts;
        let start = self.cuts.begin(part) as u64;
        for number in self.cuts.first(part)..self.cuts.first(part + 1) {
            self.gate.turn(Phase::Fill, part, job_of(number));
            let Patch { place, form, value } = patches[number];
            fill_window(form, value, (place - start) as usize, items);
        }
    }
}

// The number of a window as that of a job, which has 32 bits.
fn job_of(number: usize) -> u32
    ensures { result ≡ min number (2 ^ 32 - 1) }
{
    number.min(u32::MAX as usize) as u32
}
