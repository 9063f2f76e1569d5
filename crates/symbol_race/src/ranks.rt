//! The rank of a definition.
ghost use Rattle.std.specs.Prelude.{◌≡◌, ◌<◌, ◌^◌};
ghost use Rattle.symbol_race.specs.Ranks.{rank_of};

use wl_base::InputId;

/// The rank of a definition: by its class (0 strong, 1 weak, 2 linker-made datum), then by its
/// input, then by its place among the input's symbols.
pub fn rank(class: u8, input: InputId, symbol: u32) -> u64
    requires class { class < 3 }
    requires input { input < 2 ^ 20 }
    ensures { result ≡ rank_of class input symbol }
{
    u64::from(class) * (1 << 56) + u64::from(input) * (1 << 32) + u64::from(symbol)
}
