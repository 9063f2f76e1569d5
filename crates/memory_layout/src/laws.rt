//! What holds of every layout, as calls that do nothing: their contracts are the laws.
ghost use Rattle.std.specs.Prelude.{◌≡◌, ℕ, ◌*◌, ◌%◌, ◌<◌, ◌≤◌, List};
ghost use Rattle.std.specs.List.{AllZip};
ghost use Rattle.memory_layout.specs.Memory.{up, placed, places, base_of, data_end};
ghost use Rattle.memory_layout.specs.Order.{starts, reordered, LiesWithin};
ghost use Rattle.memory_layout.specs.declared.rules.MemoryRules.{MemoryRules};
ghost use Rattle.memory_layout.specs.declared.rules.SegmentShape.{SegmentShape};

/// A segment's address is the least multiple of its alignment that isn't before the end behind which
/// it is placed.
pub fn the_next_multiple()
    ensures multiple { (n size : ℕ) → up n size % size ≡ 0 }
    ensures reaches { (n size : ℕ) → 0 < size → n ≤ up n size }
    ensures least { (n size k : ℕ) → 0 < size → n ≤ k * size → up n size ≤ k * size }
{}

/// In the order of placing, each segment stands behind the one before it, and the first behind the
/// base; and all lie between the base and the data's end.
pub fn segments_stand_in_order()
    ensures within { (rules : MemoryRules) (shapes : List SegmentShape)
        → AllZip (LiesWithin (base_of rules) (data_end rules shapes)) shapes (places rules shapes).addresses }
    ensures order { (rules : MemoryRules) (shapes : List SegmentShape)
        → reordered shapes (places rules shapes).addresses ≡ starts (base_of rules) (placed shapes) }
{}
