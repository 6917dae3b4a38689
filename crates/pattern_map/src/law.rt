// A law of the byte classes, for the layer above.
ghost use Rattle.std.specs.Prelude.{◌≡◌, ℕ, ◌+◌, ◌<◌};
ghost use Rattle.eme_types.specs.declared.sample.Protect.{Protect};
ghost use Rattle.pattern_map.specs.ByteClasses.{Block, block_place, protected_class};

/// A byte of a block stands at its place in the block of its rank.
pub fn block_law()
    ensures { (p : Protect) (size i s r place : ℕ) → protected_class p.scheme p size i ≡ Block s r place
        → (i ≡ block_place p size s r + place) × (place < 16) }
{}
