// The ranges of one subsample.
ghost use Rattle.std.specs.Prelude.{◌≡◌, ◌+◌, ◌^◌, ◌<◌, IsTrue};
ghost use Rattle.eme_types.specs.WellFormed.{pattern_fits};
ghost use Rattle.std.specs.Iterator.{YieldsFirst, item_count};
ghost use Rattle.pattern_map.specs.Walk.{part_ranges};

use crate::range::ByteRange;
use eme_types::Scheme;
use std::marker::Model;

/// The ranges of a protected part that are still to come: runs of at most `run` bytes with `gap` bytes between them.
#[derive(Drop)]
pub(crate) struct PartWalk {
    run: usize,
    gap: usize,
    at: usize,
    left: usize,
    fresh: bool,
}

impl Model for PartWalk {
    ghost use Rattle.std.specs.Prelude.{◌+◌, ◌<◌, ◌^◌, List};
    ghost use Rattle.pattern_map.specs.declared.range.ByteRange.{ByteRange};
    ghost use Rattle.pattern_map.specs.Walk.{runs};

    ghost Value = { List ByteRange };

    ghost view = { λ w. runs w.run w.gap w.at w.left w.fresh };

    ghost invariant = { λ w. (0 < w.left → 0 < w.run) × (w.at + w.left < 2 ^ 64) };
}

impl Iterator for PartWalk {
    type Item = ByteRange;

    ghost next_gives = { YieldsFirst (λ rest. rest) };

    ghost remaining = { item_count (λ rest. rest) };

    fn next(&mut self) -> Option<ByteRange> {
        if self.left == 0 {
            return None;
        }
        let size = self.run.min(self.left);
        let range = ByteRange {
            from: self.at,
            to: self.at + size,
            fresh: self.fresh,
        };
        let step = size + self.gap.min(self.left - size);
        self.at += step;
        self.left -= step;
        self.fresh = false;
        Some(range)
    }
}

/// A scheme with its pattern, in blocks.
#[derive(Clone, Copy)]
pub(crate) struct Pattern {
    pub scheme: Scheme,
    pub crypt: u8,
    pub skip: u8,
}

impl Pattern {
    /// No pattern, for a sample without protected bytes.
    pub(crate) const NONE: Pattern = Pattern {
        scheme: Scheme::Cenc,
        crypt: 0,
        skip: 0,
    };
}

/// The ranges of the protected part of `size` bytes that begins at `at`.
pub(crate) fn walk_part(pattern: Pattern, at: usize, size: usize) -> PartWalk
    requires place { at + size < 2 ^ 64 }
    requires pattern { IsTrue (pattern_fits pattern.scheme pattern.crypt pattern.skip) }
    ensures { result ≡ part_ranges pattern.scheme pattern.crypt pattern.skip at size }
{
    let whole = size / 16 * 16;
    let (run, gap, left, fresh) = match (pattern.scheme, pattern.skip) {
        (Scheme::Cenc, _) => (size, 0, size, false),
        (Scheme::Cbcs, 0) => (whole, 0, whole, true),
        (Scheme::Cbcs, skip) => (
            usize::from(pattern.crypt) * 16,
            usize::from(skip) * 16,
            whole,
            true,
        ),
    };
    PartWalk {
        run,
        gap,
        at,
        left,
        fresh,
    }
}
