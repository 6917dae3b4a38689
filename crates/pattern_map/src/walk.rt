// The ranges of a sample.
ghost use Rattle.std.specs.Prelude.{◌≡◌, ◌+◌, ◌^◌, ◌<◌, ◌++◌, IsTrue, Some};
ghost use Rattle.std.specs.Iterator.{YieldsFirst, item_count};
ghost use Rattle.std.specs.List.{sum_by, flat_map};
ghost use Rattle.eme_types.specs.WellFormed.{sub_length, pattern_fits, is_well_protected, is_well_formed};
ghost use Rattle.pattern_map.specs.ByteClasses.{subsamples};
ghost use Rattle.pattern_map.specs.Coverage.{CoverSample, places_of, encrypted_places};
ghost use Rattle.pattern_map.specs.Walk.{part_ranges, ranges_from};

use crate::part::{PartWalk, Pattern, walk_part};
use crate::range::ByteRange;
use eme_types::{EncSample, Protect, Sub};
use std::marker::Model;

/// The ranges that are still to come, and is seen as their list.
#[derive(Drop)]
pub struct RangeWalk<'a> {
    part: PartWalk,
    pattern: Pattern,
    // Where the subsamples begin that are still to come.
    at: usize,
    subs: &'a [Sub],
}

impl<'a> Model for RangeWalk<'a> {
    ghost use Rattle.std.specs.Prelude.{◌+◌, ◌<◌, ◌^◌, ◌++◌, List, IsTrue};
    ghost use Rattle.std.specs.List.{sum_by};
    ghost use Rattle.eme_types.specs.WellFormed.{sub_length, pattern_fits};
    ghost use Rattle.pattern_map.specs.declared.range.ByteRange.{ByteRange};
    ghost use Rattle.pattern_map.specs.Walk.{ranges_from};

    ghost Value = { List ByteRange };

    ghost view = { λ w. w.part ++ ranges_from w.pattern.scheme w.pattern.crypt w.pattern.skip w.at w.subs.now };

    ghost invariant = { λ w. (w.at + sum_by sub_length w.subs.now < 2 ^ 64)
        × IsTrue (pattern_fits w.pattern.scheme w.pattern.crypt w.pattern.skip) };
}

impl<'a> Iterator for RangeWalk<'a> {
    type Item = ByteRange;

    ghost next_gives = { YieldsFirst (λ rest. rest) };

    ghost remaining = { item_count (λ rest. rest) };

    fn next(&mut self) -> Option<ByteRange> {
        loop {
            if let Some(range) = self.part.next() {
                return Some(range);
            }
            let (sub, rest) = self.subs.split_first()?;
            let from = self.at + usize::from(sub.clear);
            let size = sub.prot as usize;
            self.part = walk_part(self.pattern, from, size);
            self.at = from + size;
            self.subs = rest;
        }
    }
}

// A walk over a protected part of `size` bytes at the sample's start, and then over these subsamples.
fn walk_from<'a>(pattern: Pattern, size: usize, subs: &'a [Sub]) -> RangeWalk<'a>
    requires place { size + sum_by sub_length subs.now < 2 ^ 64 }
    requires pattern { IsTrue (pattern_fits pattern.scheme pattern.crypt pattern.skip) }
    ensures { result ≡ part_ranges pattern.scheme pattern.crypt pattern.skip 0 size
        ++ ranges_from pattern.scheme pattern.crypt pattern.skip size subs.now }
{
    RangeWalk {
        part: walk_part(pattern, 0, size),
        pattern,
        at: size,
        subs,
    }
}

// A walk over a protected sample of `size` bytes.
fn walk_protected(protect: &Protect, size: usize) -> RangeWalk<'_>
    requires { IsTrue (is_well_protected (Some protect.now) size) }
    ensures { result ≡ ranges_from protect.now.scheme protect.now.crypt protect.now.skip 0 (subsamples protect.now.subs size) }
{
    let pattern = Pattern {
        scheme: protect.scheme,
        crypt: protect.crypt,
        skip: protect.skip,
    };
    let subs = protect.subs.as_slice();
    if subs.is_empty() {
        return walk_from(pattern, size, subs);
    }
    walk_from(pattern, 0, subs)
}

/// The ranges of encrypted bytes, in order: in `cenc` the protected part of each subsample, in `cbcs` the runs of
/// encrypted blocks, of which the first of each subsample is fresh. It takes no memory.
pub fn ranges(sample: &EncSample) -> RangeWalk<'_>
    requires { IsTrue (is_well_formed sample.now) }
    ensures joined { flat_map places_of result ≡ encrypted_places sample.now }
    ensures cover { CoverSample sample.now result }
{
    match &sample.protect {
        None => walk_from(Pattern::NONE, 0, &[]),
        Some(protect) => walk_protected(protect, sample.bytes.len()),
    }
}
