// The auxiliary data of one sample, and where it stands.
ghost use Rattle.std.specs.Prelude.{◌≡◌, pos, ◌+ℤ◌, ◌≤ℤ◌, ◌+◌, ◌-◌, ◌^◌, ◌≤◌, IfOk};
ghost use Rattle.sample_aux.specs.Near.{IsNear};
ghost use Rattle.sample_aux.specs.declared.fault.AuxKind.TheVariants.{AuxSize};
ghost use Rattle.sample_aux.specs.Faults.{fault_at, Gives};
ghost use Rattle.sample_aux.specs.Auxiliary.{size_at, offset_of, follow, by_run, data_ranges, data_of, data_at, rule_of, range_of, by_ranges};

use crate::fault::{AuxFault, AuxKind};
use crate::groups::SampleProtection;
use crate::laying::{DataCursor, is_outside};
use crate::spans::part_of;
use eme_types::Items;
use frag_boxes::Trun;
use prot_boxes::{ProtKind, Saiz, SencItem, SencItems, read_senc_item};
use std::alloc::{AllocError, Global};

/// Where the data of a sample begins, which may be outside the file, and its size in bytes.
#[derive(Clone, Copy, Debug)]
pub struct DataRange {
    pub at: i128,
    pub size: u8,
}

pub type DataRanges = Items<DataRange>;

// ---- where it stands

/// The size of a sample's data: 0 past the count.
fn size_at(saiz: &Saiz, k: u128) -> u8
    ensures { result ≡ size_at saiz.now k }
{
    if k >= u128::from(saiz.count) {
        return 0;
    }
    if saiz.default_size != 0 {
        return saiz.default_size;
    }
    match saiz.sizes.as_slice().get(k as usize) {
        Some(size) => *size,
        None => 0,
    }
}

/// The data of a sample, which begins at `cursor`.
fn data_from(cursor: DataCursor, size: u8) -> DataRange
    ensures { result ≡ record { at = cursor.at; size = size } }
{
    DataRange {
        at: cursor.at,
        size,
    }
}

/// The cursor behind the data of a sample.
fn behind(cursor: DataCursor, size: u8) -> DataCursor
    requires { cursor.at ≤ℤ pos (2 ^ 101) }
    ensures { result ≡ record cursor { at = cursor.at +ℤ pos size } }
{
    DataCursor {
        at: cursor.at + i128::from(size),
        ..cursor
    }
}

/// The data of the samples from `first` to before `end`, which follow each other.
fn follow(
    alloc: Global,
    saiz: &Saiz,
    start: DataCursor,
    first: u128,
    end: u128,
) -> Result<DataRanges, AllocError>
    requires near { start.at ≤ℤ pos (2 ^ 100) }
    requires few { end ≤ first + 2 ^ 64 }
    ensures { IfOk result (λ x. x ≡ follow saiz.now start.at first (end - first)) }
{
    let mut ranges = Items::new(alloc);
    let mut cursor = start;
    for k in first..end {
        let size = size_at(saiz, k);
        let range = data_from(cursor, size);
        ranges.push(range)?;
        cursor = behind(cursor, size);
    }
    Ok(ranges)
}

fn offset_of(offsets: &[u64], i: usize) -> u64
    ensures { result ≡ offset_of offsets.now i }
{
    match offsets.get(i) {
        Some(offset) => *offset,
        None => 0,
    }
}

/// The same behind an offset that counts from the base.
fn follow_from(
    alloc: Global,
    saiz: &Saiz,
    base: DataCursor,
    offset: u64,
    first: u128,
    end: u128,
) -> Result<DataRanges, AllocError>
    requires near { IsNear (2 ^ 99) base.at }
    requires few { end ≤ first + 2 ^ 64 }
    ensures { IfOk result (λ x. x ≡ follow saiz.now (base.at +ℤ pos offset) first (end - first)) }
{
    let start = DataCursor {
        at: base.at + i128::from(offset),
        ..base
    };
    follow(alloc, saiz, start, first, end)
}

/// The data of the samples of all runs, where each run has its own offset.
fn by_run(
    alloc: Global,
    saiz: &Saiz,
    base: DataCursor,
    offsets: &[u64],
    runs: &[Trun],
) -> Result<DataRanges, AllocError>
    requires { IsNear (2 ^ 99) base.at }
    ensures { IfOk result (λ x. x ≡ by_run saiz.now base.at offsets.now 0 0 runs.now) }
{
    let mut all = Items::new(alloc);
    let mut first = 0u128;
    for i in 0..runs.len() {
        let run = &runs[i];
        let end = first + u128::from(run.count);
        let offset = offset_of(offsets, i);
        let ranges = follow_from(alloc, saiz, base, offset, first, end)?;
        all.extend_from_slice(ranges.as_slice())?;
        first = end;
    }
    Ok(all)
}

/// Where the data of each of the `n` samples stands. Offsets count from the base.
pub fn data_ranges(
    alloc: Global,
    saiz: &Saiz,
    base: DataCursor,
    offsets: &[u64],
    runs: &[Trun],
    n: usize,
) -> Result<DataRanges, AllocError>
    requires { IsNear (2 ^ 99) base.at }
    ensures { IfOk result (λ x. x ≡ data_ranges saiz.now base.at offsets.now runs.now n) }
{
    if offsets.len() == 1 {
        follow_from(alloc, saiz, base, offset_of(offsets, 0), 0, n as u128)
    } else {
        by_run(alloc, saiz, base, offsets, runs)
    }
}

// ---- what it says

/// The IV alone, or followed by its subsamples; all else is of a wrong size.
fn data_of(alloc: Global, place: u64, iv_size: u8, bytes: &[u8]) -> Result<SencItem, AuxFault>
    ensures { Gives (λ x. x) result (data_of (fault_at place AuxSize) iv_size bytes.now) }
{
    let wrong = AuxFault {
        place,
        kind: AuxKind::AuxSize,
    };
    match read_senc_item(alloc, bytes.len() != iv_size as usize, iv_size, bytes) {
        Ok((item, rest)) => {
            if rest.is_empty() {
                Ok(item)
            } else {
                Err(wrong)
            }
        }
        Err(ProtKind::OutOfMemory) => Err(AuxFault::from(AllocError)),
        Err(_) => Err(wrong),
    }
}

#[tactic(auto, unfolding(crate::specs::Auxiliary::data_at))]
fn data_at(
    alloc: Global,
    file: &[u8],
    sizes: u64,
    offsets: u64,
    rule: Option<SampleProtection>,
    range: DataRange,
) -> Result<SencItem, AuxFault>
    ensures { Gives (λ x. x) result (data_at file.now sizes offsets rule range) }
{
    let Some(rule) = rule else {
        return Ok(SencItem {
            iv: None,
            subs: Items::new(alloc),
        });
    };
    if is_outside(file.len() as u64, range.at, u32::from(range.size)) {
        return Err(AuxFault {
            place: offsets,
            kind: AuxKind::OffsetPastEnd,
        });
    }
    let bytes = part_of(file, range.at as u64, u64::from(range.size));
    data_of(alloc, sizes, rule.group.iv_size, bytes)
}

pub fn rule_of(rules: &[Option<SampleProtection>], k: usize) -> Option<SampleProtection>
    ensures { result ≡ rule_of rules.now k }
{
    match rules.get(k) {
        Some(rule) => *rule,
        None => None,
    }
}

fn range_of(ranges: &[DataRange], k: usize) -> DataRange
    ensures { result ≡ range_of ranges.now k }
{
    match ranges.get(k) {
        Some(range) => *range,
        None => DataRange { at: 0, size: 0 },
    }
}

/// What the data of each sample says. A refusal of a size has the place `sizes`, one of a place has the place `offsets`.
#[tactic(auto, unfolding(crate::specs::Auxiliary::by_ranges))]
pub fn by_ranges(
    alloc: Global,
    file: &[u8],
    sizes: u64,
    offsets: u64,
    rules: &[Option<SampleProtection>],
    ranges: &[DataRange],
) -> Result<SencItems, AuxFault>
    ensures { Gives (λ x. x) result (by_ranges file.now sizes offsets rules.now ranges.now) }
{
    let mut items = Items::new(alloc);
    for k in 0..rules.len() {
        let rule = rule_of(rules, k);
        let range = range_of(ranges, k);
        let item = data_at(alloc, file, sizes, offsets, rule, range)?;
        items.push(item)?;
    }
    Ok(items)
}
