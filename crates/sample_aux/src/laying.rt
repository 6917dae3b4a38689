// Where samples lie.
ghost use Rattle.std.specs.Prelude.{◌≡◌, ℕ, ◌+◌, ◌-◌, ◌^◌, pos, ◌+ℤ◌, ◌≤ℤ◌, ◌≤◌, IfOk, false};
ghost use Rattle.sample_aux.specs.Faults.{Gives};
ghost use Rattle.sample_aux.specs.InOrder.{in_order, learnt};
ghost use Rattle.sample_aux.specs.Near.{IsNear, StaysNear, EndsNear};
ghost use Rattle.sample_aux.specs.Laying.{is_outside, base_of, size_of, range_at, after, counted, run_at, run_laid, begun, runs_laid};

use crate::fault::{AuxFault, AuxKind};
use eme_types::Items;
use frag_boxes::{Tfhd, Trun};
use std::alloc::Global;

/// The place and the size of a sample, in bytes.
#[derive(Clone, Copy, Debug)]
pub struct SampleRange {
    pub place: u64,
    pub size: u32,
}

pub type SampleRanges = Items<SampleRange>;

/// Where the next sample begins, which may be outside the file, and what the limits leave.
#[derive(Clone, Copy, Debug)]
pub struct DataCursor {
    pub at: i128,
    pub samples: u32,
    pub bytes: u64,
}

/// Whether data is not whole inside a file of this length.
pub fn is_outside(end: u64, at: i128, size: u32) -> bool
    ensures value { result ≡ is_outside end at size }
    ensures inside { result ≡ false → (pos 0 ≤ℤ at) × ((at +ℤ pos size) ≤ℤ pos end) }
{
    if at < 0 || i128::from(end) < at {
        true
    } else {
        i128::from(end) < at + i128::from(size)
    }
}

/// Where the offsets of a track fragment's runs count from, behind the data that ends at `cursor`.
pub fn base_of(start: u64, tfhd: &Tfhd, cursor: DataCursor) -> DataCursor
    ensures value { result ≡ record cursor { at = base_of start tfhd.now cursor.at } }
    ensures near { StaysNear cursor.at result.at }
{
    let at = match tfhd.base {
        Some(base) => i128::from(base),
        None => {
            if tfhd.flags & 0x20000 != 0 {
                i128::from(start)
            } else {
                cursor.at
            }
        }
    };
    DataCursor { at, ..cursor }
}

fn size_of(run: &Trun, default: u32, k: u32) -> u32
    ensures { result ≡ size_of run.now default k }
{
    match run.items.as_slice().get(k as usize) {
        Some(item) => item.size.unwrap_or(default),
        None => default,
    }
}

#[tactic(auto, unfolding(crate::specs::Laying::range_at))]
fn range_at(end: u64, place: u64, cursor: DataCursor, size: u32) -> Result<SampleRange, AuxFault>
    ensures value { result ≡ range_at end place cursor size }
    ensures size { IfOk result (λ x. (x.size ≡ size) × ((cursor.at +ℤ pos size) ≤ℤ pos end) × (size ≤ cursor.bytes)) }
{
    if cursor.bytes < u64::from(size) {
        return Err(AuxFault {
            place,
            kind: AuxKind::TooManyBytes,
        });
    }
    if is_outside(end, cursor.at, size) {
        return Err(AuxFault {
            place,
            kind: AuxKind::DataPastEnd,
        });
    }
    Ok(SampleRange {
        place: cursor.at as u64,
        size,
    })
}

fn advance(end: u64, cursor: DataCursor, range: SampleRange) -> DataCursor
    requires inside { (cursor.at +ℤ pos range.size) ≤ℤ pos end }
    requires left { range.size ≤ cursor.bytes }
    ensures { result ≡ after cursor range }
{
    DataCursor {
        at: cursor.at + i128::from(range.size),
        bytes: cursor.bytes - u64::from(range.size),
        ..cursor
    }
}

fn ranges_of(
    alloc: Global,
    end: u64,
    default: u32,
    start: DataCursor,
    run: &Trun,
) -> Result<(SampleRanges, DataCursor), AuxFault>
    ensures gives { Gives (λ x. x.0) result (in_order (λ known k. range_at end run.now.place known (size_of run.now default k)) after start 0 run.now.count) }
    ensures left { IfOk result (λ x. x.1 ≡ learnt after start x.0) }
    ensures near { IfOk result (λ x. StaysNear start.at x.1.at) }
{
    let mut ranges = Items::new(alloc);
    let mut cursor = start;
    for k in 0..run.count {
        let size = size_of(run, default, k);
        let range = range_at(end, run.place, cursor, size)?;
        ranges.push(range)?;
        cursor = advance(end, cursor, range);
    }
    Ok((ranges, cursor))
}

#[tactic(auto, unfolding(crate::specs::Laying::run_at))]
fn run_at(
    alloc: Global,
    end: u64,
    default: u32,
    cursor: DataCursor,
    run: &Trun,
) -> Result<(SampleRanges, DataCursor), AuxFault>
    ensures gives { Gives (λ x. x.0) result (run_at end default cursor run.now) }
    ensures left { IfOk result (λ x. x.1 ≡ learnt after (counted run.now cursor) x.0) }
    ensures near { IfOk result (λ x. StaysNear cursor.at x.1.at) }
{
    if cursor.samples < run.count {
        return Err(AuxFault {
            place: run.place,
            kind: AuxKind::TooManySamples,
        });
    }
    let cursor = DataCursor {
        samples: cursor.samples - run.count,
        ..cursor
    };
    ranges_of(alloc, end, default, cursor, run)
}

#[tactic(auto, unfolding(crate::specs::Laying::run_laid))]
fn run_laid(
    alloc: Global,
    end: u64,
    default: u32,
    cursor: DataCursor,
    run: &Trun,
) -> Result<(SampleRanges, DataCursor), AuxFault>
    ensures gives { Gives (λ x. x) result (run_laid end default cursor run.now) }
    ensures near { IfOk result (λ x. StaysNear cursor.at x.1.at) }
{
    run_at(alloc, end, default, cursor, run)
}

fn begun(base: DataCursor, run: &Trun, cursor: DataCursor) -> DataCursor
    requires { IsNear (2 ^ 99) base.at }
    ensures value { result ≡ begun base.at run.now cursor }
    ensures near { (b : ℕ) → IsNear b base.at → IsNear (b + 2 ^ 32) cursor.at → IsNear (b + 2 ^ 32) result.at }
{
    match run.offset {
        Some(offset) => DataCursor {
            at: base.at + i128::from(offset),
            ..cursor
        },
        None => cursor,
    }
}

/// The places and sizes of the samples of all runs in order, and the cursor behind the last. The first run begins at `base`.
pub fn runs_laid(
    alloc: Global,
    end: u64,
    default: u32,
    base: DataCursor,
    runs: &[Trun],
) -> Result<(SampleRanges, DataCursor), AuxFault>
    requires { IsNear (2 ^ 99) base.at }
    ensures gives { Gives (λ x. x) result (runs_laid end default base.at base runs.now) }
    ensures near { IfOk result (λ x. EndsNear base.at x.1.at) }
{
    let mut all = Items::new(alloc);
    let mut cursor = base;
    for run in runs {
        let begin = begun(base, run, cursor);
        let (ranges, next) = run_laid(alloc, end, default, begin, run)?;
        all.extend_from_slice(ranges.as_slice())?;
        cursor = next;
    }
    Ok((all, cursor))
}
