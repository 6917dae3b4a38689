// Fields of bodies.
ghost use Rattle.std.specs.Prelude.{◌≡◌, ◌⊎◌, length};
ghost use Rattle.std.specs.Prelude.{take, drop};
ghost use Rattle.iso_boxes.specs.Reading.{given, repeated, some_bytes};
ghost use Rattle.frag_boxes.specs.declared.fault.FragKind.TheVariants.{Short};
ghost use Rattle.frag_boxes.specs.Fields.{u32, u64, i32, item, has_items, items, tfhd_fields, trun_fields, tkhd_fields, stsz_fields, stsd_fields, audio_version, trex_fields, Gives};

use crate::fault::FragKind;
use crate::records::{RunItem, RunItems, Tfhd, TrackTrex, Trex, Trun};
use eme_types::Items;
use iso_boxes::{fields, i32_at, u8_at, u16_at, u24_at, u32_at, u64_at};
use std::alloc::Global;

fn optional_u32(present: bool, rest: &[u8]) -> Result<(Option<u32>, &[u8]), FragKind>
    ensures { Gives (λ x. (x.0, x.1.now)) result (given present u32 rest.now) }
{
    if present {
        fields!(rest, FragKind::Short; number: u32_at);
        Ok((Some(number), rest))
    } else {
        Ok((None, rest))
    }
}

fn optional_u64(present: bool, rest: &[u8]) -> Result<(Option<u64>, &[u8]), FragKind>
    ensures { Gives (λ x. (x.0, x.1.now)) result (given present u64 rest.now) }
{
    if present {
        fields!(rest, FragKind::Short; number: u64_at);
        Ok((Some(number), rest))
    } else {
        Ok((None, rest))
    }
}

fn optional_i32(present: bool, rest: &[u8]) -> Result<(Option<i32>, &[u8]), FragKind>
    ensures { Gives (λ x. (x.0, x.1.now)) result (given present i32 rest.now) }
{
    if present {
        fields!(rest, FragKind::Short; number: i32_at);
        Ok((Some(number), rest))
    } else {
        Ok((None, rest))
    }
}

#[tactic(auto, unfolding(crate::specs::Fields::tfhd_fields))]
pub fn read_tfhd(place: u64, rest: &[u8]) -> Result<(Tfhd, &[u8]), FragKind>
    ensures { Gives (λ x. (x.0, x.1.now)) result (tfhd_fields place rest.now) }
{
    fields!(rest, FragKind::Short; _version: u8_at, flags: u24_at, track: u32_at);
    let (base, rest) = optional_u64(flags & 0x1 != 0, rest)?;
    let (description, rest) = optional_u32(flags & 0x2 != 0, rest)?;
    let (duration, rest) = optional_u32(flags & 0x8 != 0, rest)?;
    let (size, rest) = optional_u32(flags & 0x10 != 0, rest)?;
    let (sample_flags, rest) = optional_u32(flags & 0x20 != 0, rest)?;
    Ok((
        Tfhd {
            place,
            track,
            flags,
            base,
            description,
            duration,
            size,
            sample_flags,
        },
        rest,
    ))
}

#[tactic(auto, unfolding(crate::specs::Fields::item))]
fn read_item(flags: u32, rest: &[u8]) -> Result<(RunItem, &[u8]), FragKind>
    ensures { Gives (λ x. (x.0, x.1.now)) result (item flags rest.now) }
{
    let (duration, rest) = optional_u32(flags & 0x100 != 0, rest)?;
    let (size, rest) = optional_u32(flags & 0x200 != 0, rest)?;
    let (sample_flags, rest) = optional_u32(flags & 0x400 != 0, rest)?;
    let (composition, rest) = optional_u32(flags & 0x800 != 0, rest)?;
    Ok((
        RunItem {
            duration,
            size,
            flags: sample_flags,
            composition,
        },
        rest,
    ))
}

fn read_items(
    alloc: Global,
    count: u32,
    flags: u32,
    bytes: &[u8],
) -> Result<(RunItems, &[u8]), FragKind>
    ensures { Gives (λ x. (x.0, x.1.now)) result (repeated count (item flags) bytes.now) }
{
    let mut items = Items::new(alloc);
    let mut rest = bytes;
    for _ in 0..count {
        let (item, after) = read_item(flags, rest)?;
        items.push(item)?;
        rest = after;
    }
    Ok((items, rest))
}

fn has_items(flags: u32) -> bool
    ensures { result ≡ has_items flags }
{
    flags & 0x100 != 0 || flags & 0x200 != 0 || flags & 0x400 != 0 || flags & 0x800 != 0
}

fn some_items(
    alloc: Global,
    count: u32,
    flags: u32,
    bytes: &[u8],
) -> Result<(RunItems, &[u8]), FragKind>
    ensures { Gives (λ x. (x.0, x.1.now)) result (items count flags bytes.now) }
{
    if has_items(flags) {
        read_items(alloc, count, flags, bytes)
    } else {
        Ok((Items::new(alloc), bytes))
    }
}

#[tactic(auto, unfolding(crate::specs::Fields::trun_fields))]
pub fn read_trun(alloc: Global, place: u64, rest: &[u8]) -> Result<(Trun, &[u8]), FragKind>
    ensures { Gives (λ x. (x.0, x.1.now)) result (trun_fields place rest.now) }
{
    fields!(rest, FragKind::Short; _version: u8_at, flags: u24_at, count: u32_at);
    let (offset, rest) = optional_i32(flags & 0x1 != 0, rest)?;
    let (first_flags, rest) = optional_u32(flags & 0x4 != 0, rest)?;
    let (items, rest) = some_items(alloc, count, flags, rest)?;
    Ok((
        Trun {
            place,
            count,
            offset,
            first_flags,
            items,
        },
        rest,
    ))
}

fn pass_bytes(n: usize, rest: &[u8]) -> Result<&[u8], FragKind>
    ensures { Gives (λ x. (take n rest.now, x.now)) result (some_bytes Short n rest.now) }
{
    if rest.len() < n {
        return Err(FragKind::Short);
    }
    Ok(&rest[n..])
}

#[tactic(auto, unfolding(crate::specs::Fields::tkhd_fields))]
pub fn read_tkhd(rest: &[u8]) -> Result<(u32, &[u8]), FragKind>
    ensures { Gives (λ x. (x.0, x.1.now)) result (tkhd_fields rest.now) }
{
    fields!(rest, FragKind::Short; version: u8_at, _flags: u24_at);
    let rest = pass_bytes(if version == 0 { 8 } else { 16 }, rest)?;
    fields!(rest, FragKind::Short; id: u32_at);
    Ok((id, rest))
}

#[tactic(auto, unfolding(crate::specs::Fields::stsz_fields))]
pub fn read_stsz(rest: &[u8]) -> Result<(u32, &[u8]), FragKind>
    ensures { Gives (λ x. (x.0, x.1.now)) result (stsz_fields rest.now) }
{
    fields!(rest, FragKind::Short; _version: u8_at, _flags: u24_at, _size: u32_at, count: u32_at);
    if count != 0 {
        return Err(FragKind::Progressive);
    }
    Ok((count, rest))
}

#[tactic(auto, unfolding(crate::specs::Fields::stsd_fields))]
pub fn read_stsd(rest: &[u8]) -> Result<(u32, &[u8]), FragKind>
    ensures { Gives (λ x. (x.0, x.1.now)) result (stsd_fields rest.now) }
{
    fields!(rest, FragKind::Short; _version: u8_at, _flags: u24_at, count: u32_at);
    Ok((count, rest))
}

#[tactic(auto, unfolding(crate::specs::Fields::audio_version))]
pub fn read_audio_version(rest: &[u8]) -> Result<(u16, &[u8]), FragKind>
    ensures { Gives (λ x. (x.0, x.1.now)) result (audio_version rest.now) }
{
    let rest = pass_bytes(8, rest)?;
    fields!(rest, FragKind::Short; version: u16_at);
    if version != 0 {
        return Err(FragKind::AudioVersion);
    }
    Ok((version, rest))
}

#[tactic(auto, unfolding(crate::specs::Fields::trex_fields))]
pub fn read_trex(place: u64, rest: &[u8]) -> Result<(TrackTrex, &[u8]), FragKind>
    ensures { Gives (λ x. (x.0, x.1.now)) result (trex_fields place rest.now) }
{
    fields!(rest, FragKind::Short; _version: u8_at, _flags: u24_at, track: u32_at, description: u32_at, duration: u32_at, size: u32_at, flags: u32_at);
    Ok((
        TrackTrex {
            track,
            trex: Trex {
                place,
                description,
                duration,
                size,
                flags,
            },
        },
        rest,
    ))
}
