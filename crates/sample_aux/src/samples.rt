// The samples of a track fragment.
ghost use Rattle.std.specs.Prelude.{◌≡◌, ◌^◌, drop, length, IfOk};
ghost use Rattle.std.specs.Vec.Iter.{into_iter_items, into_iter_len};
ghost use Rattle.sample_aux.specs.Faults.{Gives};
ghost use Rattle.sample_aux.specs.InOrder.{each_passes};
ghost use Rattle.sample_aux.specs.Near.{IsNear};
ghost use Rattle.sample_aux.specs.Resolve.{iv_of, protect_of, item_of, place_of, sample_at, samples_at, has_subs, check_place, sample_passes, samples_of};

use crate::auxiliary::{Auxiliary, auxiliary_of};
use crate::fault::{AuxFault, AuxKind};
use crate::groups::{Protection, SampleProtection};
use crate::laying::{DataCursor, SampleRange};
use crate::sample_data::rule_of;
use crate::spans::part_of;
use eme_types::{Bytes, EncSample, Items, Iv, KeyId, KeyIdFault, Protect, Samples};
use frag_boxes::Traf;
use pattern_map::check_sample;
use prot_boxes::{SencItem, SencItems};
use std::alloc::{AllocError, Global};
use std::vec::IntoIter;

fn iv_of(own: Option<Iv>, constant: Option<Iv>) -> Option<Iv>
    ensures { result ≡ iv_of own constant }
{
    match own {
        Some(iv) => Some(iv),
        None => constant,
    }
}

fn key_id(alloc: Global, kid: [u8; 16]) -> Result<KeyId, AllocError>
    ensures { IfOk result (λ x. x ≡ kid) }
{
    match KeyId::new(alloc, &kid) {
        Ok(kid) => Ok(kid),
        Err(KeyIdFault::Length) => unreachable!(),
        Err(KeyIdFault::OutOfMemory) => Err(AllocError),
    }
}

fn protect_of(
    alloc: Global,
    place: u64,
    rule: Option<SampleProtection>,
    item: SencItem,
) -> Result<Option<Protect>, AuxFault>
    ensures { Gives (λ x. x) result (protect_of place rule item) }
{
    let Some(rule) = rule else {
        return Ok(None);
    };
    let Some(iv) = iv_of(item.iv, rule.group.constant) else {
        return Err(AuxFault {
            place,
            kind: AuxKind::NoAux,
        });
    };
    let kid = key_id(alloc, rule.group.kid)?;
    Ok(Some(Protect {
        scheme: rule.scheme,
        kid,
        iv,
        crypt: rule.group.crypt,
        skip: rule.group.skip,
        subs: item.subs,
    }))
}

/// What auxiliary data says of the next sample; nothing past its end.
fn next_item(alloc: Global, items: &mut IntoIter<SencItem>) -> SencItem
    requires { into_iter_len items.old ≡ length (into_iter_items items.old) }
    ensures item { result ≡ item_of (into_iter_items items.old) 0 }
    ensures rest { into_iter_items items.new ≡ drop 1 (into_iter_items items.old) }
    ensures len { into_iter_len items.new ≡ length (into_iter_items items.new) }
{
    match items.next() {
        Some(item) => item,
        None => SencItem {
            iv: None,
            subs: Items::new(alloc),
        },
    }
}

fn place_of(ranges: &[SampleRange], k: usize) -> SampleRange
    ensures { result ≡ place_of ranges.now k }
{
    match ranges.get(k) {
        Some(range) => *range,
        None => SampleRange { place: 0, size: 0 },
    }
}

#[tactic(auto, unfolding(crate::specs::Resolve::sample_at))]
fn sample_at(
    alloc: Global,
    file: &[u8],
    place: u64,
    range: SampleRange,
    rule: Option<SampleProtection>,
    item: SencItem,
) -> Result<EncSample, AuxFault>
    ensures { Gives (λ x. x) result (sample_at file.now place range rule item) }
{
    let protect = protect_of(alloc, place, rule, item)?;
    let bytes = Bytes::from_slice(alloc, part_of(file, range.place, u64::from(range.size)))?;
    Ok(EncSample { protect, bytes })
}

#[tactic(auto, unfolding(crate::specs::Resolve::samples_at))]
fn samples_at(
    alloc: Global,
    file: &[u8],
    place: u64,
    ranges: &[SampleRange],
    rules: &[Option<SampleProtection>],
    items: SencItems,
) -> Result<Samples, AuxFault>
    ensures { Gives (λ x. x) result (samples_at file.now place ranges.now rules.now items) }
{
    let mut samples = Items::new(alloc);
    let mut left = items.into_vec().into_iter();
    for k in 0..ranges.len() {
        let range = place_of(ranges, k);
        let rule = rule_of(rules, k);
        let item = next_item(alloc, &mut left);
        let sample = sample_at(alloc, file, place, range, rule, item)?;
        samples.push(sample)?;
    }
    Ok(samples)
}

fn has_subs(protect: &Option<Protect>) -> bool
    ensures { result ≡ has_subs protect.now }
{
    match protect {
        None => false,
        Some(protect) => protect.subs.len() != 0,
    }
}

fn check_place(senc: Option<u64>, traf: u64, sample: &EncSample) -> u64
    ensures { result ≡ check_place senc traf sample.now }
{
    if has_subs(&sample.protect) {
        senc.unwrap_or(traf)
    } else {
        traf
    }
}

fn check_whole(senc: Option<u64>, traf: u64, sample: &EncSample) -> Result<(), AuxFault>
    ensures { Gives (λ x. x) result (sample_passes senc traf sample.now) }
{
    match check_sample(sample) {
        Ok(()) => Ok(()),
        Err(fault) => Err(AuxFault {
            place: check_place(senc, traf, sample),
            kind: AuxKind::from(fault),
        }),
    }
}

fn check_samples(senc: Option<u64>, traf: u64, samples: &[EncSample]) -> Result<(), AuxFault>
    ensures { Gives (λ x. x) result (each_passes (λ s. sample_passes senc traf s) samples.now) }
{
    for sample in samples {
        check_whole(senc, traf, sample)?;
    }
    Ok(())
}

/// The samples of a track fragment, of which places and sizes are known. Auxiliary data counts from `base`.
#[tactic(auto, unfolding(crate::specs::Resolve::samples_of))]
pub fn samples_of(
    alloc: Global,
    file: &[u8],
    traf: &Traf,
    base: DataCursor,
    ranges: &[SampleRange],
    protection: &Protection,
) -> Result<Samples, AuxFault>
    requires { IsNear (2 ^ 99) base.at }
    ensures { Gives (λ x. x) result (samples_of file.now traf.now base.at ranges.now protection.now) }
{
    let rules = protection.rules.as_slice();
    let auxiliary = auxiliary_of(alloc, file, protection.entry, traf, base, rules)?;
    let Auxiliary { senc, items } = auxiliary;
    let samples = samples_at(alloc, file, traf.place, ranges, rules, items)?;
    check_samples(senc, traf.place, samples.as_slice())?;
    Ok(samples)
}
