// The IVs and subsamples of the samples of a track fragment.
ghost use Rattle.std.specs.Prelude.{◌≡◌, ◌^◌, ◌==◌, ◌||◌, map, length, IfOk};
ghost use Rattle.iso_boxes.specs.Walk.{found};
ghost use Rattle.prot_boxes.specs.Answers.{Reads as ReadsKind};
ghost use Rattle.prot_boxes.specs.Sinf.{scheme_code};
ghost use Rattle.sample_aux.specs.Faults.{Gives};
ghost use Rattle.sample_aux.specs.Near.{IsNear};
ghost use Rattle.sample_aux.specs.Counting.{count_fields};
ghost use Rattle.sample_aux.specs.Auxiliary.{iv_size_of, by_senc, senc_of, is_of, saiz_of, saio_of, few_sizes, suits_runs, used_saiz, used_saio, by_sizes, by_used, auxiliary_of};

use crate::fault::{AuxFault, AuxKind};
use crate::first::{BoxReader, first_given};
use crate::groups::SampleProtection;
use crate::laying::DataCursor;
use crate::sample_data::{by_ranges, data_ranges};
use eme_types::{Items, IvSizes, Scheme};
use frag_boxes::Traf;
use iso_boxes::{BoxRef, fields, u8_at, u24_at, u32_at};
use prot_boxes::{
    ProtFault, ProtKind, Saio, Saiz, SencItems, Sinf, read_saio, read_saiz, read_senc,
};
use std::alloc::{AllocError, Global};

/// What auxiliary data says of each sample, and the place of the used `senc`, where there is one.
#[derive(Drop)]
pub struct Auxiliary {
    pub senc: Option<u64>,
    pub items: SencItems,
}

/// A `saiz` and its place.
#[derive(Drop)]
pub struct UsedSaiz {
    pub place: u64,
    pub saiz: Saiz,
}

/// A `saio` and its place.
#[derive(Drop)]
pub struct UsedSaio {
    pub place: u64,
    pub saio: Saio,
}

// ---- senc

fn iv_size_of(rule: Option<SampleProtection>) -> u8
    ensures { result ≡ iv_size_of rule }
{
    match rule {
        None => 0,
        Some(rule) => rule.group.iv_size,
    }
}

fn iv_sizes(alloc: Global, rules: &[Option<SampleProtection>]) -> Result<IvSizes, AllocError>
    ensures { IfOk result (λ x. x ≡ map iv_size_of rules.now) }
{
    let mut sizes = Items::new(alloc);
    for rule in rules {
        sizes.push(iv_size_of(*rule))?;
    }
    Ok(sizes)
}

#[tactic(auto, unfolding(crate::specs::Counting::count_fields))]
fn read_count(rest: &[u8]) -> Result<(u32, &[u8]), ProtKind>
    ensures { ReadsKind (λ x. (x.0, x.1.now)) result (count_fields rest.now) }
{
    fields!(rest, ProtKind::Short; _version: u8_at, _flags: u24_at, count: u32_at);
    Ok((count, rest))
}

#[tactic(auto, unfolding(crate::specs::Auxiliary::by_senc))]
fn by_senc(
    alloc: Global,
    rules: &[Option<SampleProtection>],
    at: &BoxRef<'_>,
) -> Result<Auxiliary, AuxFault>
    ensures { Gives (λ x. x) result (by_senc rules.now (found at.now)) }
{
    let sizes = iv_sizes(alloc, rules)?;
    let senc = read_senc(alloc, at, &sizes)?;
    Ok(Auxiliary {
        senc: Some(at.place),
        items: senc.items,
    })
}

#[derive(Clone, Copy)]
struct SencReader<'a> {
    rules: &'a [Option<SampleProtection>],
}

impl<'a> BoxReader for SencReader<'a> {
    type Given = Auxiliary;

    ghost gives = { λ r b. senc_of r.rules.now b };

    #[tactic(auto, unfolding(crate::specs::Auxiliary::senc_of))]
    fn read(&self, alloc: Global, at: &BoxRef<'_>) -> Result<Option<Auxiliary>, AuxFault> {
        match read_count(at.body) {
            Ok((0, _)) => Ok(None),
            Ok(_) => Ok(Some(by_senc(alloc, self.rules, at)?)),
            Err(kind) => Err(AuxFault::from(ProtFault {
                place: at.place,
                kind,
            })),
        }
    }
}

// ---- saiz and saio

fn scheme_code(scheme: Scheme) -> [u8; 4]
    ensures { result ≡ scheme_code scheme }
{
    match scheme {
        Scheme::Cenc => *b"cenc",
        Scheme::Cbcs => *b"cbcs",
    }
}

fn is_of(scheme: Scheme, kind: Option<[u8; 4]>) -> bool
    ensures { result ≡ is_of scheme kind }
{
    match kind {
        None => true,
        Some(kind) => kind == scheme_code(scheme),
    }
}

#[derive(Clone, Copy)]
struct SaizReader {
    scheme: Scheme,
}

impl BoxReader for SaizReader {
    type Given = UsedSaiz;

    ghost gives = { λ r b. saiz_of r.scheme b };

    #[tactic(auto, unfolding(crate::specs::Auxiliary::saiz_of))]
    fn read(&self, alloc: Global, at: &BoxRef<'_>) -> Result<Option<UsedSaiz>, AuxFault> {
        let saiz = read_saiz(alloc, at)?;
        if is_of(self.scheme, saiz.kind) {
            Ok(Some(UsedSaiz {
                place: at.place,
                saiz,
            }))
        } else {
            Ok(None)
        }
    }
}

#[derive(Clone, Copy)]
struct SaioReader {
    scheme: Scheme,
}

impl BoxReader for SaioReader {
    type Given = UsedSaio;

    ghost gives = { λ r b. saio_of r.scheme b };

    #[tactic(auto, unfolding(crate::specs::Auxiliary::saio_of))]
    fn read(&self, alloc: Global, at: &BoxRef<'_>) -> Result<Option<UsedSaio>, AuxFault> {
        let saio = read_saio(alloc, at)?;
        if is_of(self.scheme, saio.kind) {
            Ok(Some(UsedSaio {
                place: at.place,
                saio,
            }))
        } else {
            Ok(None)
        }
    }
}

#[tactic(auto, unfolding(crate::specs::Auxiliary::used_saiz))]
fn used_saiz(
    alloc: Global,
    file: &[u8],
    scheme: Scheme,
    traf: &Traf,
    n: usize,
) -> Result<UsedSaiz, AuxFault>
    ensures { Gives (λ x. x) result (used_saiz file.now scheme traf.now n) }
{
    let reader = SaizReader { scheme };
    let Some(used) = first_given(alloc, file, traf.saiz.as_slice(), &reader)? else {
        return Err(AuxFault {
            place: traf.place,
            kind: AuxKind::NoAux,
        });
    };
    if used.saiz.count as usize > n {
        return Err(AuxFault {
            place: used.place,
            kind: AuxKind::CountDiffers,
        });
    }
    Ok(used)
}

#[tactic(auto, unfolding(crate::specs::Auxiliary::used_saio))]
fn used_saio(alloc: Global, file: &[u8], scheme: Scheme, traf: &Traf) -> Result<UsedSaio, AuxFault>
    ensures { Gives (λ x. x) result (used_saio file.now scheme traf.now) }
{
    let reader = SaioReader { scheme };
    let Some(used) = first_given(alloc, file, traf.saio.as_slice(), &reader)? else {
        return Err(AuxFault {
            place: traf.place,
            kind: AuxKind::NoAux,
        });
    };
    let count = used.saio.offsets.len();
    if count == 1 || count == traf.runs.len() {
        Ok(used)
    } else {
        Err(AuxFault {
            place: used.place,
            kind: AuxKind::CountDiffers,
        })
    }
}

#[tactic(auto, unfolding(crate::specs::Auxiliary::by_sizes))]
fn by_sizes(
    alloc: Global,
    file: &[u8],
    scheme: Scheme,
    traf: &Traf,
    base: DataCursor,
    rules: &[Option<SampleProtection>],
) -> Result<Auxiliary, AuxFault>
    requires { IsNear (2 ^ 99) base.at }
    ensures { Gives (λ x. x) result (by_sizes file.now scheme traf.now base.at rules.now) }
{
    let sizes = used_saiz(alloc, file, scheme, traf, rules.len())?;
    let offsets = used_saio(alloc, file, scheme, traf)?;
    let ranges = data_ranges(
        alloc,
        &sizes.saiz,
        base,
        offsets.saio.offsets.as_slice(),
        traf.runs.as_slice(),
        rules.len(),
    )?;
    let items = by_ranges(
        alloc,
        file,
        sizes.place,
        offsets.place,
        rules,
        ranges.as_slice(),
    )?;
    Ok(Auxiliary { senc: None, items })
}

/// What auxiliary data says of the samples of a track fragment. Offsets of `saio` count from the base.
#[tactic(auto, unfolding(crate::specs::Auxiliary::auxiliary_of))]
pub fn auxiliary_of(
    alloc: Global,
    file: &[u8],
    entry: Option<Sinf>,
    traf: &Traf,
    base: DataCursor,
    rules: &[Option<SampleProtection>],
) -> Result<Auxiliary, AuxFault>
    requires { IsNear (2 ^ 99) base.at }
    ensures { Gives (λ x. x) result (auxiliary_of file.now entry traf.now base.at rules.now) }
{
    let Some(entry) = entry else {
        return Ok(Auxiliary {
            senc: None,
            items: Items::new(alloc),
        });
    };
    match first_given(alloc, file, traf.senc.as_slice(), &SencReader { rules })? {
        Some(auxiliary) => Ok(auxiliary),
        None => {
            if traf.saiz.len() == 0 {
                Ok(Auxiliary {
                    senc: None,
                    items: Items::new(alloc),
                })
            } else {
                by_sizes(alloc, file, entry.scheme, traf, base, rules)
            }
        }
    }
}
