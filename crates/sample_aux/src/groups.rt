// The group of each sample, and what protects it.
ghost use Rattle.std.specs.Prelude.{◌≡◌, ℕ, ◌+◌, ◌<◌, ◌^◌, ◌-◌, ◌≤◌, length};
ghost use Rattle.sample_aux.specs.Faults.{Gives};
ghost use Rattle.sample_aux.specs.Checked.{groups_in};
ghost use Rattle.sample_aux.specs.Groups.{index_at, group_of, fields_of, if_protected, entry_rule, group_rule, rule_at, rules_at, with_place, grouping_at, grouping_in, or_ungrouped, both, IsEarlier, movie_groups, protection_of};

use crate::checked::groups_in;
use crate::fault::{AuxFault, AuxKind};
use crate::first::{BoxReader, first_given};
use eme_types::{Items, Scheme};
use frag_boxes::{Span, Traf};
use iso_boxes::BoxRef;
use prot_boxes::{SbgpItem, SbgpItems, Seig, Seigs, Sinf, Tenc, read_sbgp};
use std::alloc::Global;

/// The used `sbgp` of a track fragment: its place and what it says.
#[derive(Drop)]
pub struct Grouping {
    pub place: u64,
    pub items: SbgpItems,
}

/// What protects a sample.
#[derive(Clone, Copy, Debug)]
pub struct SampleProtection {
    pub scheme: Scheme,
    pub group: Seig,
}

pub type SampleProtections = Items<Option<SampleProtection>>;

/// What protects the sample entry of a track fragment, none where it is clear, and each of its samples.
#[derive(Drop)]
pub struct Protection {
    pub entry: Option<Sinf>,
    pub rules: SampleProtections,
}

/// The indices that are left: of the first item some samples have passed.
#[derive(Clone, Copy)]
struct Cursor<'a> {
    items: &'a [SbgpItem],
    passed: usize,
}

impl<'a> Cursor<'a> {
    /// The index of the next sample.
    fn next(&mut self) -> u32
        requires { self.old.passed < 2 ^ 64 - 1 }
        ensures index { result ≡ index_at self.old.items.now self.old.passed }
        ensures moves { (m : ℕ) → index_at self.new.items.now (self.new.passed + m) ≡ index_at self.old.items.now (self.old.passed + (m + 1)) }
        ensures passed { self.new.passed ≤ self.old.passed + 1 }
    {
        loop {
            match self.items {
                [] => return 0,
                [item, rest @ ..] => {
                    if self.passed < item.count as usize {
                        self.passed += 1;
                        return item.index;
                    }
                    self.passed -= item.count as usize;
                    self.items = rest;
                }
            }
        }
    }
}

fn group_of(own: &[Seig], movie: &[Seig], index: u32) -> Option<Seig>
    requires { 0 < index }
    ensures { result ≡ group_of own.now movie.now index }
{
    if index > 0x10000 {
        own.get((index - 0x10001) as usize).copied()
    } else if index == 0x10000 {
        None
    } else {
        movie.get((index - 1) as usize).copied()
    }
}

fn fields_of(tenc: Tenc) -> Seig
    ensures { result ≡ fields_of tenc }
{
    let kid = tenc.kid;
    Seig {
        crypt: tenc.crypt,
        skip: tenc.skip,
        protected: tenc.protected,
        iv_size: tenc.iv_size,
        kid,
        constant: tenc.constant,
    }
}

fn if_protected(scheme: Scheme, group: Seig) -> Option<SampleProtection>
    ensures { result ≡ if_protected scheme group }
{
    if group.protected {
        Some(SampleProtection { scheme, group })
    } else {
        None
    }
}

fn entry_rule(entry: Option<Sinf>) -> Option<SampleProtection>
    ensures { result ≡ entry_rule entry }
{
    match entry {
        None => None,
        Some(sinf) => if_protected(sinf.scheme, fields_of(sinf.tenc)),
    }
}

fn group_rule(
    place: u64,
    entry: Option<Sinf>,
    group: Seig,
) -> Result<Option<SampleProtection>, AuxFault>
    ensures { result ≡ group_rule place entry group }
{
    match entry {
        Some(sinf) => Ok(if_protected(sinf.scheme, group)),
        None => {
            if group.protected {
                Err(AuxFault {
                    place,
                    kind: AuxKind::Scheme,
                })
            } else {
                Ok(None)
            }
        }
    }
}

#[tactic(auto, unfolding(crate::specs::Groups::rule_at))]
fn rule_at(
    place: u64,
    entry: Option<Sinf>,
    own: &[Seig],
    movie: &[Seig],
    index: u32,
) -> Result<Option<SampleProtection>, AuxFault>
    ensures { result ≡ rule_at place entry own.now movie.now index }
{
    if index == 0 {
        return Ok(entry_rule(entry));
    }
    match group_of(own, movie, index) {
        None => Err(AuxFault {
            place,
            kind: AuxKind::GroupIndex,
        }),
        Some(group) => group_rule(place, entry, group),
    }
}

#[tactic(auto, unfolding(crate::specs::Groups::rules_at))]
fn rules_at(
    alloc: Global,
    grouping: &Grouping,
    entry: Option<Sinf>,
    own: &[Seig],
    movie: &[Seig],
    n: usize,
) -> Result<SampleProtections, AuxFault>
    ensures { Gives (λ x. x) result (rules_at grouping.now entry own.now movie.now n) }
{
    let mut rules = Items::new(alloc);
    let mut cursor = Cursor {
        items: grouping.items.as_slice(),
        passed: 0,
    };
    for k in 0..n {
        let index = cursor.next();
        let rule = rule_at(grouping.place, entry, own, movie, index)?;
        rules.push(rule)?;
    }
    Ok(rules)
}

#[derive(Clone, Copy)]
struct SbgpReader;

impl BoxReader for SbgpReader {
    type Given = Grouping;

    ghost gives = { λ r b. grouping_at b };

    #[tactic(auto, unfolding(crate::specs::Groups::grouping_at))]
    fn read(&self, alloc: Global, at: &BoxRef<'_>) -> Result<Option<Grouping>, AuxFault> {
        match read_sbgp(alloc, at)? {
            None => Ok(None),
            Some(sbgp) => Ok(Some(Grouping {
                place: at.place,
                items: sbgp.entries,
            })),
        }
    }
}

#[tactic(auto, unfolding(crate::specs::Groups::grouping_in))]
fn grouping_in(alloc: Global, file: &[u8], spans: &[Span]) -> Result<Option<Grouping>, AuxFault>
    ensures { Gives (λ x. x) result (grouping_in file.now spans.now) }
{
    first_given(alloc, file, spans, &SbgpReader)
}

/// Of two refusals the one that stands first in the file; want of memory before both.
fn earlier(first: AuxFault, second: AuxFault) -> AuxFault
    ensures { IsEarlier first second result }
{
    match (first.kind, second.kind) {
        (AuxKind::OutOfMemory, _) => first,
        (_, AuxKind::OutOfMemory) => second,
        _ => {
            if second.place < first.place {
                second
            } else {
                first
            }
        }
    }
}

fn or_ungrouped(alloc: Global, grouping: Option<Grouping>) -> Grouping
    ensures { result ≡ or_ungrouped grouping }
{
    match grouping {
        Some(grouping) => grouping,
        None => Grouping {
            place: 0,
            items: Items::new(alloc),
        },
    }
}

fn movie_groups<'a>(
    groups: &'a Result<Seigs, AuxFault>,
    grouping: &Option<Grouping>,
) -> Result<&'a [Seig], AuxFault>
    ensures { Gives (λ x. x.now) result (movie_groups groups.now grouping.now) }
{
    match (grouping, groups) {
        (None, _) => Ok(&[]),
        (Some(_), Ok(groups)) => Ok(groups.as_slice()),
        (Some(_), Err(fault)) => Err(*fault),
    }
}

/// The boxes of groups of a track fragment: the used `sbgp`, and the groups of its own.
fn boxes_of(alloc: Global, file: &[u8], traf: &Traf) -> Result<(Option<Grouping>, Seigs), AuxFault>
    ensures { Gives (λ x. x) result (both (grouping_in file.now traf.now.sbgp) (groups_in file.now traf.now.sgpd)) }
{
    let grouping = grouping_in(alloc, file, traf.sbgp.as_slice());
    let own = groups_in(alloc, file, traf.sgpd.as_slice());
    match (grouping, own) {
        (Ok(grouping), Ok(own)) => Ok((grouping, own)),
        (Ok(_), Err(fault)) => Err(fault),
        (Err(fault), Ok(_)) => Err(fault),
        (Err(first), Err(second)) => Err(earlier(first, second)),
    }
}

/// What protects each of the `n` samples of a track fragment, by what its movie says of the sample entry and of groups.
#[tactic(auto, unfolding(crate::specs::Groups::protection_of))]
pub fn protection_of(
    alloc: Global,
    file: &[u8],
    entry: Result<Option<Sinf>, AuxFault>,
    of_movie: &Result<Seigs, AuxFault>,
    traf: &Traf,
    n: usize,
) -> Result<Protection, AuxFault>
    ensures { Gives (λ x. x) result (protection_of file.now entry of_movie.now traf.now n) }
{
    let (grouping, own) = boxes_of(alloc, file, traf)?;
    let used = entry?;
    let groups = movie_groups(of_movie, &grouping)?;
    let grouping = or_ungrouped(alloc, grouping);
    let rules = rules_at(alloc, &grouping, used, own.as_slice(), groups, n)?;
    Ok(Protection { entry: used, rules })
}
