// Key ids of initialization data.
ghost use Rattle.std.specs.Prelude.{◌≡◌, ◌≢◌, ◌<◌, length, map, flat_map, IfOk, IfErr, Ok, Err};
ghost use Rattle.serde_json.specs.View.{view};
ghost use Rattle.eme_types.specs.FirstFault.{Gives, read_each};
ghost use Rattle.init_data.specs.declared.fault.InitFault.TheVariants.{OutOfMemory};
ghost use Rattle.init_data.specs.InitData.{kid_in, keyids_of, common_kids, cenc_of, first_occurrences, listed, kids_of};

use crate::fault::InitFault;
use crate::pssh::{Pssh, PsshList, read_pssh};
use clearkey_json::{json_of, kid_of};
use eme_types::{Copies, InitKind, KeyId, Kids, MAX_INIT_DATA_BYTES};
use indexmap::IndexSet;
use serde_json::Value;
use std::alloc::{AllocError, Global};

// The Common SystemID 1077efec-c0b2-4d02-ace3-3c1e52e2fb4b.
const COMMON_SYSTEM: [u8; 16] = [
    0x10, 0x77, 0xef, 0xec, 0xc0, 0xb2, 0x4d, 0x02, 0xac, 0xe3, 0x3c, 0x1e, 0x52, 0xe2, 0xfb, 0x4b,
];

// A key id as a JSON text.
#[tactic(auto, unfolding(crate::specs::InitData::kid_in))]
fn kid_in(alloc: Global, value: &Value) -> Result<KeyId, InitFault>
    ensures { Gives (λ e. e ≡ OutOfMemory) (λ kid. kid) result (kid_in (view value.now)) }
{
    let Some(text) = value.as_str() else {
        return Err(InitFault::Invalid);
    };
    let Some(kid) = kid_of(alloc, text)? else {
        return Err(InitFault::Invalid);
    };
    Ok(kid)
}

fn kids_in(alloc: Global, values: &[Value]) -> Result<Vec<KeyId>, InitFault>
    ensures { Gives (λ e. e ≡ OutOfMemory) (λ kids. kids.items) result (read_each kid_in (map view values.now)) }
{
    let mut kids = Vec::with_capacity(alloc, values.len())?;
    for value in values {
        let kid = kid_in(alloc, value)?;
        kids.push(kid)?;
    }
    Ok(kids)
}

#[tactic(auto, unfolding(crate::specs::InitData::keyids_of))]
fn keyids_of(alloc: Global, bytes: &[u8]) -> Result<Vec<KeyId>, InitFault>
    ensures { Gives (λ e. e ≡ OutOfMemory) (λ kids. kids.items) result (keyids_of bytes.now) }
{
    if bytes.len() > MAX_INIT_DATA_BYTES {
        return Err(InitFault::Invalid);
    }
    let Some(object) = json_of(alloc, bytes)? else {
        return Err(InitFault::Invalid);
    };
    let Some(member) = object.get("kids") else {
        return Err(InitFault::Invalid);
    };
    let Some(values) = member.as_array() else {
        return Err(InitFault::Invalid);
    };
    kids_in(alloc, values)
}

fn common_kids(alloc: Global, pssh: &Pssh) -> Result<Vec<KeyId>, AllocError>
    ensures { IfOk result (λ kids. kids.items ≡ common_kids pssh.now) }
{
    if pssh.system == COMMON_SYSTEM {
        KeyId::copy_all(alloc, pssh.kids.as_slice())
    } else {
        Ok(Vec::new(alloc))
    }
}

fn all_common_kids(alloc: Global, list: &PsshList) -> Result<Vec<KeyId>, AllocError>
    ensures { IfOk result (λ kids. kids.items ≡ flat_map common_kids list.now) }
{
    let mut kids = Vec::new(alloc);
    for pssh in list.as_slice() {
        let mut further = common_kids(alloc, pssh)?;
        kids.append(&mut further)?;
    }
    Ok(kids)
}

#[tactic(auto, unfolding(crate::specs::InitData::cenc_of))]
fn cenc_of(alloc: Global, bytes: &[u8]) -> Result<Vec<KeyId>, InitFault>
    ensures { Gives (λ e. e ≡ OutOfMemory) (λ kids. kids.items) result (cenc_of bytes.now) }
{
    let list = read_pssh(alloc, bytes)?;
    Ok(all_common_kids(alloc, &list)?)
}

fn listed(alloc: Global, kind: InitKind, bytes: &[u8]) -> Result<Vec<KeyId>, InitFault>
    ensures { Gives (λ e. e ≡ OutOfMemory) (λ kids. kids.items) result (listed kind bytes.now) }
{
    match kind {
        InitKind::Cenc => cenc_of(alloc, bytes),
        InitKind::Keyids => keyids_of(alloc, bytes),
    }
}

fn distinct(alloc: Global, kids: &[KeyId]) -> Result<IndexSet<KeyId>, AllocError>
    ensures { IfOk result (λ set. set.keys ≡ first_occurrences kids.now) }
{
    let mut distinct: IndexSet<KeyId> = IndexSet::new(alloc);
    for kid in kids {
        distinct.insert(kid.copy()?)?;
    }
    Ok(distinct)
}

fn as_kids(alloc: Global, set: IndexSet<KeyId>) -> Result<Kids, AllocError>
    ensures { IfOk result (λ kids. kids ≡ set.keys) }
{
    let mut kids = Kids::new(alloc);
    for kid in set {
        kids.push(kid)?;
    }
    Ok(kids)
}

/// The key ids that initialization data names (Encrypted Media Extensions Initialization Data Format Registry), each once, in
/// the order of first occurrence; at least one.
///
/// `Invalid` comes for bytes outside the grammar of their type or above 65,536; `NoKids` where no key id is named.
#[tactic(auto, unfolding(crate::specs::InitData::kids_of), using(crate::proofs::FirstLemmas::some_first))]
pub fn kids_of(alloc: Global, kind: InitKind, bytes: &[u8]) -> Result<Kids, InitFault>
    ensures ok { IfOk result (λ kids. kids_of kind bytes.now ≡ Ok kids) }
    ensures some { IfOk result (λ kids. 0 < length kids) }
    ensures refused { IfErr result (λ fault. fault ≢ OutOfMemory → kids_of kind bytes.now ≡ Err fault) }
{
    let kids = listed(alloc, kind, bytes)?;
    if kids.is_empty() {
        return Err(InitFault::NoKids);
    }
    let distinct = distinct(alloc, &kids)?;
    Ok(as_kids(alloc, distinct)?)
}
