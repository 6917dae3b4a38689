// The records of a vault, and the rules on its commands.
ghost use Rattle.std.specs.Prelude.{◌≡◌, ◌<◌, ◌+◌, ◌^◌, [], ◌∷◌, ◌++◌, List, ℕ, length, true, is_ok, Ok, Err, IfOk, OnOk, OnErr, MatchOption, MatchResult, None, Some, IsErrOf};
ghost use Rattle.eme_types.specs.FirstFault.{demanded};
ghost use Rattle.clearkey_json.specs.KeySet.{key_set};
ghost use Rattle.key_vault.specs.declared.stored.VaultRecord.TheVariants.{Held, Releasing};
ghost use Rattle.key_vault.specs.declared.command.Command.TheVariants.{Store, Release, Ack};
ghost use Rattle.key_vault.specs.declared.fault.VaultFault.TheVariants.{Licence, Full};
ghost use Rattle.key_vault.specs.Records.{label_of, record_of, StandsAt, kids_in, with_released, without, after};
ghost use Rattle.key_vault.specs.Rules.{fits, held, releasing, loaded, allowed, Obeys};
ghost use Rattle.key_vault.specs.Told.{command_of};

use crate::fault::VaultFault;
use crate::frame::Told;
use crate::kids::kids_in;
use crate::label::is_label;
use crate::limits::MAX_VAULT_BYTES;
use crate::stored::VaultRecord;
use clearkey_json::{KeySetFault, read_key_set};
use eme_types::{Bytes, Kids};
use std::alloc::{AllocError, Global};

fn label_of(record: &VaultRecord) -> &[u8]
    ensures { result.now ≡ label_of record.now }
{
    match record {
        VaultRecord::Held { label, licence: _ } => label.as_slice(),
        VaultRecord::Releasing { label, kids: _ } => label.as_slice(),
    }
}

fn place_of(records: &[VaultRecord], label: &[u8]) -> Option<usize>
    ensures { MatchOption result (record_of label.now records.now ≡ None) (StandsAt records.now label.now) }
{
    for (i, record) in records.iter().enumerate() {
        if label_of(record) == label {
            return Some(i);
        }
    }
    None
}

fn licence_of(record: &VaultRecord) -> Result<&[u8], VaultFault>
    ensures { MatchResult result (λ licence. held (Some record.now) ≡ Ok licence.now) (λ fault. held (Some record.now) ≡ Err fault) }
{
    match record {
        VaultRecord::Held { label: _, licence } => Ok(licence.as_slice()),
        VaultRecord::Releasing { label: _, kids: _ } => Err(VaultFault::NotHeld),
    }
}

/// The licence that is held under the label.
pub fn loaded<'a>(records: &'a [VaultRecord], label: &[u8]) -> Result<&'a [u8], VaultFault>
    ensures ok { IfOk result (λ licence. loaded records.now label.now ≡ Ok licence.now) }
    ensures follows { Obeys (loaded records.now label.now) result }
{
    if !is_label(label) {
        return Err(VaultFault::Label);
    }
    match place_of(records, label) {
        None => Err(VaultFault::Unknown),
        Some(i) => licence_of(&records[i]),
    }
}

/// Whether a command of `count` bytes fits behind the gate.
fn check_room(gate: u64, count: usize) -> Result<(), VaultFault>
    requires gate { gate < 2 ^ 32 }
    requires count { count < 2 ^ 63 + 2 ^ 32 }
    ensures { result ≡ demanded Full (fits gate count) }
{
    if gate + 5 + count as u64 + 1 > MAX_VAULT_BYTES {
        return Err(VaultFault::Full);
    }
    Ok(())
}

fn check_licence(alloc: Global, licence: &[u8]) -> Result<(), VaultFault>
    ensures follows { Obeys (demanded Licence (is_ok (key_set licence.now))) result }
{
    match read_key_set(alloc, licence) {
        Ok(_) => Ok(()),
        Err(KeySetFault::OutOfMemory) => Err(VaultFault::OutOfMemory),
        Err(_) => Err(VaultFault::Licence),
    }
}

/// Whether the licence may be stored.
pub fn check_store(
    alloc: Global,
    records: &[VaultRecord],
    gate: u64,
    label: &[u8],
    licence: &[u8],
) -> Result<(), VaultFault>
    requires { gate < 2 ^ 32 }
    ensures follows { Obeys (allowed (Store label.now licence.now) records.now gate) result }
{
    if !is_label(label) {
        return Err(VaultFault::Label);
    }
    check_licence(alloc, licence)?;
    if place_of(records, label).is_some() {
        return Err(VaultFault::Exists);
    }
    check_room(gate, 2 + label.len() + licence.len())
}

/// The key ids of the licence that may be let go.
pub fn freed(
    alloc: Global,
    records: &[VaultRecord],
    gate: u64,
    label: &[u8],
) -> Result<Kids, VaultFault>
    requires { gate < 2 ^ 32 }
    ensures kids { IfOk result (λ kids. IfOk (loaded records.now label.now) (λ licence. kids ≡ kids_in licence)) }
    ensures follows { Obeys (allowed (Release label.now) records.now gate) result }
{
    let licence = loaded(records, label)?;
    check_room(gate, 2 + label.len())?;
    Ok(kids_in(alloc, licence)?)
}

fn check_releasing(record: &VaultRecord) -> Result<(), VaultFault>
    ensures { result ≡ releasing (Some record.now) }
{
    match record {
        VaultRecord::Held {
            label: _,
            licence: _,
        } => Err(VaultFault::NotReleasing),
        VaultRecord::Releasing { label: _, kids: _ } => Ok(()),
    }
}

fn check_gone(records: &[VaultRecord], label: &[u8]) -> Result<(), VaultFault>
    ensures { result ≡ releasing (record_of label.now records.now) }
{
    match place_of(records, label) {
        None => Err(VaultFault::Unknown),
        Some(i) => check_releasing(&records[i]),
    }
}

/// Whether the record may be removed.
pub fn check_ack(records: &[VaultRecord], gate: u64, label: &[u8]) -> Result<(), VaultFault>
    requires { gate < 2 ^ 32 }
    ensures follows { Obeys (allowed (Ack label.now) records.now gate) result }
{
    if !is_label(label) {
        return Err(VaultFault::Label);
    }
    check_gone(records, label)?;
    check_room(gate, 2 + label.len())
}

/// Adds the licence, or changes nothing.
pub fn add_held(
    alloc: Global,
    records: &mut Vec<VaultRecord>,
    label: &[u8],
    licence: &[u8],
) -> Result<(), AllocError>
    ensures ok { OnOk result (records.new.items ≡ records.old.items ++ Held label.now licence.now ∷ []) }
    ensures err { OnErr result (records.new.items ≡ records.old.items) }
{
    let label = Bytes::from_slice(alloc, label)?;
    let licence = Bytes::from_slice(alloc, licence)?;
    records.push(VaultRecord::Held { label, licence })?;
    Ok(())
}

/// A record that is being released.
pub fn make_releasing(alloc: Global, label: &[u8], kids: Kids) -> Result<VaultRecord, AllocError>
    ensures { IfOk result (λ entry. entry ≡ Releasing label.now kids) }
{
    let label = Bytes::from_slice(alloc, label)?;
    Ok(VaultRecord::Releasing { label, kids })
}

/// Puts the entry in the place of the one that is held under the label.
pub fn put_releasing(records: &mut Vec<VaultRecord>, label: &[u8], entry: VaultRecord)
    requires entry { IfOk (loaded records.old.items label.now) (λ licence. entry ≡ Releasing label.now (kids_in licence)) }
    requires held { is_ok (loaded records.old.items label.now) ≡ true }
    ensures { records.new.items ≡ with_released label.now records.old.items }
{
    if let Some(i) = place_of(records, label) {
        records[i] = entry;
    }
}

/// Removes the record of the label.
pub fn remove(records: &mut Vec<VaultRecord>, label: &[u8])
    ensures { records.new.items ≡ without label.now records.old.items }
{
    if let Some(i) = place_of(records, label) {
        let _gone = records.remove(i);
    }
}

/// Does what the command asks of the records, or changes nothing.
pub fn replay_one(
    alloc: Global,
    records: &mut Vec<VaultRecord>,
    gate: u64,
    told: &Told<'_>,
) -> Result<(), VaultFault>
    requires { gate < 2 ^ 32 }
    ensures follows { Obeys (allowed (command_of told.now) records.old.items gate) result }
    ensures ok { OnOk result (records.new.items ≡ after (command_of told.now) records.old.items) }
{
    match told {
        Told::Stores { label, licence } => {
            check_store(alloc, records, gate, label, licence)?;
            add_held(alloc, records, label, licence)?;
        }
        Told::Releases { label } => {
            let kids = freed(alloc, records, gate, label)?;
            let entry = make_releasing(alloc, label, kids)?;
            put_releasing(records, label, entry);
        }
        Told::Acks { label } => {
            check_ack(records, gate, label)?;
            remove(records, label);
        }
    }
    Ok(())
}
