// A vault's file, replayed.
ghost use Rattle.std.specs.Prelude.{◌≡◌, ◌<◌, ◌≤◌, ◌+◌, ◌^◌, [], ◌∷◌, length, drop, IfOk, IfErr, MatchOption};
ghost use Rattle.key_vault.specs.declared.limits.TheConstants.{MAX_VAULT_BYTES};
ghost use Rattle.key_vault.specs.Opening.{IsReplayed, Refuses, IsNext, RefusesFrame, refused_as};

use crate::fault::{OpenFault, VaultFault};
use crate::frame::read_frame;
use crate::records::replay_one;
use crate::stored::VaultRecord;
use std::alloc::Global;

/// Reads the command behind an open gate and does what it asks; how many bytes it took.
fn replay_frame(
    alloc: Global,
    records: &mut Vec<VaultRecord>,
    gate: u64,
    behind: &[u8],
) -> Result<usize, OpenFault>
    requires { gate < 2 ^ 32 }
    ensures next { IfOk result (λ n. IsNext behind.now records.old.items records.new.items gate n) }
    ensures refused { IfErr result (RefusesFrame behind.now records.old.items gate) }
{
    let Some((told, count)) = read_frame(behind) else {
        return Err(OpenFault::NotVault { place: gate });
    };
    match replay_one(alloc, records, gate, &told) {
        Ok(()) => Ok(count),
        Err(fault) => Err(refused_as(gate, fault)),
    }
}

/// Want of memory, or no vault at this gate.
fn refused_as(gate: u64, fault: VaultFault) -> OpenFault
    ensures { result ≡ refused_as gate fault }
{
    match fault {
        VaultFault::OutOfMemory => OpenFault::OutOfMemory,
        _ => OpenFault::NotVault { place: gate },
    }
}

/// The gate at this place, and what stands behind it.
fn gate_at(bytes: &[u8], gate: usize) -> Option<(u8, &[u8])>
    requires { gate ≤ length bytes.now }
    ensures { MatchOption result (drop gate bytes.now ≡ []) (λ read. drop gate bytes.now ≡ read.0 ∷ read.1.now) }
{
    let (first, behind) = bytes[gate..].split_first()?;
    Some((*first, behind))
}

/// The records of the open frames, and the place of the gate behind them.
pub fn replay(alloc: Global, bytes: &[u8]) -> Result<(Vec<VaultRecord>, u64), OpenFault>
    requires { length bytes.now ≤ MAX_VAULT_BYTES }
    ensures ok { IfOk result (λ read. IsReplayed bytes.now read.0.items read.1) }
    ensures refused { IfErr result (Refuses bytes.now) }
{
    let mut records = Vec::new(alloc);
    let mut gate = 0;
    'frames: loop {
        let Some((first, behind)) = gate_at(bytes, gate) else {
            return Err(OpenFault::NotVault { place: gate as u64 });
        };
        if first != 1 {
            return Ok((records, gate as u64));
        }
        let count = replay_frame(alloc, &mut records, gate as u64, behind)?;
        gate += 1 + count;
    }
}
