ghost use Rattle.std.specs.Prelude.{IfOk};
ghost use Rattle.key_vault.specs.Crash.{HasGate};

use crate::{Command, KeyVault, MemoryDisk, OpenBack, OpenFault, VaultDisk, VaultFault};
use eme_types::Bytes;
use std::alloc::{AllocError, Global};
use std::test::Fail;

const LICENCE: &str =
    "{\"keys\":[{\"kty\":\"oct\",\"kid\":\"AAECAwQFBgcICQoLDA0ODw\",\"k\":\"K34VFiiu0qar9xWICc9PPA\"}],\"type\":\"temporary\"}";

// Two keys, the first of them twice.
const MORE: &str =
    "{\"keys\":[{\"kty\":\"oct\",\"kid\":\"AQ\",\"k\":\"K34VFiiu0qar9xWICc9PPA\"},{\"kty\":\"oct\",\"kid\":\"AAECAwQFBgcICQoLDA0ODw\",\"k\":\"K34VFiiu0qar9xWICc9PPA\"},{\"kty\":\"oct\",\"kid\":\"AQ\",\"k\":\"K34VFiiu0qar9xWICc9PPA\"}]}";

fn create(alloc: Global, disk: MemoryDisk) -> Result<KeyVault<MemoryDisk>, OpenFault>
    ensures { IfOk result (λ v. HasGate (⟦<MemoryDisk as VaultDisk>⟧.state v.disk) v.gate v.must_reopen) }
{
    match KeyVault::create(alloc, disk) {
        Ok(vault) => Ok(vault),
        Err(OpenBack { disk: _, fault }) => Err(fault),
    }
}

fn open(alloc: Global, image: &[u8]) -> Result<KeyVault<MemoryDisk>, OpenFault>
    ensures { IfOk result (λ v. HasGate (⟦<MemoryDisk as VaultDisk>⟧.state v.disk) v.gate v.must_reopen) }
{
    let disk = MemoryDisk::from_image(alloc, image)?;
    match KeyVault::open(alloc, disk) {
        Ok(vault) => Ok(vault),
        Err(OpenBack { disk: _, fault }) => Err(fault),
    }
}

// One call, by its words.
fn call<D: VaultDisk>(
    alloc: Global,
    vault: &mut KeyVault<D>,
    verb: &str,
    label: &str,
    licence: &str,
) -> Result<Bytes, VaultFault>
    requires { HasGate (D.state vault.old.disk) vault.old.gate vault.old.must_reopen }
    ensures { HasGate (D.state vault.new.disk) vault.new.gate vault.new.must_reopen }
{
    let label = label.as_bytes();
    match verb {
        "store" => {
            vault.store(label, licence.as_bytes())?;
            Ok(Bytes::new(alloc))
        }
        "release" => vault.release(label),
        "ack" => {
            vault.ack(label)?;
            Ok(Bytes::new(alloc))
        }
        _ => vault.load(label),
    }
}

fn is_as(answer: &Result<Bytes, VaultFault>, want: Result<&str, VaultFault>) -> bool {
    match (answer, want) {
        (Ok(text), Ok(wanted)) => text.as_slice() == wanted.as_bytes(),
        (Err(fault), Err(wanted)) => *fault == wanted,
        _ => false,
    }
}

#[test]
fn a_licence_is_stored_released_and_acknowledged(rt: HostRuntime) -> Result<(), Fail> {
    let alloc = rt.alloc();
    let mut vault = create(alloc, MemoryDisk::new(alloc))?;
    let long = "aaaaaaaaaabbbbbbbbbbccccccccccddd";
    let steps = [
        ("store", "a", LICENCE, Ok("")),
        ("load", "a", "", Ok(LICENCE)),
        ("store", "a", LICENCE, Err(VaultFault::Exists)),
        ("store", "a", "{}", Err(VaultFault::Licence)),
        ("store", "A", "{}", Err(VaultFault::Label)),
        ("store", "", LICENCE, Err(VaultFault::Label)),
        ("store", long, LICENCE, Err(VaultFault::Label)),
        ("load", "", "", Err(VaultFault::Label)),
        ("load", "b", "", Err(VaultFault::Unknown)),
        ("release", "-", "", Err(VaultFault::Label)),
        ("release", "b", "", Err(VaultFault::Unknown)),
        ("ack", "a b", "", Err(VaultFault::Label)),
        ("ack", "b", "", Err(VaultFault::Unknown)),
        ("ack", "a", "", Err(VaultFault::NotReleasing)),
        (
            "release",
            "a",
            "",
            Ok("{\"kids\":[\"AAECAwQFBgcICQoLDA0ODw\"]}"),
        ),
        ("load", "a", "", Err(VaultFault::NotHeld)),
        ("release", "a", "", Err(VaultFault::NotHeld)),
        ("store", "a", LICENCE, Err(VaultFault::Exists)),
        ("ack", "a", "", Ok("")),
        ("load", "a", "", Err(VaultFault::Unknown)),
        ("store", "b_2", MORE, Ok("")),
        (
            "release",
            "b_2",
            "",
            Ok("{\"kids\":[\"AQ\",\"AAECAwQFBgcICQoLDA0ODw\"]}"),
        ),
    ];
    for (verb, label, licence, want) in steps {
        let answer = call(alloc, &mut vault, verb, label, licence);
        assert!(rt; is_as(&answer, want), "{verb} {label}");
    }
    Ok(())
}

// What is loaded under `a` from the image: nothing, or the licence.
fn loads(alloc: Global, image: &[u8], found: &mut bool) -> Result<bool, OpenFault> {
    let vault = open(alloc, image)?;
    let answer = vault.load(b"a");
    *found = is_as(&answer, Ok(LICENCE));
    Ok(*found || is_as(&answer, Err(VaultFault::Unknown)))
}

#[test]
fn a_crash_at_each_device_call_leaves_the_licence_or_not(rt: HostRuntime) -> Result<(), Fail> {
    let alloc = rt.alloc();
    // A store is four calls of the disk, behind the three of the creation.
    for k in 4..9 {
        for fill in [None, Some(0), Some(1), Some(255)] {
            let mut disk = MemoryDisk::new(alloc);
            disk.fail_call(k)?;
            let mut vault = create(alloc, disk)?;
            let stored = vault.store(b"a", LICENCE.as_bytes());
            let again = vault.load(b"a");
            let image = vault.disk().image(fill)?;
            let mut found = false;
            assert!(rt; loads(alloc, image.as_slice(), &mut found)?, "call {k}");
            match stored {
                Ok(()) => assert!(rt; k == 8 && found),
                Err(fault) => {
                    assert!(rt; k < 8 && fault == VaultFault::Disk);
                    assert!(rt; is_as(&again, Err(VaultFault::MustReopen)));
                }
            }
        }
    }
    Ok(())
}

#[test]
fn a_hostile_image_is_no_vault(rt: HostRuntime) -> Result<(), Fail> {
    let alloc = rt.alloc();
    let images = [
        // Nothing; a gate and nothing behind it; a length that is cut short, and one past the end.
        b"".as_slice(),
        b"\x01".as_slice(),
        b"\x01\0\0\0".as_slice(),
        b"\x01\0\0\0\x04\x03\x01a".as_slice(),
        b"\x01\xff\xff\xff\xff\x03\x01a\0".as_slice(),
        // No verb; a label past the command; bytes behind the label of an acknowledgement.
        b"\x01\0\0\0\x03\x04\x01a\0".as_slice(),
        b"\x01\0\0\0\x03\x03\x02a\0".as_slice(),
        b"\x01\0\0\0\x04\x03\x01ab\0".as_slice(),
        // Commands that are not accepted on an empty vault.
        b"\x01\0\0\0\x03\x03\x01a\0".as_slice(),
        b"\x01\0\0\0\x03\x02\x01a\0".as_slice(),
        b"\x01\0\0\0\x03\x01\x01a\0".as_slice(),
    ];
    for image in images {
        match open(alloc, image) {
            Ok(_) => assert!(rt; false),
            Err(fault) => assert_eq!(rt; fault, OpenFault::NotVault { place: 0 }),
        }
    }
    // A gate that is not open ends the file, whatever stands behind it.
    for image in [b"\0".as_slice(), b"\x4d\x01\x01".as_slice()] {
        let vault = open(alloc, image)?;
        assert!(rt; is_as(&vault.load(b"a"), Err(VaultFault::Unknown)));
    }
    let full = MemoryDisk::from_image(alloc, b"x")?;
    match create(alloc, full) {
        Ok(_) => assert!(rt; false),
        Err(fault) => assert_eq!(rt; fault, OpenFault::NotEmpty),
    }
    Ok(())
}

#[test]
fn a_list_of_commands_is_served(rt: HostRuntime) -> Result<(), Fail> {
    let alloc = rt.alloc();
    let mut vault = create(alloc, MemoryDisk::new(alloc))?;
    let label = Bytes::from_slice(alloc, b"a")?;
    let licence = Bytes::from_slice(alloc, LICENCE.as_bytes())?;
    let other = Bytes::from_slice(alloc, b"b")?;
    let commands = vec![in alloc;
        Command::Ack { label: other },
        Command::Store { label, licence },
    ]?;
    assert_eq!(rt; vault.serve_all(&commands), Ok(()));
    let image = vault.into_disk().image(None)?;
    // Behind the last frame the closed gate is wanted.
    let whole = image.as_slice();
    assert!(rt; whole.len() > 0);
    let cut = whole.len() - 1;
    match open(alloc, &whole[..cut]) {
        Ok(_) => assert!(rt; false),
        Err(fault) => assert_eq!(rt; fault, OpenFault::NotVault { place: cut as u64 }),
    }
    let again = open(alloc, whole)?;
    assert!(rt; is_as(&again.load(b"a"), Ok(LICENCE)));
    Ok(())
}
