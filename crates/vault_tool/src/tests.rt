// The tool on a disk and a shelf in memory. What the built program shows stands in checks/ and examples/.
use crate::{UsageFault, UsageKind, VaultKind, VaultOutcome, run_vault, status};
use eme_edge::{MemoryShelf, Shelf};
use eme_types::Bytes;
use key_vault::{MemoryDisk, VaultDisk};
use std::alloc::{AllocError, Global};
use std::test::Fail;

const LICENCE: &str =
    "{\"keys\":[{\"kty\":\"oct\",\"kid\":\"AAECAwQFBgcICQoLDA0ODw\",\"k\":\"K34VFiiu0qar9xWICc9PPA\"}],\"type\":\"temporary\"}";

// What a load of it says.
const LOADED: &str =
    "{\"keys\":[{\"kty\":\"oct\",\"kid\":\"AAECAwQFBgcICQoLDA0ODw\",\"k\":\"K34VFiiu0qar9xWICc9PPA\"}],\"type\":\"temporary\"}\n";

const RELEASE: &str = "{\"kids\":[\"AAECAwQFBgcICQoLDA0ODw\"]}\n";

// Runs the words of a line, which single blanks part; an empty line has no word.
fn run_line<D: VaultDisk + Drop, S: Shelf>(
    alloc: Global,
    line: &str,
    disk: D,
    shelf: &mut S,
) -> Result<(D, VaultOutcome), AllocError> {
    let mut words = Vec::new(alloc);
    for word in line.split(' ') {
        words.push(String::from_str(alloc, word)?)?;
    }
    if line.is_empty() {
        words.clear();
    }
    Ok(run_vault(alloc, words.as_slice(), disk, shelf))
}

// A licence `l`, no licence `n`, and files of 65,536 and 65,537 blanks.
fn shelf_with_files(alloc: Global) -> Result<MemoryShelf, AllocError> {
    let blanks = vec![in alloc; b' '; 65_537]?;
    let mut shelf = MemoryShelf::new(alloc);
    shelf.put_file("l", LICENCE.as_bytes())?;
    shelf.put_file("n", b"{}")?;
    shelf.put_file("most", &blanks[..65_536])?;
    shelf.put_file("more", &blanks)?;
    Ok(shelf)
}

const NOT_EMPTY: VaultOutcome = VaultOutcome::Refused(VaultKind::NotEmpty);

const NO_LABEL: VaultOutcome = VaultOutcome::Refused(VaultKind::Label);

const NO_LICENCE: VaultOutcome = VaultOutcome::Refused(VaultKind::Licence);

const EXISTS: VaultOutcome = VaultOutcome::Refused(VaultKind::Exists);

const UNKNOWN: VaultOutcome = VaultOutcome::Refused(VaultKind::Unknown);

const NOT_HELD: VaultOutcome = VaultOutcome::Refused(VaultKind::NotHeld);

const NOT_RELEASING: VaultOutcome = VaultOutcome::Refused(VaultKind::NotReleasing);

const FULL: VaultOutcome = VaultOutcome::Refused(VaultKind::Full);

const NO_VAULT: VaultOutcome = VaultOutcome::NotVault { place: 0 };

fn usage(place: u32, kind: UsageKind) -> VaultOutcome {
    VaultOutcome::Usage(UsageFault { place, kind })
}

#[test]
fn each_command_is_carried_out_or_refused(rt: HostRuntime) -> Result<(), Fail> {
    let alloc = rt.alloc();
    let mut shelf = shelf_with_files(alloc)?;
    let mut disk = MemoryDisk::new(alloc);
    let mut said = Bytes::new(alloc);
    for (line, outcome, text) in [
        ("load a", NO_VAULT, ""),
        ("release a", NO_VAULT, ""),
        ("ack a", NO_VAULT, ""),
        ("store a l", NO_VAULT, ""),
        // the licence is read before the vault is opened
        ("store a no", VaultOutcome::ReadFault, ""),
        ("store a more", VaultOutcome::TooLarge, ""),
        ("create", VaultOutcome::Done, ""),
        ("create", NOT_EMPTY, ""),
        ("store A n", NO_LABEL, ""),
        ("store a most", NO_LICENCE, ""),
        ("store a l", VaultOutcome::Done, ""),
        ("store a n", NO_LICENCE, ""),
        ("store a l", EXISTS, ""),
        ("load a", VaultOutcome::Done, LOADED),
        ("load -", NO_LABEL, ""),
        ("load b", UNKNOWN, ""),
        ("ack -", NO_LABEL, ""),
        ("ack b", UNKNOWN, ""),
        ("ack a", NOT_RELEASING, ""),
        ("release -", NO_LABEL, ""),
        ("release b", UNKNOWN, ""),
        ("release a", VaultOutcome::Done, RELEASE),
        ("load a", NOT_HELD, ""),
        ("release a", NOT_HELD, ""),
        ("store a l", EXISTS, ""),
        ("ack a", VaultOutcome::Done, ""),
        ("load a", UNKNOWN, ""),
    ] {
        let (left, answer) = run_line(alloc, line, disk, &mut shelf)?;
        disk = left;
        said.extend_from_slice(text.as_bytes())?;
        assert!(rt; answer == outcome, "{line}");
        assert!(rt; shelf.said() == said.as_slice(), "{line}");
    }
    Ok(())
}

#[test]
fn words_outside_their_grammar_touch_nothing(rt: HostRuntime) -> Result<(), Fail> {
    let alloc = rt.alloc();
    for (line, place, kind) in [
        ("", 1, UsageKind::MissingCommand),
        (" ", 1, UsageKind::UnknownCommand),
        ("open a", 1, UsageKind::UnknownCommand),
        ("create a", 2, UsageKind::ExtraWord),
        ("store", 2, UsageKind::MissingWord),
        ("store a", 3, UsageKind::MissingWord),
        ("store a ", 3, UsageKind::EmptyName),
        ("store a  x", 3, UsageKind::EmptyName),
        ("store a l x", 4, UsageKind::ExtraWord),
        ("load", 2, UsageKind::MissingWord),
        ("load a x", 3, UsageKind::ExtraWord),
        ("release", 2, UsageKind::MissingWord),
        ("release a x", 3, UsageKind::ExtraWord),
        ("ack", 2, UsageKind::MissingWord),
        ("ack a x", 3, UsageKind::ExtraWord),
    ] {
        let mut shelf = shelf_with_files(alloc)?;
        let (disk, answer) = run_line(alloc, line, MemoryDisk::new(alloc), &mut shelf)?;
        assert!(rt; answer == usage(place, kind), "{line}");
        assert!(rt;
            disk.image(None)?.len() == 0 && shelf.said().is_empty(),
            "{line}"
        );
    }
    Ok(())
}

// The image of a vault with the licence under `a`.
fn held_image(alloc: Global) -> Result<Bytes, AllocError> {
    let mut shelf = shelf_with_files(alloc)?;
    let (disk, _) = run_line(alloc, "create", MemoryDisk::new(alloc), &mut shelf)?;
    let (disk, _) = run_line(alloc, "store a l", disk, &mut shelf)?;
    disk.image(None)
}

// What a release answers where the k-th call of the disk fails, the disk then, and how many bytes were said.
fn release_failing(
    alloc: Global,
    held: &[u8],
    k: u64,
) -> Result<(MemoryDisk, VaultOutcome, usize), AllocError> {
    let mut shelf = MemoryShelf::new(alloc);
    let mut disk = MemoryDisk::from_image(alloc, held)?;
    disk.fail_call(k)?;
    let (disk, answer) = run_line(alloc, "release a", disk, &mut shelf)?;
    Ok((disk, answer, shelf.said().len()))
}

// What a load answers behind a crash.
fn load_crashed(
    alloc: Global,
    disk: &MemoryDisk,
    fill: Option<u8>,
) -> Result<VaultOutcome, AllocError> {
    let image = disk.image(fill)?;
    let crashed = MemoryDisk::from_image(alloc, image.as_slice())?;
    let (_, answer) = run_line(alloc, "load a", crashed, &mut MemoryShelf::new(alloc))?;
    Ok(answer)
}

// An opening is three calls of the disk, and a release four. An eighth is not made.
#[test]
fn each_failing_call_of_the_disk_is_a_disk_fault(rt: HostRuntime) -> Result<(), Fail> {
    let alloc = rt.alloc();
    let held = held_image(alloc)?;
    for k in 1..9 {
        let (disk, answer, said) = release_failing(alloc, held.as_slice(), k)?;
        if k == 8 {
            assert!(rt; answer == VaultOutcome::Done && said == RELEASE.len());
        } else {
            assert!(rt; answer == VaultOutcome::DiskFault && said == 0, "call {k}");
        }
        for fill in [None, Some(0), Some(1), Some(255)] {
            let again = load_crashed(alloc, &disk, fill)?;
            assert!(rt;
                again == NOT_HELD || (k < 8 && again == VaultOutcome::Done),
                "call {k}"
            );
        }
    }
    Ok(())
}

#[test]
fn a_licence_that_is_not_read_changes_nothing(rt: HostRuntime) -> Result<(), Fail> {
    let alloc = rt.alloc();
    let held = held_image(alloc)?;
    let mut shelf = shelf_with_files(alloc)?;
    shelf.fail_read(1)?;
    let disk = MemoryDisk::from_image(alloc, held.as_slice())?;
    let (disk, answer) = run_line(alloc, "store b l", disk, &mut shelf)?;
    assert_eq!(rt; answer, VaultOutcome::ReadFault);
    assert_eq!(rt; disk.image(None)?.as_slice(), held.as_slice());
    Ok(())
}

// A call of `say` that fails keeps the first half of its piece.
#[test]
fn a_release_is_done_where_its_text_is_not_said(rt: HostRuntime) -> Result<(), Fail> {
    let alloc = rt.alloc();
    let held = held_image(alloc)?;
    let mut shelf = MemoryShelf::new(alloc);
    shelf.fail_say(1)?;
    let disk = MemoryDisk::from_image(alloc, held.as_slice())?;
    let (disk, answer) = run_line(alloc, "release a", disk, &mut shelf)?;
    assert_eq!(rt; answer, VaultOutcome::WriteFault);
    assert_eq!(rt; shelf.said(), &RELEASE.as_bytes()[..17]);
    assert_eq!(rt; load_crashed(alloc, &disk, None)?, NOT_HELD);
    Ok(())
}

#[test]
fn each_outcome_has_its_status(rt: HostRuntime) {
    for (outcome, number) in [
        (VaultOutcome::Done, 0),
        (usage(1, UsageKind::MissingCommand), 2),
        (FULL, 3),
        (VaultOutcome::NotVault { place: 7 }, 4),
        (VaultOutcome::DiskFault, 5),
        (VaultOutcome::TooLarge, 6),
        (VaultOutcome::ReadFault, 7),
        (VaultOutcome::WriteFault, 8),
        (VaultOutcome::OutOfMemory, 9),
    ] {
        assert_eq!(rt; status(&outcome), number);
    }
}
