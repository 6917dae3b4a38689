ghost use Rattle.std.specs.Prelude.{IsFalse};

use crate::{DiskFailed, HostDisk, MemoryDisk, VaultDisk};
use std::env::temp_dir;
use std::fs::remove_file;
use std::test::Fail;

#[test]
fn a_disk_in_memory_tells_what_a_crash_may_leave(rt: HostRuntime) -> Result<(), Fail> {
    let alloc = rt.alloc();
    let mut disk = MemoryDisk::from_image(alloc, b"abc")?;
    disk.fail_call(3)?;
    disk.ready(8)?;
    assert_eq!(rt; disk.write_at(2, b"xyz"), Ok(()));
    assert_eq!(rt; disk.image(None)?.as_slice(), b"abxyz".as_slice());
    assert_eq!(rt;
        disk.image(Some(7))?.as_slice(),
        b"ab\x07\x07\x07".as_slice()
    );
    assert_eq!(rt; disk.sync(), Ok(()));
    assert_eq!(rt; disk.image(Some(7))?.as_slice(), b"abxyz".as_slice());
    assert_eq!(rt; disk.write_at(0, b"q"), Err(DiskFailed));
    assert_eq!(rt; disk.image(None)?.as_slice(), b"qbxyz".as_slice());
    assert_eq!(rt; disk.image(Some(7))?.as_slice(), b"\x07bxyz".as_slice());
    let mut buf = [0; 4];
    assert_eq!(rt; disk.size(), Ok(5));
    assert_eq!(rt; disk.read(3, &mut buf), Ok(2));
    assert_eq!(rt; &buf[..], b"yz\0\0".as_slice());
    Ok(())
}

// Writes, syncs and reads; the size, and how many bytes were read.
fn write_and_read<D: VaultDisk>(
    disk: &mut D,
    place: u64,
    buf: &mut [u8],
) -> Result<(u64, usize), Fail>
    requires { IsFalse (D.state disk.old).tells }
{
    disk.ready(16)?;
    disk.write_at(0, b"abc")?;
    disk.write_at(2, b"xyz")?;
    disk.sync()?;
    Ok((disk.size()?, disk.read(place, buf)?))
}

#[test]
fn a_disk_of_the_host_works_on_a_real_file(rt: HostRuntime) -> Result<(), Fail> {
    let folder = temp_dir(&rt)?;
    let path = folder.as_path().join(rt.alloc(), "vault_disk_host_disk")?;
    let name = path.as_path().to_str().ok_or("no text")?;
    let _gone = remove_file(&rt, name);
    let mut disk = HostDisk::new(&rt, name);
    let mut buf = [0; 4];
    assert_eq!(rt; disk.size(), Ok(0));
    assert_eq!(rt; disk.sync(), Ok(()));
    assert_eq!(rt; disk.read(0, &mut buf), Ok(0));
    assert_eq!(rt; write_and_read(&mut disk, 3, &mut buf)?, (5, 2));
    assert_eq!(rt; &buf[..], b"yz\0\0".as_slice());
    remove_file(&rt, name)?;
    Ok(())
}

#[test]
fn a_disk_of_the_host_has_its_file_alone(rt: HostRuntime) -> Result<(), Fail> {
    let folder = temp_dir(&rt)?;
    let path = folder.as_path().join(rt.alloc(), "vault_disk_two_disks")?;
    let name = path.as_path().to_str().ok_or("no text")?;
    let _gone = remove_file(&rt, name);
    let mut late = HostDisk::new(&rt, name);
    let mut second = HostDisk::new(&rt, name);
    let mut buf = [7; 3];
    assert_eq!(rt; late.size(), Ok(0));
    {
        let mut first = HostDisk::new(&rt, name);
        assert_eq!(rt; first.write_at(0, b"abc"), Ok(()));
        assert_eq!(rt; second.size(), Err(DiskFailed));
        assert_eq!(rt; second.read(0, &mut buf), Err(DiskFailed));
        assert_eq!(rt; second.write_at(0, b"xyz"), Err(DiskFailed));
        assert_eq!(rt; second.sync(), Err(DiskFailed));
        assert_eq!(rt; &buf[..], b"\x07\x07\x07".as_slice());
        assert_eq!(rt; first.sync(), Ok(()));
    }
    assert_eq!(rt; late.write_at(0, b"xyz"), Err(DiskFailed));
    assert_eq!(rt; second.read(0, &mut buf), Ok(3));
    assert_eq!(rt; &buf[..], b"abc".as_slice());
    remove_file(&rt, name)?;
    Ok(())
}
