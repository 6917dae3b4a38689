use crate::{HostShelf, Shelf, ShelfFault};
use std::env::temp_dir;
use std::fs::remove_file;
use std::test::Fail;

// Starts a file, adds the piece twice, and reads from a place.
fn write_and_read<S: Shelf>(
    shelf: &mut S,
    name: &str,
    piece: &[u8],
    place: u64,
    buf: &mut [u8],
) -> Result<usize, ShelfFault> {
    shelf.start(name)?;
    shelf.append(name, piece)?;
    shelf.append(name, piece)?;
    shelf.say(b"said\n")?;
    shelf.read(name, place, buf)
}

#[test]
fn a_shelf_of_the_host_works_on_real_files(rt: HostRuntime) -> Result<(), Fail> {
    let folder = temp_dir(&rt)?;
    let path = folder.as_path().join(rt.alloc(), "eme_edge_host_shelf")?;
    let name = path.as_path().to_str().ok_or("no text")?;
    let mut shelf = HostShelf::new(&rt);
    let mut few = [0; 4];
    assert_eq!(rt;
        write_and_read(&mut shelf, name, b"abc", 2, &mut few),
        Ok(4)
    );
    assert_eq!(rt; &few[..], b"cabc".as_slice());
    let mut piece = vec![in rt.alloc(); b'-'; 1_048_577]?;
    piece[1_048_576] = b'z';
    let mut all = vec![in rt.alloc(); 0; 2_097_152]?;
    assert_eq!(rt;
        write_and_read(&mut shelf, name, &piece, 3, &mut all),
        Ok(2_097_151)
    );
    assert_eq!(rt; &all[1_048_572..1_048_575], b"-z-".as_slice());
    assert_eq!(rt; &all[2_097_149..], b"-z\0".as_slice());
    remove_file(&rt, name)?;
    assert_eq!(rt; shelf.read(name, 0, &mut few), Err(ShelfFault::Failed));
    Ok(())
}
