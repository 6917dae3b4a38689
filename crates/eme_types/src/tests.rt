use crate::{
    AppCall, Bytes, Copies, Entry, Fragment, InitData, InitKind, Inits, Items, KeyId, KeyIdFault,
    Parts,
};
use std::alloc::Global;
use std::cmp::Ordering;
use std::test::Fail;

#[test]
fn key_ids_have_1_to_512_bytes(rt: HostRuntime) -> Result<(), Fail> {
    let bytes = [7; 513];
    for (len, ok) in [(0, false), (1, true), (512, true), (513, false)] {
        match KeyId::new(rt.alloc(), &bytes[..len]) {
            Ok(kid) => {
                assert!(rt; ok, "{len} bytes");
                assert_eq!(rt; kid.bytes().len(), len);
            }
            Err(fault) => {
                assert!(rt; !ok, "{len} bytes");
                assert_eq!(rt; fault, KeyIdFault::Length);
            }
        }
    }
    Ok(())
}

#[test]
fn key_ids_are_ordered_octet_by_octet(rt: HostRuntime) -> Result<(), Fail> {
    let one = KeyId::new(rt.alloc(), &[1])?;
    let longer = KeyId::new(rt.alloc(), &[1, 0])?;
    let two = KeyId::new(rt.alloc(), &[2])?;
    assert_eq!(rt; one.cmp(&longer), Ordering::Less);
    assert_eq!(rt; longer.cmp(&two), Ordering::Less);
    assert_eq!(rt; two.cmp(&one), Ordering::Greater);
    assert_eq!(rt; one.cmp(&one.copy()?), Ordering::Equal);
    Ok(())
}

fn feed(alloc: Global) -> Result<Entry, Fail> {
    let mut inits = Inits::new(alloc);
    inits.push(InitData {
        kind: InitKind::Keyids,
        bytes: Bytes::from_slice(alloc, b"{}")?,
    })?;
    Ok(Entry::Feed {
        line: 6,
        fragment: Some(Fragment {
            inits,
            parts: Parts::new(alloc),
        }),
    })
}

#[test]
fn entries_are_copied_whole(rt: HostRuntime) -> Result<(), Fail> {
    let call = Entry::Call {
        lane: 2,
        line: 3,
        call: AppCall::Close {
            label: Bytes::from_slice(rt.alloc(), b"a")?,
        },
    };
    let mut entries = Items::new(rt.alloc());
    entries.push(call)?;
    entries.push(feed(rt.alloc())?)?;
    entries.push(Entry::Evict {
        line: 7,
        label: Bytes::from_slice(rt.alloc(), b"b")?,
    })?;
    let copied = entries.copy()?;
    assert_eq!(rt; copied.len(), 3);
    match copied.as_slice() {
        [
            Entry::Call {
                lane: 2,
                line: 3,
                call: AppCall::Close { label },
            },
            Entry::Feed {
                line: 6,
                fragment: Some(fragment),
            },
            Entry::Evict {
                line: 7,
                label: evicted,
            },
        ] => {
            assert_eq!(rt; label.as_slice(), b"a".as_slice());
            assert_eq!(rt; evicted.as_slice(), b"b".as_slice());
            assert_eq!(rt; fragment.inits.len(), 1);
        }
        _ => assert!(rt; false, "other entries"),
    }
    Ok(())
}
