use crate::{ByteRange, SampleFault, check_sample, ranges};
use eme_types::{Bytes, EncSample, Iv, KeyId, Protect, Scheme, Sub, Subs};
use std::alloc::Global;
use std::test::Fail;

const SHORT: Iv = Iv::Eight([1; 8]);

const LONG: Iv = Iv::Sixteen([1; 16]);

fn zeros(alloc: Global, size: usize) -> Result<Bytes, Fail> {
    let mut bytes = Bytes::new(alloc);
    for _ in 0..size {
        bytes.push(0)?;
    }
    Ok(bytes)
}

fn sample(
    alloc: Global,
    scheme: Scheme,
    iv: Iv,
    pattern: (u8, u8),
    subs: &[(u16, u32)],
    size: usize,
) -> Result<EncSample, Fail> {
    let mut list = Subs::new(alloc);
    for (clear, prot) in subs {
        list.push(Sub {
            clear: *clear,
            prot: *prot,
        })?;
    }
    let (crypt, skip) = pattern;
    Ok(EncSample {
        protect: Some(Protect {
            scheme,
            kid: KeyId::new(alloc, &[7])?,
            iv,
            crypt,
            skip,
            subs: list,
        }),
        bytes: zeros(alloc, size)?,
    })
}

fn clear_sample(alloc: Global, size: usize) -> Result<EncSample, Fail> {
    Ok(EncSample {
        protect: None,
        bytes: zeros(alloc, size)?,
    })
}

#[test]
fn the_first_fault_is_told(rt: HostRuntime) -> Result<(), Fail> {
    let sum = Err(SampleFault::Sum);
    let iv_size = Err(SampleFault::IvSize);
    let pattern = Err(SampleFault::Pattern);
    for (scheme, iv, blocks, subs, size, found) in [
        (Scheme::Cbcs, SHORT, (1, 9), &[][..], 16, iv_size),
        (Scheme::Cbcs, LONG, (0, 1), &[], 16, pattern),
        (Scheme::Cbcs, LONG, (1, 9), &[(1, 1)], 3, sum),
        (Scheme::Cbcs, SHORT, (0, 1), &[(1, 1)], 3, sum),
        (Scheme::Cbcs, SHORT, (0, 1), &[(1, 2)], 3, iv_size),
        (Scheme::Cbcs, LONG, (0, 0), &[(1, 2)], 3, Ok(())),
        (Scheme::Cenc, SHORT, (0, 1), &[(1, 2)], 3, Ok(())),
        (Scheme::Cenc, SHORT, (0, 0), &[(65535, 4294967295)], 3, sum),
        (Scheme::Cenc, LONG, (0, 0), &[(0, 0)], 3, sum),
        (Scheme::Cenc, LONG, (0, 0), &[(0, 0)], 0, Ok(())),
    ] {
        let made = sample(rt.alloc(), scheme, iv, blocks, subs, size)?;
        assert_eq!(rt; check_sample(&made), found);
    }
    assert_eq!(rt; check_sample(&clear_sample(rt.alloc(), 3)?), Ok(()));
    Ok(())
}

#[test]
fn ranges_of_samples(rt: HostRuntime) -> Result<(), Fail> {
    // scheme, pattern, subsamples, size, ranges
    for (scheme, blocks, subs, size, found) in [
        (
            Scheme::Cbcs,
            (2, 1),
            &[(4, 80)][..],
            84,
            &[(4, 36, true), (52, 84, false)][..],
        ),
        (Scheme::Cbcs, (1, 9), &[(3, 15)], 18, &[]),
        (
            Scheme::Cbcs,
            (1, 9),
            &[(0, 183)],
            183,
            &[(0, 16, true), (160, 176, false)],
        ),
        (
            Scheme::Cbcs,
            (5, 5),
            &[(5, 200), (0, 90)],
            295,
            &[(5, 85, true), (165, 197, false), (205, 285, true)],
        ),
        (
            Scheme::Cbcs,
            (1, 0),
            &[(2, 50), (7, 16)],
            75,
            &[(2, 50, true), (59, 75, true)],
        ),
        (Scheme::Cbcs, (0, 0), &[], 40, &[(0, 32, true)]),
        (
            Scheme::Cbcs,
            (1, 1),
            &[(9, 0), (1, 15), (0, 64)],
            89,
            &[(25, 41, true), (57, 73, false)],
        ),
        (Scheme::Cbcs, (1, 9), &[], 0, &[]),
        (
            Scheme::Cenc,
            (1, 9),
            &[(3, 10), (0, 22)],
            35,
            &[(3, 13, false), (13, 35, false)],
        ),
        (
            Scheme::Cenc,
            (0, 0),
            &[(4, 0), (1, 16)],
            21,
            &[(5, 21, false)],
        ),
        (Scheme::Cenc, (0, 0), &[], 17, &[(0, 17, false)]),
        (Scheme::Cenc, (0, 0), &[], 0, &[]),
    ] {
        let made = sample(rt.alloc(), scheme, LONG, blocks, subs, size)?;
        if check_sample(&made).is_ok() {
            let mut walk = ranges(&made);
            for (from, to, fresh) in found {
                let range = ByteRange {
                    from: *from,
                    to: *to,
                    fresh: *fresh,
                };
                assert_eq!(rt; walk.next(), Some(range));
            }
            assert_eq!(rt; walk.next(), None);
        } else {
            assert!(rt; false, "a sample of {size} bytes is refused");
        }
    }
    Ok(())
}

#[test]
fn a_clear_sample_has_no_range(rt: HostRuntime) -> Result<(), Fail> {
    let made = clear_sample(rt.alloc(), 40)?;
    assert!(rt; check_sample(&made).is_ok() && ranges(&made).next().is_none());
    Ok(())
}
