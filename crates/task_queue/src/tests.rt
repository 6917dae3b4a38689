// Queues, logs and promises by example.
use crate::{Log, Promises, Queue};
use eme_types::{DomError, Settled};
use std::test::Fail;

#[test]
fn a_queue_gives_out_in_order(rt: HostRuntime) -> Result<(), Fail> {
    let mut queue = Queue::new(rt.alloc());
    assert!(rt; queue.is_empty());
    queue.reserve(5)?;
    queue.put(6);
    queue.drop_front();
    queue.put(7);
    queue.put_all(vec![in rt.alloc(); 8, 9]?);
    for want in [Some(7), Some(8), Some(9), None] {
        assert_eq!(rt; queue.front().copied(), want);
        assert_eq!(rt; queue.is_empty(), want.is_none());
        assert_eq!(rt; queue.pop(), want);
    }
    Ok(())
}

#[test]
fn a_log_grows_at_its_end(rt: HostRuntime) -> Result<(), Fail> {
    let mut log = Log::new(rt.alloc());
    log.reserve(3)?;
    assert!(rt; log.spare() >= 3);
    assert_eq!(rt; log.next_place(), 1);
    log.put(7);
    log.put_all(vec![in rt.alloc(); 8, 9]?);
    assert_eq!(rt; log.as_slice(), [7, 8, 9].as_slice());
    assert_eq!(rt; log.next_place(), 4);
    Ok(())
}

#[test]
fn promises_count_from_1_and_are_settled(rt: HostRuntime) -> Result<(), Fail> {
    let mut promises = Promises::new(rt.alloc());
    let first = promises.make()?;
    let second = promises.make()?;
    promises.settle_once(second, Settled::Resolved);
    promises.settle_once(first, Settled::Rejected(DomError::Quota));
    assert_eq!(rt; (first, second, promises.next()), (1, 2, 3));
    Ok(())
}
