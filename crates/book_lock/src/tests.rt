//! Runs of the lock over a small book.
mod calls;
mod numbers;

use crate::book::Book;
use crate::lock::BookLock;
use crate::pass::Pass;
use calls::{answer, count, note, note_and_answer, two_threads};
use numbers::Numbers;
use std::test::Fail;

const NO_MEMORY: &str = "no memory";

fn is_shared<T: Sync>() {}

fn is_moved<T: Send>() {}

// Threads share a lock, and take passes and books with them.
fn threads_may_have<B: Book + Send>() {
    is_shared::<BookLock<B>>();
    is_moved::<BookLock<B>>();
    is_moved::<Pass<B>>();
}

#[test]
fn the_longer_list_stays(rt: HostRuntime) -> Result<(), Fail> {
    for second_first in [true, false] {
        let made = BookLock::new(rt.alloc(), Numbers::new(rt.alloc(), 7));
        let (lock, mut first) = made.ok().ok_or(NO_MEMORY)?;
        let second = lock.split(&mut first);
        let (mut first, second) = if second_first {
            let (second, one) = note(&rt, &lock, second, 1);
            let (first, two) = note(&rt, &lock, first, 2);
            assert!(rt; one.is_ok() && two.is_ok());
            (first, second)
        } else {
            let (first, one) = note(&rt, &lock, first, 1);
            let (second, two) = note(&rt, &lock, second, 2);
            assert!(rt; one.is_ok() && two.is_ok());
            (first, second)
        };
        lock.join(&mut first, second);
        let (first, lines) = count(&rt, &lock, first);
        assert_eq!(rt; lines, 2);
        let (first, three) = note(&rt, &lock, first, 3);
        let book = lock.close(first).ok().ok_or(NO_MEMORY)?;
        assert_eq!(rt; three.ok().ok_or(NO_MEMORY)?, 3);
        assert_eq!(rt; book.owner, 7);
        let numbers = [1u64, 2, 3];
        assert!(rt;
            book.lines.iter().map(|line| line.number).eq(numbers),
            "second first: {second_first}"
        );
    }
    Ok(())
}

#[test]
fn lines_answer_lines_of_their_pass(rt: HostRuntime) -> Result<(), Fail> {
    let made = BookLock::new(rt.alloc(), Numbers::new(rt.alloc(), 7));
    let (lock, mut first) = made.ok().ok_or(NO_MEMORY)?;
    let second = lock.split(&mut first);
    let (mut first, zero) = answer(&rt, &lock, first, 9, 0);
    let (second, place) = note_and_answer(&rt, &lock, second, 1);
    lock.join(&mut first, second);
    let book = lock.close(first).ok().ok_or(NO_MEMORY)?;
    assert_eq!(rt; zero.ok().ok_or(NO_MEMORY)?, 1);
    assert_eq!(rt; place.ok().ok_or(NO_MEMORY)?, 3);
    let answers = [Some(0usize), None, Some(2)];
    assert!(rt; book.lines.iter().map(|line| line.answers).eq(answers));
    Ok(())
}

#[test]
fn two_threads_note_beside_each_other(rt: HostRuntime) -> Result<(), Fail> {
    // The tickets begin near the end of their words, so that they wrap on the way.
    for ticket in [0, u64::MAX - 700] {
        let made = BookLock::new_at(rt.alloc(), Numbers::new(rt.alloc(), 7), ticket);
        let (lock, pass) = made.ok().ok_or(NO_MEMORY)?;
        let (pass, noted) = two_threads(&rt, &lock, pass);
        let book = lock.close(pass).ok().ok_or(NO_MEMORY)?;
        assert!(rt; noted, "from ticket {ticket}");
        assert_eq!(rt; book.lines.len(), 2000);
        // Each thread's numbers stand in its order: the next of each kind is always two more.
        let mut next = [0u64, 1];
        for line in &book.lines {
            let which = if line.number % 2 == 0 { 0 } else { 1 };
            assert_eq!(rt; line.number, next[which]);
            next[which] = next[which].wrapping_add(2);
        }
    }
    threads_may_have::<Numbers>();
    Ok(())
}
