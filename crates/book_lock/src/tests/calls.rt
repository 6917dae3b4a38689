//! Calls with passes over the small book, and two threads that make them.
ghost use Rattle.std.specs.Prelude.{◌≡◌, ◌<◌, ◌++◌, ◌∷◌, [], List, ℕ, length, IfOk, IfErr};
ghost use mathlib.Core.List.{IsPrefix};
ghost use Rattle.book_lock.specs.Passes.{IsPassOf, parts, seen, own};
ghost use Rattle.book_lock.specs.Places.{times};

use crate::lock::BookLock;
use crate::pass::Pass;
use crate::tests::numbers::{Line, Numbers};
use std::alloc::AllocError;
use std::snapshot::Snapshot;
use std::sync::Wait;
use std::thread;
use std::thread::{Promise, Threads};

/// Adds a line that answers nothing, and gives its place, which the pass then owns.
#[tactic(auto, using(crate::proofs::Counts::times_last))]
pub fn note<R: Wait>(
    rt: &R,
    lock: &BookLock<Numbers>,
    pass: Pass<Numbers>,
    number: u64,
) -> (Pass<Numbers>, Result<usize, AllocError>)
    requires { IsPassOf lock.now pass }
    ensures lock { IsPassOf lock.now result.0 × (parts result.0 ≡ parts pass) }
    ensures later { IsPrefix (seen pass) (seen result.0) }
    ensures ok { IfOk result.1 (λ place. (place ≡ length (seen result.0)) × (own result.0 ≡ own pass ++ place ∷ []) × (0 < times place (own result.0))) }
    ensures err { IfErr result.1 (λ _. own result.0 ≡ own pass) }
{
    let mut hold = lock.take(rt, pass);
    let line = Line {
        number,
        answers: None,
    };
    match hold.book().push(line) {
        Ok(place) => (hold.put(), Ok(place)),
        Err(error) => (hold.put_back(), Err(error)),
    }
}

/// Adds a line that answers one at a place of the pass.
pub fn answer<R: Wait>(
    rt: &R,
    lock: &BookLock<Numbers>,
    pass: Pass<Numbers>,
    number: u64,
    place: usize,
) -> (Pass<Numbers>, Result<usize, AllocError>)
    requires lock { IsPassOf lock.now pass }
    requires place { 0 < times place (own pass) }
    ensures lock { IsPassOf lock.now result.0 × (parts result.0 ≡ parts pass) }
{
    let mut hold = lock.take(rt, pass);
    let line = Line {
        number,
        answers: Some(place),
    };
    match hold.book().push(line) {
        Ok(place) => (hold.put(), Ok(place)),
        Err(error) => (hold.put_back(), Err(error)),
    }
}

/// Notes the number, and answers that line with the next number.
pub fn note_and_answer<R: Wait>(
    rt: &R,
    lock: &BookLock<Numbers>,
    pass: Pass<Numbers>,
    number: u32,
) -> (Pass<Numbers>, Result<usize, AllocError>)
    requires { IsPassOf lock.now pass }
    ensures { IsPassOf lock.now result.0 × (parts result.0 ≡ parts pass) }
{
    let number = u64::from(number);
    let (pass, noted) = note(rt, lock, pass, number);
    match noted {
        Ok(place) => answer(rt, lock, pass, number + 1, place),
        Err(error) => (pass, Err(error)),
    }
}

/// How many lines there are, under the lock.
pub fn count<R: Wait>(
    rt: &R,
    lock: &BookLock<Numbers>,
    pass: Pass<Numbers>,
) -> (Pass<Numbers>, usize)
    requires { IsPassOf lock.now pass }
    ensures lock { IsPassOf lock.now result.0 × (parts result.0 ≡ parts pass) }
    ensures count { result.1 ≡ length (seen result.0) }
{
    let mut hold = lock.take(rt, pass);
    let lines = hold.book().lines.len();
    (hold.put_back(), lines)
}

/// Notes a thousand numbers, every second one from the first on, and answers whether all were noted.
fn thousand<R: Wait>(
    rt: &R,
    lock: &BookLock<Numbers>,
    mut pass: Pass<Numbers>,
    first: u64,
) -> (Pass<Numbers>, bool)
    requires lock { IsPassOf lock.now pass }
    requires small { first < 2 }
    ensures lock { IsPassOf lock.now result.0 × (parts result.0 ≡ parts pass) }
{
    for i in 0..1000u64 {
        let (next, done) = note(rt, lock, pass, first + 2 * i);
        pass = next;
        if done.is_err() {
            return (pass, false);
        }
    }
    (pass, true)
}

/// What a thread gives back: a pass of the same lock with as many parts.
#[derive(Drop)]
struct PassBack<'a> {
    lock: &'a BookLock<Numbers>,
    was: Snapshot<Pass<Numbers>>,
}

impl<'a> Promise<(Pass<Numbers>, bool)> for PassBack<'a> {
    ghost kept_by = { λ p r. IsPassOf p.lock.now r.0 × (parts r.0 ≡ parts p.was.value) };
}

/// Two threads note a thousand numbers each, the even and the odd ones. Where no thread can be started, one notes both.
pub fn two_threads<R: Threads + Wait + Sync>(
    rt: &R,
    lock: &BookLock<Numbers>,
    mut pass: Pass<Numbers>,
) -> (Pass<Numbers>, bool)
    requires { IsPassOf lock.now pass × (1 < parts pass) }
    ensures { IsPassOf lock.now result.0 × (parts result.0 ≡ parts pass) }
{
    let given = lock.split(&mut pass);
    let was = Snapshot::of(&given);
    let (mut mine, even, back, odd) = thread::scope(
        thread::scope_env(),
        rt,
        move |scope| -> (Pass<Numbers>, bool, Pass<Numbers>, bool)
            requires { IsPassOf lock.now pass × IsPassOf lock.now given × (was.value ≡ given) }
            ensures { IsPassOf lock.entry.now result.0 × (parts result.0 ≡ parts pass) × IsPassOf lock.entry.now result.2 × (parts result.2 ≡ parts given) }
        {
            let other = move || -> (Pass<Numbers>, bool)
                requires { IsPassOf lock.now given }
                ensures { IsPassOf lock.entry.now result.0 × (parts result.0 ≡ parts given) }
            { thousand(rt, lock, given, 1) };
            match scope.spawn_with(PassBack { lock, was }, other) {
                Ok(child) => {
                    let (mine, even) = thousand(rt, lock, pass, 0);
                    let (back, odd) = child.join(rt);
                    (mine, even, back, odd)
                }
                Err(refused) => {
                    let (mine, even) = thousand(rt, lock, pass, 0);
                    let (back, odd) = (refused.value)();
                    (mine, even, back, odd)
                }
            }
        },
    );
    lock.join(&mut mine, back);
    (mine, even && odd)
}
