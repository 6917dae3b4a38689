//! The lock.
ghost use Rattle.std.specs.Prelude.{◌≡◌, [], ◌∷◌, Some};

use crate::book::Book;
use crate::door::Door;
use crate::hold::{Hold, InTurn};
use crate::pass::Pass;
use crate::rule::{Cut, Draw, Glue, Law, Learn, Look};
use crate::view::View;
use atomic_table::Table;
use std::alloc::{AllocError, Global};
use std::marker::PhantomData;
use std::snapshot::Snapshot;
use std::sync::Wait;
use std::thread;

/// A lock by tickets over a table of three words and one slot: the next ticket, the ticket that is served, the number of entries, and the book.
#[derive(Drop)]
pub struct BookLock<B: Book> {
    pub(crate) table: Table<Option<B>, View<B::Entry>, Snapshot<B>, Law<B>, Global>,
    pub(crate) door: Door,
    ghost sized: { (table.shared.table_id.words ≡ 3) × (table.shared.table_id.slots ≡ 1) },
}

/// There was no memory for a lock. The book comes back.
#[derive(Drop)]
pub struct NewBack<B> {
    pub book: B,
    pub error: AllocError,
}

/// There was no memory to close a lock. The lock and the pass come back.
#[derive(Drop)]
pub struct CloseBack<B: Book> {
    pub lock: BookLock<B>,
    pub pass: Pass<B>,
    pub error: AllocError,
}

// The book in a list of one slot.
fn only<B>(mut slots: Vec<Option<B>>) -> B
    requires { (b : B) × (slots.items ≡ Some b ∷ []) }
    ensures { slots.items ≡ Some result ∷ [] }
{
    let Some(Some(book)) = slots.pop() else {
        unreachable!()
    };
    slots.destroy_empty();
    book
}

impl<B: Book> BookLock<B> {
    ghost use Rattle.std.specs.Prelude.{ℕ, ◌+◌, ◌^◌, ◌<◌, ◌≤◌, ◌++◌, length, IsOk, IfOk, IfErr};
    ghost use mathlib.Core.List.{IsPrefix};
    ghost use Rattle.book_lock.specs.Passes.{IsNew, IsPassOf, IsHoldOf, parts, seen, own, fixed_of, taken, hold_own, hold_parts, hold_fixed};
    ghost use Rattle.book_lock.specs.Places.{times, once_to, Closed, Below};
    ghost use Rattle.book_lock.specs.Views.{longer};

    /// A lock round the book, and the pass that has all 2^32 parts.
    pub fn new(alloc: Global, book: B) -> Result<(BookLock<B>, Pass<B>), NewBack<B>>
        requires { B.entries book ≡ [] }
        ensures ok { IfOk result (λ r. IsNew book r.0 r.1) }
        ensures err { IfErr result (λ e. e.book ≡ book) }
    {
        BookLock::new_at(alloc, book, 0)
    }

    // The same with this first ticket. The ticket words wrap at 2^64, so that any will do.
    pub(crate) fn new_at(
        alloc: Global,
        book: B,
        ticket: u64,
    ) -> Result<(BookLock<B>, Pass<B>), NewBack<B>>
        requires { B.entries book ≡ [] }
        ensures ok { IfOk result (λ r. IsNew book r.0 r.1) }
        ensures err { IfErr result (λ e. e.book ≡ book) }
    {
        let about = Snapshot::of(&book);
        let Ok(mut slots) = Vec::with_capacity(alloc, 1) else {
            return Err(NewBack {
                book,
                error: AllocError,
            });
        };
        slots.push_reserved(Some(book));
        match Table::new(alloc, &[ticket, ticket, 0], slots, &about) {
            Ok((table, seat)) => {
                let door = Door::new();
                Ok((BookLock { table, door }, Pass { seat }))
            }
            Err(refused) => Err(NewBack {
                book: only(refused.slots),
                error: AllocError,
            }),
        }
    }

    /// A pass that has seen the same, owns nothing and has one part, which the old one loses.
    pub fn split(&self, pass: &mut Pass<B>) -> Pass<B>
        requires lock { IsPassOf self.now pass.old }
        requires parts { 1 < parts pass.old }
        ensures lock { IsPassOf self.now pass.new × IsPassOf self.now result }
        ensures kept { (seen pass.new ≡ seen pass.old) × (own pass.new ≡ own pass.old)
            × (fixed_of pass.new ≡ fixed_of pass.old) × (parts pass.new + 1 ≡ parts pass.old) }
        ensures given { (seen result ≡ seen pass.old) × (own result ≡ [])
            × (fixed_of result ≡ fixed_of pass.old) × (parts result ≡ 1) }
    {
        let seat = self.table.shared.split_seat::<Cut>(&mut pass.seat);
        Pass { seat }
    }

    /// The pass has the longer of both lists, which the other begins, and the places and parts of both.
    pub fn join(&self, pass: &mut Pass<B>, other: Pass<B>)
        requires lock { IsPassOf self.now pass.old × IsPassOf self.now other }
        ensures lock { IsPassOf self.now pass.new }
        ensures seen { seen pass.new ≡ longer (seen pass.old) (seen other) }
        ensures later { IsPrefix (seen pass.old) (seen pass.new) × IsPrefix (seen other) (seen pass.new) }
        ensures own { own pass.new ≡ own pass.old ++ own other }
        ensures once { (p : ℕ) → times p (own pass.new) ≤ 1 }
        ensures parts { parts pass.new ≡ parts pass.old + parts other }
        ensures fixed { fixed_of pass.new ≡ fixed_of pass.old }
    {
        let seat = other.into_seat();
        self.table.shared.join_seat::<Glue>(&mut pass.seat, seat);
        // A join tells nothing of the rule, so a load does.
        self.table.shared.load::<Learn>(&mut pass.seat, 0);
    }

    /// Waits for the pass's turn, and takes the book out.
    pub fn take<R: Wait>(&self, rt: &R, pass: Pass<B>) -> Hold<'_, B>
        requires { IsPassOf self.now pass }
        ensures lock { IsHoldOf self.now result }
        ensures book { B.entries result.book ≡ taken result }
        ensures later { IsPrefix (seen pass) (taken result) }
        ensures own { hold_own result ≡ own pass }
        // Each entry that is bound to a place of the pass is an own entry of the pass.
        ensures closed { Closed B.bound (own pass) (taken result) }
        ensures once { (p : ℕ) → times p (own pass) ≤ 1 }
        ensures below { (p : ℕ) → 0 < times p (own pass) → p ≤ length (seen pass) }
        ensures earlier { Below B.bound (taken result) }
        ensures parts { hold_parts result ≡ parts pass }
        ensures fixed { B.fixed result.book ≡ fixed_of pass }
        ensures still_fixed { hold_fixed B.fixed result ≡ fixed_of pass }
    {
        self.door.enter(rt);
        let mut seat = pass.into_seat();
        let ticket = self.table.shared.fetch_add::<Draw>(&mut seat, 0, 1);
        for _ in rt.forever() {
            let serving = self.table.shared.load::<Look>(&mut seat, 1);
            if serving == ticket {
                let slot = self.table.shared.exchange(&mut seat, 0, None);
                let Some(book) = slot else { unreachable!() };
                return Hold {
                    turn: InTurn { lock: self, seat },
                    book,
                    lent: PhantomData,
                };
            }
            thread::yield_now();
        }
        unreachable!()
    }

    /// Gives the book out. The pass has all parts, so every other pass was joined into it.
    pub fn close(self, pass: Pass<B>) -> Result<B, CloseBack<B>>
        requires lock { IsPassOf self pass }
        requires parts { parts pass ≡ 2 ^ 32 }
        // A close asks for no memory.
        ensures always { IsOk result }
        ensures list { IfOk result (λ b. B.entries b ≡ seen pass) }
        // Each place from 0 to the end of the list is owned once.
        ensures own { IfOk result (λ _. (p : ℕ) → times p (own pass) ≡ once_to p (length (seen pass))) }
        ensures fixed { IfOk result (λ b. B.fixed b ≡ fixed_of pass) }
        ensures back { IfErr result (λ e. (e.lock ≡ self) × (e.pass ≡ pass)) }
    {
        let BookLock { table, door: _ } = self;
        let seat = pass.into_seat();
        let mut closed = table.close_with(seat);
        let slot = closed.take(0);
        closed.free();
        let Some(book) = slot else { unreachable!() };
        Ok(book)
    }
}
