//! The turn of one pass.
ghost use Rattle.std.specs.Prelude.{◌≡◌, ◌<◌, [], ◌∷◌, None};
ghost use Rattle.book_lock.specs.declared.view.Phase.TheVariants.{Turn};

use crate::book::Book;
use crate::lock::BookLock;
use crate::pass::Pass;
use crate::rule::{Count, Serve};
use crate::view::View;
use atomic_table::Seat;
use std::marker::PhantomData;

// A seat in its turn. Slot 0 is out with it, and empty, since the book lies in the hold.
pub(crate) struct InTurn<'a, B: Book> {
    pub(crate) lock: &'a BookLock<B>,
    pub(crate) seat: Seat<Option<B>, View<B::Entry>>,
    ghost turn: { (seat.table_id ≡ lock.now.table.shared.table_id) × (seat.me.0.phase ≡ Turn) × (seat.me.1 ≡ (0, None) ∷ []) × (0 < seat.me.0.parts) },
}

/// The book, taken out. Only `put` and `put_back` spend a hold, and let the next caller in.
pub struct Hold<'a, B: Book> {
    pub(crate) turn: InTurn<'a, B>,
    pub(crate) book: B,
    // Without it no caller reads what `book` writes back.
    pub(crate) lent: PhantomData<&'a mut B>,
}

impl<'a, B: Book> Hold<'a, B> {
    ghost use Rattle.std.specs.Prelude.{ℕ, ◌++◌, length};
    ghost use Rattle.std.specs.Borrow.{sem};
    ghost use mathlib.Core.Option.{some};
    ghost use Rattle.book_lock.specs.Lending.{lends_book};
    ghost use Rattle.book_lock.specs.Passes.{IsPassOf, seen, own, parts, fixed_of, taken, hold_own, hold_parts, hold_fixed};
    ghost use Rattle.book_lock.specs.Places.{times};

    /// The book.
    pub fn book(&mut self) -> &mut B
        ensures* writes_back { sem 𝓛 (lends_book B.row B.Entry.row B.Book self.entry result) }
        ensures value { result.now ≡ self.old.book }
    {
        &mut self.book
    }

    /// Puts the book back with one entry more, which becomes an own entry of the pass.
    pub fn put(self) -> Pass<B>
        requires entry { (e : B.Entry) × (B.entries self.book ≡ taken self ++ e ∷ [])
            × ((p : ℕ) → B.bound e ≡ some p → 0 < times p (hold_own self)) }
        requires fixed { B.fixed self.book ≡ hold_fixed B.fixed self }
        ensures lock { IsPassOf self.entry.turn.lock.now result }
        ensures seen { seen result ≡ B.entries self.entry.book }
        ensures own { own result ≡ hold_own self.entry ++ length (B.entries self.entry.book) ∷ [] }
        ensures parts { parts result ≡ hold_parts self.entry }
        ensures fixed { fixed_of result ≡ hold_fixed B.fixed self.entry }
    {
        let Hold {
            turn,
            book,
            lent: _,
        } = self;
        let InTurn { lock, mut seat } = turn;
        let was = lock.table.shared.exchange(&mut seat, 0, Some(book));
        let None = was else { unreachable!() };
        lock.table.shared.fetch_add::<Count>(&mut seat, 2, 1);
        lock.table.shared.fetch_add::<Serve>(&mut seat, 1, 1);
        lock.door.leave();
        Pass { seat }
    }

    /// Puts the book back with the list that it had.
    pub fn put_back(self) -> Pass<B>
        requires same { B.entries self.book ≡ taken self }
        requires fixed { B.fixed self.book ≡ hold_fixed B.fixed self }
        ensures lock { IsPassOf self.entry.turn.lock.now result }
        ensures seen { seen result ≡ taken self.entry }
        ensures own { own result ≡ hold_own self.entry }
        ensures parts { parts result ≡ hold_parts self.entry }
        ensures fixed { fixed_of result ≡ hold_fixed B.fixed self.entry }
    {
        let Hold {
            turn,
            book,
            lent: _,
        } = self;
        let InTurn { lock, mut seat } = turn;
        let was = lock.table.shared.exchange(&mut seat, 0, Some(book));
        let None = was else { unreachable!() };
        lock.table.shared.fetch_add::<Serve>(&mut seat, 1, 1);
        lock.door.leave();
        Pass { seat }
    }
}
