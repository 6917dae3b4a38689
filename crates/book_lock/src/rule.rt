//! The rule of the lock, and what each step tells its caller.
use crate::book::Book;
use crate::view::View;
use atomic_table::{Join, Play, Split, TableRule};
use std::marker::PhantomData;
use std::snapshot::Snapshot;

/// The rule of a lock. Its key is the book as it was given to `new`.
pub struct Law<B> {
    book: PhantomData<B>,
}

impl<B: Book> TableRule<Option<B>, View<B::Entry>, Snapshot<B>> for Law<B> {
    ghost use Rattle.book_lock.specs.Rule.{Rule};
    ghost use Rattle.book_lock.specs.Views.{opened};

    ghost holds = { λ key. Rule B.entries B.fixed B.bound (B.fixed key.value) };

    ghost first = { λ key. opened (B.fixed key.value) };
}

/// Draws a ticket.
pub struct Draw;

impl<B: Book> Play<Option<B>, View<B::Entry>> for Draw {
    ghost use Rattle.book_lock.specs.Steps.{drew};

    ghost then = { drew };
}

/// Reads the serving word, and takes the book out where it is the seat's turn.
pub struct Look;

impl<B: Book> Play<Option<B>, View<B::Entry>> for Look {
    ghost use Rattle.book_lock.specs.Steps.{looked};

    ghost then = { looked B.entries B.fixed B.bound };
}

/// Counts an entry.
pub struct Count;

impl<B: Book> Play<Option<B>, View<B::Entry>> for Count {
    ghost use Rattle.book_lock.specs.Steps.{did_count};

    ghost then = { did_count B.entries };
}

/// Puts the book back and serves the next.
pub struct Serve;

impl<B: Book> Play<Option<B>, View<B::Entry>> for Serve {
    ghost use Rattle.book_lock.specs.Steps.{did_serve};

    ghost then = { did_serve B.fixed };
}

/// Learns what the rule says of the seat's own view.
pub struct Learn;

impl<B: Book> Play<Option<B>, View<B::Entry>> for Learn {
    ghost use Rattle.book_lock.specs.Steps.{learned};

    ghost then = { learned };
}

/// Cuts one part off.
pub struct Cut;

impl<E> Split<View<E>> for Cut {
    ghost use Rattle.book_lock.specs.Views.{left_of, right_of};

    ghost left = { left_of };

    ghost right = { right_of };
}

/// Makes one view of two.
pub struct Glue;

impl<E> Join<View<E>> for Glue {
    ghost use Rattle.book_lock.specs.Views.{both_of, spent_view};

    ghost both = { both_of };

    ghost spent = { spent_view };
}
