//! A caller's token.
ghost use Rattle.std.specs.Prelude.{◌≡◌, ◌<◌, []};
ghost use Rattle.book_lock.specs.declared.view.Phase.TheVariants.{Idle};

use crate::book::Book;
use crate::view::View;
use atomic_table::Seat;

/// What one caller knows of the book of a lock. It has no bytes.
pub struct Pass<B: Book> {
    pub(crate) seat: Seat<Option<B>, View<B::Entry>>,
    ghost idle: { (seat.me.0.phase ≡ Idle) × (seat.me.1 ≡ []) × (0 < seat.me.0.parts) },
}

impl<B: Book> Pass<B> {
    pub(crate) fn into_seat(self) -> Seat<Option<B>, View<B::Entry>>
        ensures { (result.table_id ≡ self.seat.table_id) × (result.id ≡ self.seat.id) × (result.me ≡ self.seat.me) }
    {
        let Self { seat } = self;
        seat
    }
}

/// A pass that is let go takes its parts with it: its lock gives the book out no more.
impl<B: Book> Drop for Pass<B> {
    fn drop(self) {
        let Self { seat } = self;
        drop(seat);
    }
}
