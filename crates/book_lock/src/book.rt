//! What lies under the lock.
ghost use Rattle.std.specs.Prelude.{ℕ, List};
ghost use mathlib.Core.Option.{Option};

/// A value with a list of entries that only grows.
pub trait Book {
    type Entry;

    /// The list.
    ghost entries: { Self → List Self.Entry };

    /// The fixed part: plain data that no entry changes.
    ghost fixed: { Self → List ℕ };

    /// The place that an entry is bound to, if it is bound to one.
    ghost bound: { Self.Entry → Option ℕ };
}
