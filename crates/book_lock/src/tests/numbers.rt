//! A small book: lines with a number each, of which one may answer an earlier line.
ghost use Rattle.std.specs.Prelude.{◌≡◌, ◌++◌, ◌∷◌, [], length, IfOk, IfErr};

use crate::book::Book;
use std::alloc::{AllocError, Global};

#[derive(Clone, Copy)]
pub struct Line {
    pub number: u64,
    /// The place of the line that it answers.
    pub answers: Option<usize>,
}

#[derive(Drop)]
pub struct Numbers {
    pub owner: u64,
    pub lines: Vec<Line>,
}

impl Book for Numbers {
    ghost use Rattle.std.specs.Prelude.{[], ◌∷◌, is_some, if◌then◌else◌};
    ghost use Rattle.std.specs.Option.{unwrap_or};
    ghost use mathlib.Core.Option.{none, some};

    type Entry = Line;

    ghost entries = { λ book. book.lines.items };

    ghost fixed = { λ book. book.owner ∷ [] };

    ghost bound = { λ line. if is_some line.answers then some (unwrap_or line.answers 0) else none };
}

impl Numbers {
    pub fn new(alloc: Global, owner: u64) -> Numbers
        ensures { (result.lines.items ≡ []) × (result.owner ≡ owner) }
    {
        Numbers {
            owner,
            lines: Vec::new(alloc),
        }
    }

    /// Adds a line, and answers its place.
    pub fn push(&mut self, line: Line) -> Result<usize, AllocError>
        ensures ok { IfOk result (λ place. (self.new.lines.items ≡ self.old.lines.items ++ line ∷ []) × (place ≡ length self.new.lines.items)) }
        ensures err { IfErr result (λ _. self.new.lines.items ≡ self.old.lines.items) }
        ensures owner { self.new.owner ≡ self.old.owner }
    {
        self.lines.push(line)?;
        Ok(self.lines.len())
    }
}
