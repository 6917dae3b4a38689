// The used one of several boxes.
ghost use Rattle.std.specs.Prelude.{◌+◌, ◌<◌, ◌^◌, length};
ghost use Rattle.iso_boxes.specs.Walk.{found};
ghost use Rattle.sample_aux.specs.Faults.{Gives};
ghost use Rattle.sample_aux.specs.Spans.{boxes_at, first_given};

use crate::fault::AuxFault;
use crate::spans::box_at;
use frag_boxes::Span;
use iso_boxes::BoxRef;
use std::alloc::Global;

/// A reader of boxes, of which some give something.
pub trait BoxReader {
    ghost use Rattle.std.specs.Prelude.{Option, Result};
    ghost use Rattle.iso_boxes.specs.Walk.{Found};
    ghost use Rattle.sample_aux.specs.declared.fault.AuxFault.{AuxFault};

    /// What a box gives.
    type Given: Drop;

    /// What a box gives, if it gives something.
    ghost gives: { Self → Found → Result (Option Self.Given) AuxFault };

    /// Reads a box.
    fn read(&self, alloc: Global, at: &BoxRef<'_>) -> Result<Option<Self::Given>, AuxFault>
        requires { at.now.body_place + length at.now.body.now < 2 ^ 64 }
        ensures { Gives (λ x. x) result (gives self.now (found at.now)) };
}

/// What the first of these boxes gives that gives something. Those behind it are not read.
pub fn first_given<R: BoxReader>(
    alloc: Global,
    file: &[u8],
    spans: &[Span],
    reader: &R,
) -> Result<Option<R::Given>, AuxFault>
    ensures { Gives (λ x. x) result (first_given (R.gives reader.now) (boxes_at file.now spans.now)) }
{
    for span in spans {
        let given = reader.read(alloc, &box_at(file, span))?;
        if given.is_some() {
            return Ok(given);
        }
    }
    Ok(None)
}
