// Boxes that fit a size of 32 bits.
ghost use Rattle.std.specs.Prelude.{◌≡◌, ◌+◌, ◌^◌, ◌<◌, ◌++◌, length, OnOk};
ghost use Rattle.iso_boxes.specs.Writing.{boxed};

use eme_types::Bytes;
use iso_boxes::{PutFault, put_box};
use std::alloc::{AllocError, Global};

/// Appends a box.
pub(crate) fn append_box(
    alloc: Global,
    out: &mut Bytes,
    kind: [u8; 4],
    body: &[u8],
) -> Result<(), AllocError>
    requires { 8 + length body.now < 2 ^ 32 }
    ensures { OnOk result (out.new ≡ out.old ++ boxed kind body.now) }
{
    match put_box(alloc, out, kind, body) {
        Ok(()) => Ok(()),
        Err(PutFault::OutOfMemory) => Err(AllocError),
        Err(PutFault::TooLong) => unreachable!(),
    }
}
