// A media file.
ghost use Rattle.std.specs.Prelude.{◌≡◌, false, IfOk};
ghost use Rattle.eme_types.specs.Fed.{IsFed};
ghost use Rattle.track_media.specs.File.{GivesMedia, media_of};
ghost use Rattle.track_media.specs.Held.{is_list, HoldsNoMore};

use crate::kind::MediaFault;
use crate::reader::MediaReader;
use eme_types::{Fragments, Media};
use std::alloc::Global;

/// Reads fragment by fragment to the end.
fn read_to_the_end(alloc: Global, bytes: &[u8]) -> Result<Media, MediaFault>
    ensures value { GivesMedia result (media_of bytes.now) }
    ensures fed { IfOk result (λ m. IsFed m) }
{
    let mut fragments = Fragments::new(alloc);
    let mut reader = MediaReader::open(alloc, bytes)?;
    while let Some(fragment) = reader.next_fragment()? {
        fragments.push(fragment)?;
    }
    Ok(Media {
        tracks: reader.into_tracks(),
        fragments,
    })
}

/// Reads a media file: a sample list, or fragmented MP4. A refusal has the place of the first byte of what breaks a rule:
/// the line, or the box.
pub fn parse_media(alloc: Global, bytes: &[u8]) -> Result<Media, MediaFault>
    ensures value { GivesMedia result (media_of bytes.now) }
    ensures fed { IfOk result (λ m. IsFed m) }

    // of MP4 no more is held than the file has
    ensures held { IfOk result (λ m. is_list bytes.now ≡ false → HoldsNoMore bytes.now m) }
{
    read_to_the_end(alloc, bytes)
}
