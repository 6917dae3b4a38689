// The text that tells what is in a media file.
ghost use Rattle.std.specs.Prelude.{◌≡◌, ◌+◌, ◌++◌, IfOk, OnOk, string_bytes, count_by};
ghost use Rattle.std.specs.List.{flat_map, sum_by};
ghost use Rattle.eme_types.specs.Fed.{sample_bytes};
ghost use Rattle.player_core.specs.Inspect.{is_protected as is_protected_of, init_line as init_line_of, part_line as part_line_of, fragment_lines, lines_from, inspect_text};

use eme_types::{Bytes, EncSample, Fragment, InitData, Media, TrackPart};
use output_order::{hex_text, init_name};
use std::alloc::{AllocError, Global};

fn is_protected(sample: &EncSample) -> bool
    ensures { result ≡ is_protected_of sample.now }
{
    sample.protect.is_some()
}

fn count_protected(samples: &[EncSample]) -> usize
    ensures { result ≡ count_by is_protected_of samples.now }
{
    samples.iter().filter(|sample| is_protected(sample)).count()
}

/// The bytes of these samples together.
fn size_of(samples: &[EncSample]) -> u128
    ensures { result ≡ sum_by sample_bytes samples.now }
{
    let mut size: u128 = 0;
    for sample in samples {
        size += sample.bytes.len() as u128;
    }
    size
}

fn init_line(alloc: Global, number: u64, init: &InitData) -> Result<String, AllocError>
    ensures { IfOk result (λ s. string_bytes s ≡ init_line_of number init.now) }
{
    let name = init_name(init.kind);
    let bytes = hex_text(alloc, init.bytes.as_slice())?;
    format!(in alloc; "fragment {number} init {name} {bytes}\n")
}

fn part_line(alloc: Global, number: u64, part: &TrackPart) -> Result<String, AllocError>
    ensures { IfOk result (λ s. string_bytes s ≡ part_line_of number part.now) }
{
    let samples = part.samples.as_slice();
    let track = part.track;
    let count = samples.len();
    let protected = count_protected(samples);
    let size = size_of(samples);
    format!(in alloc;
        "fragment {number} track {track} samples {count} protected {protected} bytes {size}\n"
    )
}

fn put_inits(
    alloc: Global,
    out: &mut Bytes,
    number: u64,
    inits: &[InitData],
) -> Result<(), AllocError>
    ensures { OnOk result (out.new ≡ out.old ++ flat_map (init_line_of number) inits.now) }
{
    for init in inits {
        let line = init_line(alloc, number, init)?;
        out.extend_from_slice(line.as_bytes())?;
    }
    Ok(())
}

fn put_parts(
    alloc: Global,
    out: &mut Bytes,
    number: u64,
    parts: &[TrackPart],
) -> Result<(), AllocError>
    ensures { OnOk result (out.new ≡ out.old ++ flat_map (part_line_of number) parts.now) }
{
    for part in parts {
        let line = part_line(alloc, number, part)?;
        out.extend_from_slice(line.as_bytes())?;
    }
    Ok(())
}

fn put_fragment(
    alloc: Global,
    out: &mut Bytes,
    number: u64,
    fragment: &Fragment,
) -> Result<(), AllocError>
    ensures { OnOk result (out.new ≡ out.old ++ fragment_lines number fragment.now) }
{
    put_inits(alloc, out, number, fragment.inits.as_slice())?;
    put_parts(alloc, out, number, fragment.parts.as_slice())
}

fn put_fragments(alloc: Global, out: &mut Bytes, fragments: &[Fragment]) -> Result<(), AllocError>
    ensures { OnOk result (out.new ≡ out.old ++ lines_from 1 fragments.now) }
{
    for (i, fragment) in fragments.iter().enumerate() {
        put_fragment(alloc, out, i as u64 + 1, fragment)?;
    }
    Ok(())
}

/// The text of `inspect`: a line for each initialization data and each part, fragment by fragment, and then the numbers of
/// fragments and tracks.
#[tactic(auto, unfolding(crate::specs::Inspect::inspect_text))]
pub fn inspect_text(alloc: Global, media: &Media) -> Result<Bytes, AllocError>
    ensures { IfOk result (λ text. text ≡ inspect_text media.now) }
{
    let mut out = Bytes::new(alloc);
    put_fragments(alloc, &mut out, media.fragments.as_slice())?;
    let fragments = media.fragments.len();
    let tracks = media.tracks.len();
    let last = format!(in alloc; "fragments {fragments} tracks {tracks}\n")?;
    out.extend_from_slice(last.as_bytes())?;
    Ok(out)
}
