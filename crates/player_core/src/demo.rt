// The demonstration file.
ghost use Rattle.std.specs.Prelude.{◌≡◌, ◌<◌, ◌≤◌, ◌+◌, ◌*◌, ◌/◌, ◌++◌, IfOk, OnOk, length, string_bytes, take};
ghost use Rattle.player_core.specs.Demo.{words_of, next_bytes, joined, kid_at, key_at, sample_head as sample_head_of, pattern as pattern_of, sample_words, sample_line, behind_sample, samples_text, behind_samples, fragment_text, behind_fragment, media_text as media_text_of, times, fragment_at, comma as comma_of, kid_text, key_text, script_text as script_text_of, demo_script, demo_media};

use base64::engine::general_purpose::URL_SAFE_NO_PAD;
use eme_types::{Bytes, Scheme};
use rand_core::{Rng, SeedableRng};
use rand_xoshiro::Xoshiro256PlusPlus;
use std::alloc::{AllocError, Global};

/// A script and a media file, as texts.
#[derive(Drop)]
pub struct DemoInput {
    pub script: Bytes,
    pub media: Bytes,
}

/// The bytes of the next words, each big-endian.
fn next_words(
    alloc: Global,
    rng: &mut Xoshiro256PlusPlus,
    count: usize,
) -> Result<Bytes, AllocError>
    ensures bytes { IfOk result (λ bytes. (bytes, words_of rng.new) ≡ next_bytes count (words_of rng.old)) }
    ensures many { IfOk result (λ bytes. length bytes ≡ 8 * count) }
{
    let mut bytes = Bytes::new(alloc);
    for k in 0..count {
        let word = rng.next_u64().to_be_bytes();
        bytes.extend_from_slice(&word)?;
    }
    Ok(bytes)
}

fn kid_of(keys: &[u8], i: usize) -> &[u8]
    requires few { i < 4 }
    requires long { length keys.now ≡ 128 }
    ensures { result.now ≡ kid_at keys.now i }
{
    &keys[32 * i..32 * i + 16]
}

fn key_of(keys: &[u8], i: usize) -> &[u8]
    requires few { i < 4 }
    requires long { length keys.now ≡ 128 }
    ensures { result.now ≡ key_at keys.now i }
{
    &keys[32 * i + 16..32 * i + 32]
}

fn sample_head(scheme: Scheme) -> &'static str
    ensures { result.now ≡ sample_head_of scheme }
{
    match scheme {
        Scheme::Cenc => "sample 1 cenc ",
        Scheme::Cbcs => "sample 2 cbcs ",
    }
}

fn pattern(scheme: Scheme) -> &'static str
    ensures { result.now ≡ pattern_of scheme }
{
    match scheme {
        Scheme::Cenc => "",
        Scheme::Cbcs => "1:9 ",
    }
}

/// The line of a sample of this size, of which so many bytes are clear.
fn sample_text(
    alloc: Global,
    scheme: Scheme,
    kid: &[u8],
    size: usize,
    clear: usize,
    iv: &[u8],
    bytes: &[u8],
) -> Result<String, AllocError>
    requires { clear ≤ size }
    ensures { IfOk result (λ s. string_bytes s ≡ sample_words scheme kid.now size clear iv.now bytes.now) }
{
    let head = sample_head(scheme);
    let pattern = pattern(scheme);
    let kid = hex::encode(alloc, kid)?;
    let iv = hex::encode(alloc, iv)?;
    let bytes = hex::encode(alloc, bytes)?;
    let protected = size - clear;
    format!(in alloc; "{head}{kid} {iv} {pattern}{clear}+{protected} {bytes}\n")
}

/// The first bytes.
fn front(bytes: &[u8], size: usize) -> &[u8]
    requires { size ≤ length bytes.now }
    ensures { result.now ≡ take size bytes.now }
{
    &bytes[..size]
}

/// Adds the line of the next sample.
fn put_sample(
    alloc: Global,
    out: &mut Bytes,
    rng: &mut Xoshiro256PlusPlus,
    scheme: Scheme,
    kid: &[u8],
) -> Result<(), AllocError>
    ensures out { OnOk result (out.new ≡ out.old ++ sample_line scheme kid.now (words_of rng.old)) }
    ensures words { OnOk result (words_of rng.new ≡ behind_sample (words_of rng.old)) }
{
    let word = rng.next_u64();
    let size = 16 + (word % 1009) as usize;
    let clear = ((word / 1009) % 17) as usize;
    let iv = next_words(alloc, rng, 2)?;
    let bytes = next_words(alloc, rng, (size + 7) / 8)?;
    let line = sample_text(
        alloc,
        scheme,
        kid,
        size,
        clear,
        iv.as_slice(),
        front(bytes.as_slice(), size),
    )?;
    out.extend_from_slice(line.as_bytes())?;
    Ok(())
}

/// Adds the lines of the next 32 samples.
fn put_samples(
    alloc: Global,
    out: &mut Bytes,
    rng: &mut Xoshiro256PlusPlus,
    scheme: Scheme,
    kid: &[u8],
) -> Result<(), AllocError>
    ensures out { OnOk result (out.new ≡ out.old ++ samples_text scheme kid.now (words_of rng.old)) }
    ensures words { OnOk result (words_of rng.new ≡ behind_samples (words_of rng.old)) }
{
    for i in 0..32_usize {
        put_sample(alloc, out, rng, scheme, kid)?;
    }
    Ok(())
}

/// Adds the next fragment.
fn put_fragment(
    alloc: Global,
    out: &mut Bytes,
    rng: &mut Xoshiro256PlusPlus,
    kid: &[u8],
) -> Result<(), AllocError>
    ensures out { OnOk result (out.new ≡ out.old ++ fragment_text kid.now (words_of rng.old)) }
    ensures words { OnOk result (words_of rng.new ≡ behind_fragment (words_of rng.old)) }
{
    out.extend_from_slice(b"fragment\n")?;
    put_samples(alloc, out, rng, Scheme::Cenc, kid)?;
    put_samples(alloc, out, rng, Scheme::Cbcs, kid)?;
    Ok(())
}

/// The sample list with these keys.
fn media_text(alloc: Global, rng: &mut Xoshiro256PlusPlus, keys: &[u8]) -> Result<Bytes, AllocError>
    requires { length keys.now ≡ 128 }
    ensures { IfOk result (λ text. text ≡ media_text_of keys.now (words_of rng.old)) }
{
    let mut out = Bytes::from_slice(alloc, b"SMPL 1\ntrack 1\ntrack 2\n")?;
    for f in 0..256 {
        put_fragment(alloc, &mut out, rng, kid_of(keys, f % 4))?;
    }
    Ok(out)
}

fn comma(i: usize) -> &'static str
    ensures { result.now ≡ comma_of i }
{
    if i == 0 { "" } else { "," }
}

/// A key id of the request.
fn kid_item(alloc: Global, keys: &[u8], i: usize) -> Result<String, AllocError>
    requires few { i < 4 }
    requires long { length keys.now ≡ 128 }
    ensures { IfOk result (λ s. string_bytes s ≡ kid_text keys.now i) }
{
    let comma = comma(i);
    let kid = URL_SAFE_NO_PAD.encode(alloc, kid_of(keys, i))?;
    format!(in alloc; "{comma}\"{kid}\"")
}

/// A key of a key set.
fn key_item(alloc: Global, keys: &[u8], i: usize) -> Result<String, AllocError>
    requires few { i < 4 }
    requires long { length keys.now ≡ 128 }
    ensures { IfOk result (λ s. string_bytes s ≡ key_text keys.now i) }
{
    let comma = comma(i);
    let kid = URL_SAFE_NO_PAD.encode(alloc, kid_of(keys, i))?;
    let key = URL_SAFE_NO_PAD.encode(alloc, key_of(keys, i))?;
    format!(in alloc; "{comma}{{\"kty\":\"oct\",\"kid\":\"{kid}\",\"k\":\"{key}\"}}")
}

/// Adds the list of the four key ids.
fn put_kids(alloc: Global, out: &mut Bytes, keys: &[u8]) -> Result<(), AllocError>
    requires { length keys.now ≡ 128 }
    ensures { OnOk result (out.new ≡ out.old ++ joined (kid_text keys.now) 4) }
{
    for i in 0..4 {
        let text = kid_item(alloc, keys, i)?;
        out.extend_from_slice(text.as_bytes())?;
    }
    Ok(())
}

/// Adds the list of the first keys.
fn put_keys(alloc: Global, out: &mut Bytes, keys: &[u8], count: usize) -> Result<(), AllocError>
    requires few { count ≤ 4 }
    requires long { length keys.now ≡ 128 }
    ensures { OnOk result (out.new ≡ out.old ++ joined (key_text keys.now) count) }
{
    for i in 0..count {
        let text = key_item(alloc, keys, i)?;
        out.extend_from_slice(text.as_bytes())?;
    }
    Ok(())
}

/// The script with these keys.
fn script_text(alloc: Global, keys: &[u8]) -> Result<Bytes, AllocError>
    requires { length keys.now ≡ 128 }
    ensures { IfOk result (λ text. text ≡ script_text_of keys.now) }
{
    let mut out = Bytes::from_slice(
        alloc,
        b"EMES 1\n0 create d temporary\n0 request d keyids text:{\"kids\":[",
    )?;
    put_kids(alloc, &mut out, keys)?;
    out.extend_from_slice(b"]}\n0 settle\n0 update d text:{\"keys\":[")?;
    put_keys(alloc, &mut out, keys, 2)?;
    out.extend_from_slice(
        b"],\"type\":\"temporary\"}\n0 settle\n0 feed\n0 feed\n0 feed\n0 settle\n0 update d text:{\"keys\":[",
    )?;
    put_keys(alloc, &mut out, keys, 4)?;
    out.extend_from_slice(b"],\"type\":\"temporary\"}\n")?;
    Ok(out)
}

/// The demonstration of a number: a script, and a media file of about 18.5 MB, a sample list. Its words are those of xoshiro256++, seeded
/// by SplitMix64 from the number; each is used once, in order.
pub fn demo_input(alloc: Global, n: u64) -> Result<DemoInput, AllocError>
    ensures { IfOk result (λ d. (d.script ≡ demo_script n) × (d.media ≡ demo_media n)) }
{
    let mut rng = Xoshiro256PlusPlus::seed_from_u64(n);
    let keys = next_words(alloc, &mut rng, 16)?;
    let script = script_text(alloc, keys.as_slice())?;
    let media = media_text(alloc, &mut rng, keys.as_slice())?;
    Ok(DemoInput { script, media })
}
