// Content types.
ghost use Rattle.std.specs.Prelude.{◌≡◌, length, take_while, option_map, bytes_eq};
ghost use Rattle.std.specs.List.{list_all, list_any};
ghost use Rattle.key_system_access.specs.ContentType.{skip_spaces, before, media_type, families, is_codec_byte, is_no_dot, is_codec, are_codecs, unquoted, codec_list, is_content_type};

use text_words::{Pieces, behind};

/// The medium of a list of capabilities.
#[derive(Clone, Copy, Debug, PartialEq, Eq)]
pub enum Medium {
    Video,
    Audio,
}

fn skip_spaces(text: &[u8]) -> &[u8]
    ensures { result.now ≡ skip_spaces text.now }
{
    let mut rest = text;
    while let [b' ', others @ ..] = rest {
        rest = others;
    }
    rest
}

fn before<'a>(end: &[u8], text: &'a [u8]) -> Option<&'a [u8]>
    ensures { option_map (λ r. r.now) result ≡ before end.now text.now }
{
    if text.ends_with(end) {
        Some(&text[..text.len() - end.len()])
    } else {
        None
    }
}

fn media_type(medium: Medium) -> &'static [u8]
    ensures { result.now ≡ media_type medium }
{
    match medium {
        Medium::Video => b"video/mp4",
        Medium::Audio => b"audio/mp4",
    }
}

fn is_codec_byte(b: u8) -> bool
    ensures { result ≡ is_codec_byte b }
{
    !matches!(b, b' ' | b',' | b';' | b'"')
}

fn is_family(medium: Medium, name: &[u8]) -> bool
    ensures { result ≡ list_any (bytes_eq name.now) (families medium) }
{
    match medium {
        Medium::Video => {
            matches!(
                name,
                b"avc1" | b"avc3" | b"hev1" | b"hvc1" | b"vp09" | b"av01"
            )
        }
        Medium::Audio => matches!(name, b"mp4a" | b"ac-3" | b"ec-3" | b"Opus" | b"fLaC"),
    }
}

fn are_codec_bytes(text: &[u8]) -> bool
    ensures { result ≡ list_all is_codec_byte text.now }
{
    text.iter().all(|b| is_codec_byte(*b))
}

fn family_len(codec: &[u8]) -> usize
    ensures { result ≡ length (take_while is_no_dot codec.now) }
{
    codec.iter().take_while(|b| **b != b'.').count()
}

fn is_codec(medium: Medium, codec: &[u8]) -> bool
    ensures { result ≡ is_codec medium codec.now }
{
    are_codec_bytes(codec) && is_family(medium, &codec[..family_len(codec)])
}

// One or more codecs, parted by commas, with any spaces before each but the first.
#[tactic(auto, unfolding(crate::specs::ContentType::are_codecs))]
fn are_codecs(medium: Medium, text: &[u8]) -> bool
    ensures { result ≡ are_codecs medium text.now }
{
    let mut parts = Pieces::new(text, b',');
    let Some(first) = parts.next() else {
        return false;
    };
    if !is_codec(medium, first) {
        return false;
    }
    while let Some(part) = parts.next() {
        if !is_codec(medium, skip_spaces(part)) {
            return false;
        }
    }
    true
}

// The list of codecs alone.
#[tactic(auto, unfolding(crate::specs::ContentType::unquoted))]
fn unquoted(text: &[u8]) -> Option<&[u8]>
    ensures { option_map (λ r. r.now) result ≡ unquoted text.now }
{
    if text.starts_with(b"\"") {
        before(b"\"", &text[1..])
    } else {
        Some(text)
    }
}

#[tactic(auto, unfolding(crate::specs::ContentType::codec_list))]
fn codec_list(medium: Medium, text: &[u8]) -> Option<&[u8]>
    ensures { option_map (λ r. r.now) result ≡ codec_list medium text.now }
{
    let rest = behind(media_type(medium), text)?;
    let rest = behind(b";", skip_spaces(rest))?;
    let rest = behind(b"codecs=", skip_spaces(rest))?;
    unquoted(rest)
}

/// Whether a content type names the container of the medium and supported codecs.
pub(crate) fn is_content_type(medium: Medium, text: &[u8]) -> bool
    ensures { result ≡ is_content_type medium text.now }
{
    match codec_list(medium, text) {
        Some(list) => are_codecs(medium, list),
        None => false,
    }
}
