// What a sample must meet before it can be opened.
ghost use Rattle.std.specs.Prelude.{◌≡◌, ◌==◌, ◌↔◌, IsOk, IsTrue};
ghost use Rattle.std.specs.List.{sum_by};
ghost use Rattle.eme_types.specs.WellFormed.{sub_length, is_covered, iv_fits, pattern_fits, is_well_formed};

use eme_types::{EncSample, Iv, Scheme, Sub};

/// The first part of 'well formed' that a sample does not meet.
#[derive(Clone, Copy, Debug, PartialEq, Eq)]
pub enum SampleFault {
    /// There are subsamples, and they are not as long as the sample.
    Sum,
    /// `cbcs` with an IV of 8 bytes.
    IvSize,
    /// `cbcs` with a pattern that skips blocks and encrypts none.
    Pattern,
}

ghost use Rattle.pattern_map.specs.SampleFaults.{first_fault};

// The subsamples are as long as this size.
fn are_as_long(subs: &[Sub], size: usize) -> bool
    ensures { result ≡ (sum_by sub_length subs.now == size) }
{
    let mut left = size;
    for sub in subs {
        match left.checked_sub(usize::from(sub.clear) + sub.prot as usize) {
            Some(rest) => left = rest,
            None => return false,
        }
    }
    left == 0
}

fn are_subsamples(subs: &[Sub], size: usize) -> bool
    ensures { result ≡ is_covered subs.now size }
{
    subs.is_empty() || are_as_long(subs, size)
}

fn is_iv_size(scheme: Scheme, iv: Iv) -> bool
    ensures { result ≡ iv_fits scheme iv }
{
    match (scheme, iv) {
        (Scheme::Cenc, _) | (Scheme::Cbcs, Iv::Sixteen(_)) => true,
        (Scheme::Cbcs, Iv::Eight(_)) => false,
    }
}

fn is_pattern(scheme: Scheme, crypt: u8, skip: u8) -> bool
    ensures { result ≡ pattern_fits scheme crypt skip }
{
    match scheme {
        Scheme::Cenc => true,
        Scheme::Cbcs => crypt != 0 || skip == 0,
    }
}

/// Tests the three parts of 'well formed' in order. A clear sample meets them.
pub fn check_sample(sample: &EncSample) -> Result<(), SampleFault>
    ensures fault { result ≡ first_fault sample.now }
    ensures ok { IsOk result ↔ IsTrue (is_well_formed sample.now) }
{
    let Some(protect) = &sample.protect else {
        return Ok(());
    };
    if !are_subsamples(protect.subs.as_slice(), sample.bytes.len()) {
        return Err(SampleFault::Sum);
    }
    if !is_iv_size(protect.scheme, protect.iv) {
        return Err(SampleFault::IvSize);
    }
    if !is_pattern(protect.scheme, protect.crypt, protect.skip) {
        return Err(SampleFault::Pattern);
    }
    Ok(())
}
