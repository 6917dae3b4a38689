// Whole samples.
ghost use Rattle.std.specs.Prelude.{◌≡◌, IsTrue, IfOk};
ghost use Rattle.eme_types.specs.WellFormed.{is_well_formed};
ghost use Rattle.sample_crypt.specs.Decryption.{decryption};

use crate::chain::open_chains;
use crate::stream::open_stream;
use aes128::expand;
use eme_types::{Bytes, EncSample, Iv, KeyBytes, Scheme};
use std::alloc::{AllocError, Global};

/// The clear bytes of a sample under its key, as long as the sample. A clear sample gives its bytes.
pub fn open_sample(alloc: Global, sample: &EncSample, key: &KeyBytes) -> Result<Bytes, AllocError>
    requires { IsTrue (is_well_formed sample.now) }
    ensures { IfOk result (λ opened. opened ≡ decryption sample.now key.now) }
{
    let mut opened = Vec::from_slice(alloc, sample.bytes.as_slice())?;
    if let Some(protect) = &sample.protect {
        let keys = expand(key.bytes);
        match (protect.scheme, protect.iv) {
            (Scheme::Cenc, _) => open_stream(sample, protect, &keys, opened.as_mut_slice()),
            (Scheme::Cbcs, Iv::Sixteen(iv)) => {
                open_chains(sample, protect, iv, &keys, opened.as_mut_slice());
            }
            (Scheme::Cbcs, Iv::Eight(_)) => unreachable!(),
        }
    }
    Ok(Bytes::from_vec(opened))
}
