// Samples of chained blocks: the scheme `cbcs`.
ghost use Rattle.std.specs.Prelude.{◌≡◌, Some, IsTrue};
ghost use Rattle.eme_types.specs.declared.sample.Scheme.{Scheme};
ghost use Rattle.eme_types.specs.WellFormed.{is_well_formed};
ghost use Rattle.sample_crypt.specs.Decryption.{iv_bytes, decryption_of};

use aes128::RoundKeys;
use ctr_cbc::{block_bytes_law, cbc_decrypt};
use eme_types::{EncSample, Protect};
use pattern_map::{block_law, ranges};

// Opens the runs of encrypted blocks in place: a chain goes on from run to run, and begins anew at a fresh one.
pub(crate) fn open_chains(
    sample: &EncSample,
    protect: &Protect,
    iv: [u8; 16],
    keys: &RoundKeys,
    bytes: &mut [u8],
)
    requires formed { IsTrue (is_well_formed sample.now) }
    requires protected { sample.now.protect ≡ Some protect.now }
    requires scheme { protect.now.scheme ≡ Scheme.Cbcs }
    requires iv { iv_bytes protect.now.iv ≡ iv }
    requires copy { bytes.old ≡ sample.now.bytes }
    ensures { bytes.new ≡ decryption_of keys.now (Some protect.now) sample.now.bytes }
{
    block_law();
    block_bytes_law();
    let mut before = iv;
    for range in ranges(sample) {
        let chained_to = if range.fresh { iv } else { before };
        let last = cbc_decrypt(keys, chained_to, &mut bytes[range.from..range.to]);
        before = last;
    }
}
