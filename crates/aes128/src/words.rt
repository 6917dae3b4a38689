//! The state as four words, one for each column, the byte of the first row highest (FIPS 197, section 3.5).

ghost use Rattle.std.specs.Prelude.{◌≡◌, ◌<◌};
ghost use Rattle.aes128.specs.Cipher.{add_round_key};
ghost use Rattle.aes128.specs.Words.{row_byte, state_of_words};

/// The word of four bytes, the first highest.
#[inline(always)]
pub(crate) fn word(a: u8, b: u8, c: u8, d: u8) -> u32
    ensures row_0 { row_byte result 0 ≡ a }
    ensures row_1 { row_byte result 1 ≡ b }
    ensures row_2 { row_byte result 2 ≡ c }
    ensures row_3 { row_byte result 3 ≡ d }
{
    u32::from_be_bytes([a, b, c, d])
}

/// The byte of row `ROW` of a word.
#[inline(always)]
#[tactic(auto, unfolding(crate::specs::Words::row_byte))]
pub(crate) fn byte<const ROW: u32>(w: u32) -> u8
    requires { ROW < 4 }
    ensures { result ≡ row_byte w ROW }
{
    ((w >> (24 - 8 * ROW)) & 0xff) as u8
}

/// The words of a block.
#[inline(always)]
pub(crate) fn words_of(block: [u8; 16]) -> [u32; 4]
    ensures { state_of_words result ≡ block }
{
    [
        word(block[0], block[1], block[2], block[3]),
        word(block[4], block[5], block[6], block[7]),
        word(block[8], block[9], block[10], block[11]),
        word(block[12], block[13], block[14], block[15]),
    ]
}

/// The block of these words.
#[inline(always)]
#[tactic(auto, unfolding(crate::specs::Words::state_of_words))]
pub(crate) fn block_of(s: [u32; 4]) -> [u8; 16]
    ensures { result ≡ state_of_words s }
{
    let [a, b, c, d] = s;
    [
        byte::<0>(a),
        byte::<1>(a),
        byte::<2>(a),
        byte::<3>(a),
        byte::<0>(b),
        byte::<1>(b),
        byte::<2>(b),
        byte::<3>(b),
        byte::<0>(c),
        byte::<1>(c),
        byte::<2>(c),
        byte::<3>(c),
        byte::<0>(d),
        byte::<1>(d),
        byte::<2>(d),
        byte::<3>(d),
    ]
}

/// AddRoundKey.
#[inline(always)]
pub(crate) fn add_round_key(s: [u32; 4], k: [u32; 4]) -> [u32; 4]
    ensures { state_of_words result ≡ add_round_key (state_of_words s) (state_of_words k) }
{
    [s[0] ^ k[0], s[1] ^ k[1], s[2] ^ k[2], s[3] ^ k[3]]
}
