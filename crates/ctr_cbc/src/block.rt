//! Blocks of 16 bytes.

ghost use Rattle.std.specs.Prelude.{◌≡◌, length};
ghost use Rattle.ctr_cbc.specs.Blocks.{exclusive_or};

/// The bytes of a slice of 16 as an array.
#[inline(always)]
pub(crate) fn block_of(bytes: &[u8]) -> [u8; 16]
    requires { length bytes.now ≡ 16 }
    ensures { result ≡ bytes.now }
{
    let mut block = [0; 16];
    block.copy_from_slice(bytes);
    block
}

/// The exclusive or of two blocks.
#[inline(always)]
#[tactic(auto, unfolding(crate::specs::Blocks::exclusive_or))]
pub(crate) fn exclusive_or(a: [u8; 16], b: [u8; 16]) -> [u8; 16]
    ensures { result ≡ exclusive_or a b }
{
    [
        a[0] ^ b[0],
        a[1] ^ b[1],
        a[2] ^ b[2],
        a[3] ^ b[3],
        a[4] ^ b[4],
        a[5] ^ b[5],
        a[6] ^ b[6],
        a[7] ^ b[7],
        a[8] ^ b[8],
        a[9] ^ b[9],
        a[10] ^ b[10],
        a[11] ^ b[11],
        a[12] ^ b[12],
        a[13] ^ b[13],
        a[14] ^ b[14],
        a[15] ^ b[15],
    ]
}
