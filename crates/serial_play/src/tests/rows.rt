//! Scripts, media, what they give, and schedules. A settle is put behind each line of a script. The key of the first id is that of SP
//! 800-38A section F.5.1, whose first block is the sample; that of the second id is the key of FIPS 197 appendix C.1, under which the
//! appendix's block of plaintext, as the counter of a block of zeros, gives the appendix's block of ciphertext.

/// The words that lead through the first three lines of `GRANTED` and of scripts that begin as it does.
pub const GRANT: &str = "line line line job task task line line job task task task line";

pub const GRANTED: &[u8] = br#"EMES 1
0 create a temporary
0 request a keyids text:{"kids":["AAECAwQFBgcICQoLDA0ODw"]}
0 update a text:{"keys":[{"kty":"oct","kid":"AAECAwQFBgcICQoLDA0ODw","k":"K34VFiiu0qar9xWICc9PPA"}],"type":"temporary"}
0 feed
"#;

pub const NOT_FED: &[u8] = br#"EMES 1
0 create a temporary
0 request a keyids text:{"kids":["AAECAwQFBgcICQoLDA0ODw"]}
0 update a text:{"keys":[{"kty":"oct","kid":"AAECAwQFBgcICQoLDA0ODw","k":"K34VFiiu0qar9xWICc9PPA"}],"type":"temporary"}
"#;

pub const ONE_SAMPLE: &[u8] = br#"SMPL 1
track 1
fragment
sample 1 cenc 000102030405060708090a0b0c0d0e0f f0f1f2f3f4f5f6f7f8f9fafbfcfdfeff - 874d6191b620e3261bef6864990db6ce
"#;

pub const ONE_OUT: &[u8] = b"track 1 6bc1bee22e409f96e93d7e117393172a
promise 1 resolved
promise 2 resolved
promise 3 resolved
";

/// A claim that is given up is given again.
pub const ONE_CLAIM: &[u8] = br#"
line claim deliver publish line rest
line claim drop claim deliver publish line rest
line claim drop claim drop claim deliver publish line rest
"#;

/// The fragment that is left is fed behind the last line.
pub const LEFT: &[u8] = br#"
rest feed claim deliver publish rest
rest feed claim drop claim deliver publish rest
"#;

/// Initialization data, a clear sample before a protected one, and another track that ends in a sample without a key.
pub const TWO_TRACKS: &[u8] = br#"SMPL 1
track 1
track 2
fragment
init keyids 7b7d
sample 1 clear 616263
sample 1 cenc 000102030405060708090a0b0c0d0e0f f0f1f2f3f4f5f6f7f8f9fafbfcfdfeff - 874d6191b620e3261bef6864990db6ce
sample 2 cenc 000102030405060708090a0b0c0d0e0f f0f1f2f3f4f5f6f7f8f9fafbfcfdfeff - 874d6191b620e3261bef6864990db6ce
sample 2 cenc 101112131415161718191a1b1c1d1e1f 00112233445566778899aabbccddeeff - 00000000000000000000000000000000
"#;

pub const BOTH_OUT: &[u8] = b"track 1 6162636bc1bee22e409f96e93d7e117393172a
track 2 6bc1bee22e409f96e93d7e117393172a
promise 1 resolved
promise 2 resolved
promise 3 resolved
";

/// The claims of both tracks, their deliveries and publications, the task of the initialization data, the clear sample, and the wait
/// with its task, in several orders.
pub const MIXED: &[u8] = br#"
line task pass claim deliver publish claim deliver publish wait task line rest
line claim turn claim deliver publish turn deliver pass publish task wait task line rest
line claim turn claim turn deliver turn deliver pass publish publish wait task task line rest
line pass claim turn claim deliver turn deliver publish publish task wait task line rest
line claim drop claim turn claim drop claim deliver turn deliver publish pass publish wait task task line rest
line claim turn claim deliver publish wait task turn deliver task pass publish line rest
"#;

/// The head of the first track has no key before the last line, and the sample behind it has one.
pub const HEADLESS: &[u8] = br#"SMPL 1
track 1
track 2
fragment
sample 1 cenc 101112131415161718191a1b1c1d1e1f 00112233445566778899aabbccddeeff - 00000000000000000000000000000000
sample 1 cenc 000102030405060708090a0b0c0d0e0f f0f1f2f3f4f5f6f7f8f9fafbfcfdfeff - 874d6191b620e3261bef6864990db6ce
sample 2 cenc 000102030405060708090a0b0c0d0e0f f0f1f2f3f4f5f6f7f8f9fafbfcfdfeff - 874d6191b620e3261bef6864990db6ce
"#;

pub const SECOND_KEY: &[u8] = br#"EMES 1
0 create a temporary
0 request a keyids text:{"kids":["AAECAwQFBgcICQoLDA0ODw"]}
0 update a text:{"keys":[{"kty":"oct","kid":"AAECAwQFBgcICQoLDA0ODw","k":"K34VFiiu0qar9xWICc9PPA"}],"type":"temporary"}
0 feed
0 update a text:{"keys":[{"kty":"oct","kid":"EBESExQVFhcYGRobHB0eHw","k":"AAECAwQFBgcICQoLDA0ODw"}]}
"#;

pub const ALL_OUT: &[u8] =
    b"track 1 69c4e0d86a7b0430d8cdb78070b4c55a6bc1bee22e409f96e93d7e117393172a
track 2 6bc1bee22e409f96e93d7e117393172a
promise 1 resolved
promise 2 resolved
promise 3 resolved
promise 4 resolved
";

/// A claim behind the head without a key is delivered before the wait, while all is at rest, behind the call that brings the key, behind
/// its job, and behind the publication of the head; or it is given up and given again.
pub const HELD: &[u8] = br#"
line claim deliver claim deliver publish wait task line line job task task task claim deliver publish publish line rest
line claim turn wait task claim deliver publish line turn deliver line job task task task claim drop claim deliver publish publish line rest
line claim turn claim deliver publish wait task line line turn deliver job task task task claim deliver publish publish line rest
line claim turn claim deliver publish wait task line line job turn deliver task task task claim deliver publish publish line rest
line claim turn claim deliver publish wait task line line job task task task claim deliver publish turn deliver publish line rest
line wait task claim deliver publish line line job task task task claim turn claim deliver turn deliver publish publish line rest
line claim turn claim deliver publish wait task line turn drop line job task task task claim turn claim deliver turn deliver publish publish line rest
"#;

/// The first key is replaced by another while a sample is claimed under it.
pub const OTHER_KEY: &[u8] = br#"EMES 1
0 create a temporary
0 request a keyids text:{"kids":["AAECAwQFBgcICQoLDA0ODw"]}
0 update a text:{"keys":[{"kty":"oct","kid":"AAECAwQFBgcICQoLDA0ODw","k":"K34VFiiu0qar9xWICc9PPA"}],"type":"temporary"}
0 feed
0 update a text:{"keys":[{"kty":"oct","kid":"AAECAwQFBgcICQoLDA0ODw","k":"AAECAwQFBgcICQoLDA0ODw"}]}
0 update a text:{"keys":[{"kty":"oct","kid":"EBESExQVFhcYGRobHB0eHw","k":"AAECAwQFBgcICQoLDA0ODw"}]}
"#;

pub const OTHER_OUT: &[u8] =
    b"track 1 69c4e0d86a7b0430d8cdb78070b4c55ae1eaa6798272d26e8cbeb663aa1b1b63
track 2 6bc1bee22e409f96e93d7e117393172a
promise 1 resolved
promise 2 resolved
promise 3 resolved
promise 4 resolved
promise 5 resolved
";

pub const REPLACED: &[u8] = br#"
line claim turn claim deliver publish wait task line line job turn late task task task line line job task task task claim turn claim deliver turn deliver publish publish line rest
line claim turn claim deliver publish wait task line line job task task task line turn late line job task task task claim turn claim turn deliver turn deliver publish publish line rest
line claim turn claim deliver publish wait task line line turn deliver job task task task line line job task task task claim turn claim deliver turn deliver publish publish line rest
"#;

/// The same key again, behind another in one key set.
pub const KEY_AGAIN: &[u8] = br#"EMES 1
0 create a temporary
0 request a keyids text:{"kids":["AAECAwQFBgcICQoLDA0ODw"]}
0 update a text:{"keys":[{"kty":"oct","kid":"AAECAwQFBgcICQoLDA0ODw","k":"K34VFiiu0qar9xWICc9PPA"}],"type":"temporary"}
0 feed
0 update a text:{"keys":[{"kty":"oct","kid":"AAECAwQFBgcICQoLDA0ODw","k":"AAECAwQFBgcICQoLDA0ODw"},{"kty":"oct","kid":"AAECAwQFBgcICQoLDA0ODw","k":"K34VFiiu0qar9xWICc9PPA"}]}
0 update a text:{"keys":[{"kty":"oct","kid":"EBESExQVFhcYGRobHB0eHw","k":"AAECAwQFBgcICQoLDA0ODw"}]}
"#;

pub const AGAIN_OUT: &[u8] =
    b"track 1 69c4e0d86a7b0430d8cdb78070b4c55a6bc1bee22e409f96e93d7e117393172a
track 2 6bc1bee22e409f96e93d7e117393172a
promise 1 resolved
promise 2 resolved
promise 3 resolved
promise 4 resolved
promise 5 resolved
";

pub const KEPT: &[u8] = br#"
line claim turn claim deliver publish wait task line line job turn deliver task line line job task task task claim deliver publish publish line rest
line claim turn claim deliver publish wait task line line job task line line job task task task claim deliver publish turn deliver publish line rest
"#;

/// The licence ends while a sample is claimed under it, and is renewed.
pub const RENEWED: &[u8] = br#"EMES 1
0 create a temporary
0 request a keyids text:{"kids":["AAECAwQFBgcICQoLDA0ODw"]}
0 update a text:{"keys":[{"kty":"oct","kid":"AAECAwQFBgcICQoLDA0ODw","k":"K34VFiiu0qar9xWICc9PPA"}],"expires":1000}
0 feed
0 clock 1000
0 update a text:{"keys":[{"kty":"oct","kid":"AAECAwQFBgcICQoLDA0ODw","k":"K34VFiiu0qar9xWICc9PPA"}]}
0 update a text:{"keys":[{"kty":"oct","kid":"EBESExQVFhcYGRobHB0eHw","k":"AAECAwQFBgcICQoLDA0ODw"}]}
"#;

pub const EXPIRED: &[u8] = br#"
line claim turn claim deliver publish wait task line line turn late task task task line line job task task task line line job task task task claim turn claim deliver turn deliver publish publish line rest
line claim turn claim deliver publish wait task line line task task task line line job task task task line line job task task task claim turn late claim turn deliver publish turn deliver publish line rest
"#;

/// The keys are released while a sample is claimed under one, and the licence comes again.
pub const RELEASED: &[u8] = br#"EMES 1
0 create a temporary
0 request a keyids text:{"kids":["AAECAwQFBgcICQoLDA0ODw"]}
0 update a text:{"keys":[{"kty":"oct","kid":"AAECAwQFBgcICQoLDA0ODw","k":"K34VFiiu0qar9xWICc9PPA"}],"type":"temporary"}
0 feed
0 remove a
0 update a text:{"keys":[{"kty":"oct","kid":"AAECAwQFBgcICQoLDA0ODw","k":"K34VFiiu0qar9xWICc9PPA"},{"kty":"oct","kid":"EBESExQVFhcYGRobHB0eHw","k":"AAECAwQFBgcICQoLDA0ODw"}]}
"#;

pub const REMOVED: &[u8] = br#"
line claim turn claim deliver publish wait task line line job turn late task task task line line job task task task claim turn claim deliver turn deliver publish publish line rest
line claim turn claim deliver publish wait task line line turn deliver job task task task line line job task task task claim turn claim turn deliver turn deliver publish publish line rest
"#;

/// Two sessions hold the key; that under which a sample is claimed is closed.
pub const TWO_HOLDERS: &[u8] = br#"EMES 1
0 create a temporary
0 request a keyids text:{"kids":["AAECAwQFBgcICQoLDA0ODw"]}
0 update a text:{"keys":[{"kty":"oct","kid":"AAECAwQFBgcICQoLDA0ODw","k":"K34VFiiu0qar9xWICc9PPA"}],"type":"temporary"}
0 create b temporary
0 request b keyids text:{"kids":["AAECAwQFBgcICQoLDA0ODw"]}
0 update b text:{"keys":[{"kty":"oct","kid":"AAECAwQFBgcICQoLDA0ODw","k":"K34VFiiu0qar9xWICc9PPA"}],"type":"temporary"}
0 feed
0 close a
0 update b text:{"keys":[{"kty":"oct","kid":"EBESExQVFhcYGRobHB0eHw","k":"AAECAwQFBgcICQoLDA0ODw"}]}
"#;

pub const HOLDERS_OUT: &[u8] =
    b"track 1 69c4e0d86a7b0430d8cdb78070b4c55a6bc1bee22e409f96e93d7e117393172a
track 2 6bc1bee22e409f96e93d7e117393172a
promise 1 resolved
promise 2 resolved
promise 3 resolved
promise 4 resolved
promise 5 resolved
promise 6 resolved
promise 7 resolved
promise 8 resolved
";

pub const CLOSED: &[u8] = br#"
line line line job task task line line job task task task line line claim turn claim deliver publish wait task line line job turn late task task task line line job task task task claim turn claim deliver turn deliver publish publish line rest
line line line job task task line line job task task task line line claim turn claim deliver publish wait task line line turn deliver job task task task line line job task task task claim deliver publish claim deliver publish line rest
"#;

/// The session is evicted while a sample is claimed under it.
pub const LOST: &[u8] = br#"EMES 1
0 create a temporary
0 request a keyids text:{"kids":["AAECAwQFBgcICQoLDA0ODw"]}
0 update a text:{"keys":[{"kty":"oct","kid":"AAECAwQFBgcICQoLDA0ODw","k":"K34VFiiu0qar9xWICc9PPA"}],"type":"temporary"}
0 feed
0 evict a
0 update a text:{"keys":[{"kty":"oct","kid":"EBESExQVFhcYGRobHB0eHw","k":"AAECAwQFBgcICQoLDA0ODw"}]}
"#;

pub const LOST_OUT: &[u8] = b"track 1
track 2 6bc1bee22e409f96e93d7e117393172a
promise 1 resolved
promise 2 resolved
promise 3 resolved
promise 4 rejected InvalidStateError
";

pub const EVICTED: &[u8] = br#"
line claim turn claim deliver publish wait task line line turn late task task task line line line rest
line claim turn claim deliver publish wait task line line task task task line line line turn late rest
line claim turn claim deliver publish wait task line turn deliver line task task task line line line rest
"#;

/// The sessions hold different keys of the second id when its sample passes, and the first of them is the last to have one.
pub const AT_ODDS: &[u8] = br#"EMES 1
0 create a temporary
0 create b temporary
0 request a keyids text:{"kids":["AAECAwQFBgcICQoLDA0ODw"]}
0 request b keyids text:{"kids":["AAECAwQFBgcICQoLDA0ODw"]}
0 update b text:{"keys":[{"kty":"oct","kid":"EBESExQVFhcYGRobHB0eHw","k":"AAECAwQFBgcICQoLDA0ODw"}],"type":"temporary"}
0 feed
0 update a text:{"keys":[{"kty":"oct","kid":"EBESExQVFhcYGRobHB0eHw","k":"ABEiM0RVZneImaq7zN3u_w"}],"type":"temporary"}
0 update a text:{"keys":[{"kty":"oct","kid":"AAECAwQFBgcICQoLDA0ODw","k":"K34VFiiu0qar9xWICc9PPA"}],"type":"temporary"}
"#;

/// The same block under two key ids.
pub const TWO_KIDS: &[u8] = br#"SMPL 1
track 1
fragment
sample 1 cenc 000102030405060708090a0b0c0d0e0f f0f1f2f3f4f5f6f7f8f9fafbfcfdfeff - 874d6191b620e3261bef6864990db6ce
sample 1 cenc 101112131415161718191a1b1c1d1e1f f0f1f2f3f4f5f6f7f8f9fafbfcfdfeff - 874d6191b620e3261bef6864990db6ce
"#;

/// The second sample under the key of session a, which the serial play picks.
pub const BY_THE_FIRST: &[u8] =
    b"track 1 6bc1bee22e409f96e93d7e117393172a6f18202a950fe42f8b661d591fcd6b3e
promise 1 resolved
promise 2 resolved
promise 3 resolved
promise 4 resolved
promise 5 resolved
promise 6 resolved
promise 7 resolved
";

/// And under that of session b, where it was claimed before session a had one.
pub const BY_THE_SECOND: &[u8] =
    b"track 1 6bc1bee22e409f96e93d7e117393172ae1eaa6798272d26e8cbeb663aa1b1b63
promise 1 resolved
promise 2 resolved
promise 3 resolved
promise 4 resolved
promise 5 resolved
promise 6 resolved
promise 7 resolved
";

/// The words that lead through its first five lines.
pub const BOTH_OPENED: &str =
    "line line line line line job task task line line job task task line line job task task task line";

/// The order of a play without workers: a claim is delivered as soon as it is given.
pub const ALONE: &[u8] = br#"
line claim deliver wait task line line job task task task line line job task task task claim deliver publish publish line rest
"#;

/// A worker gives its claim up, or claims the sample when session a has its own key.
pub const GIVEN_UP: &[u8] = br#"
line claim drop wait task line line job task task task line line job task task task claim deliver publish claim deliver publish line rest
line wait task line line job task task task line line job task task task claim turn claim deliver turn deliver publish publish line rest
"#;

/// The sessions have different keys of one id.
pub const TWO_KEYS: &[u8] = br#"EMES 1
0 create a temporary
0 request a keyids text:{"kids":["AAECAwQFBgcICQoLDA0ODw"]}
0 update a text:{"keys":[{"kty":"oct","kid":"AAECAwQFBgcICQoLDA0ODw","k":"K34VFiiu0qar9xWICc9PPA"}],"type":"temporary"}
0 create b temporary
0 request b keyids text:{"kids":["AAECAwQFBgcICQoLDA0ODw"]}
0 update b text:{"keys":[{"kty":"oct","kid":"AAECAwQFBgcICQoLDA0ODw","k":"AAECAwQFBgcICQoLDA0ODw"}],"type":"temporary"}
0 feed
"#;

pub const TWO_KEYS_OUT: &[u8] = b"track 1 6bc1bee22e409f96e93d7e117393172a
promise 1 resolved
promise 2 resolved
promise 3 resolved
promise 4 resolved
promise 5 resolved
promise 6 resolved
";
