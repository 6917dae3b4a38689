//! Examples of this repository: the script, the media, and what the example's files expect of each track and promise. A script that is not
//! paced is played with a settle behind each line. `two_lanes` has a second lane, and the file of `real_mp4` is large.

pub const NO_MEDIA: &[u8] = br#"SMPL 1
"#;

pub const NOTHING: &[u8] = br#"EMES 1
"#;

pub const NOTHING_GIVES: &[u8] = br#""#;

pub const FRAGMENT_LEFT_MEDIA: &[u8] = br#"SMPL 1
track 1
fragment
sample 1 clear 616263
"#;

pub const FRAGMENT_LEFT: &[u8] = br#"EMES 1
"#;

pub const FRAGMENT_LEFT_GIVES: &[u8] = br#"track 1 616263
"#;

pub const ACCESS: &[u8] = br#"EMES 1
0 access org.w3.clearkey text:[{"videoCapabilities":[{"contentType":"video/mp4; codecs=\"xyz1\""}]},{"initDataTypes":["webm","cenc"],"videoCapabilities":[{"contentType":"video/mp4; codecs=\"avc1.42E01E\""}]}]
"#;

pub const ACCESS_GIVES: &[u8] =
    br#"promise 1 resolved {"label":"","initDataTypes":["cenc"],"audioCapabilities":[],"videoCapabilities":[{"contentType":"video/mp4; codecs=\"avc1.42E01E\"","robustness":""}],"distinctiveIdentifier":"not-allowed","persistentState":"not-allowed","sessionTypes":["temporary"]}
"#;

pub const ACCESS_REFUSED: &[u8] = br#"EMES 1
0 access org.w3.clearkey text:[{"videoCapabilities":[{"contentType":"video/mp4; codecs=\"xyz1\""}]},{"initDataTypes":["webm","cenc"],"videoCapabilities":[{"contentType":""},{"contentType":"video/mp4; codecs=\"avc1.42E01E\""}]}]
"#;

pub const ACCESS_REFUSED_GIVES: &[u8] = br#"promise 1 rejected NotSupportedError
"#;

pub const ACCESS_WITHOUT_NAME: &[u8] = br#"EMES 1
0 access - text:[{"videoCapabilities":[{"contentType":"video/mp4; codecs=\"avc1.42E01E\""}]}]
"#;

pub const ACCESS_WITHOUT_NAME_GIVES: &[u8] = br#"promise 1 rejected TypeError
"#;

pub const CLEAR_BESIDE_PROTECTED_MEDIA: &[u8] = br#"SMPL 1
track 1
track 2
fragment
sample 1 clear 616263
sample 2 cenc 000102030405060708090a0b0c0d0e0f f0f1f2f3f4f5f6f7f8f9fafbfcfdfeff - 874d6191b620e3261bef6864990db6ce
"#;

pub const CLEAR_BESIDE_PROTECTED: &[u8] = br#"EMES 1
0 create a temporary
0 request a keyids text:{"kids":["AAECAwQFBgcICQoLDA0ODw"]}
0 settle
0 update a text:{"keys":[{"kty":"oct","kid":"AAECAwQFBgcICQoLDA0ODw","k":"K34VFiiu0qar9xWICc9PPA"}],"type":"temporary"}
0 feed
"#;

pub const CLEAR_BESIDE_PROTECTED_GIVES: &[u8] = br#"track 1 616263
track 2 6bc1bee22e409f96e93d7e117393172a
promise 1 resolved
promise 2 resolved
promise 3 resolved
"#;

pub const CLOSE_AND_REOPEN_MEDIA: &[u8] = br#"SMPL 1
track 1
fragment
sample 1 cenc 000102030405060708090a0b0c0d0e0f 00000000000000010000000000000000 - 937a5eade36de20d160a17cbf9d788fab798e234ce462b0096581f0b
fragment
sample 1 cenc 000102030405060708090a0b0c0d0e0f 00000000000000020000000000000000 - 9bbcdbbde8941f77125afe59f34def6a6f415de91932d2bf40d3ba7ac5
"#;

pub const CLOSE_AND_REOPEN: &[u8] = br#"EMES 1
0 create a temporary
0 request a keyids text:{"kids":["AAECAwQFBgcICQoLDA0ODw"]}
0 settle
0 update a text:{"keys":[{"kty":"oct","kid":"AAECAwQFBgcICQoLDA0ODw","k":"K34VFiiu0qar9xWICc9PPA"}],"type":"temporary"}
0 settle
0 feed
0 settle
0 close a
0 settle
0 update a text:{}
0 feed
0 settle
0 create b temporary
0 request b keyids text:{"kids":["AAECAwQFBgcICQoLDA0ODw"]}
0 settle
0 update b text:{"keys":[{"kty":"oct","kid":"AAECAwQFBgcICQoLDA0ODw","k":"K34VFiiu0qar9xWICc9PPA"}],"type":"temporary"}
0 settle
"#;

pub const CLOSE_AND_REOPEN_GIVES: &[u8] =
    br#"track 1 4f70656e6564206279207468652066697273742073657373696f6e2e4f70656e656420627920746865207365636f6e642073657373696f6e2e
promise 1 resolved
promise 2 resolved
promise 3 resolved
promise 4 resolved
promise 5 rejected InvalidStateError
promise 6 resolved
promise 7 resolved
promise 8 resolved
"#;

pub const CLOSED_SESSION: &[u8] = br#"EMES 1
0 create a temporary
0 request a keyids text:{"kids":["AAECAwQFBgcICQoLDA0ODw"]}
0 settle
0 close a
0 close a
0 update a text:{"keys":[{"kty":"oct","kid":"AAECAwQFBgcICQoLDA0ODw","k":"K34VFiiu0qar9xWICc9PPA"}],"type":"temporary"}
"#;

pub const CLOSED_SESSION_GIVES: &[u8] = br#"promise 1 resolved
promise 2 resolved
promise 3 resolved
promise 4 resolved
promise 5 rejected InvalidStateError
"#;

pub const EVICTION: &[u8] = br#"EMES 1
0 create a temporary
0 request a keyids text:{"kids":["AAECAwQFBgcICQoLDA0ODw"]}
0 settle
0 update a text:{"keys":[{"kty":"oct","kid":"AAECAwQFBgcICQoLDA0ODw","k":"K34VFiiu0qar9xWICc9PPA"}],"type":"temporary"}
0 settle
0 evict a
0 close a
"#;

pub const EVICTION_GIVES: &[u8] = br#"promise 1 resolved
promise 2 resolved
promise 3 resolved
promise 4 resolved
"#;

pub const EXPIRY_MEDIA: &[u8] = br#"SMPL 1
track 1
fragment
sample 1 cenc 000102030405060708090a0b0c0d0e0f 00000000000000010000000000000000 - 8f6254b4e829a00a094511c6bc8386f6e587ff77d84d3b16df521f41303b
fragment
sample 1 cenc 000102030405060708090a0b0c0d0e0f 00000000000000020000000000000000 - 87a4d1a4e3d05e731f1ff811ff19bc786d5d13ff5c2fd2bb56defb
"#;

pub const EXPIRY: &[u8] = br#"EMES 1
0 create a temporary
0 request a keyids text:{"kids":["AAECAwQFBgcICQoLDA0ODw"]}
0 settle
0 update a text:{"keys":[{"kty":"oct","kid":"AAECAwQFBgcICQoLDA0ODw","k":"K34VFiiu0qar9xWICc9PPA"}],"type":"temporary","expires":1000}
0 settle
0 feed
0 clock 999
0 settle
0 clock 1000
0 settle
0 feed
0 settle
0 update a text:{"keys":[{"kty":"oct","kid":"AAECAwQFBgcICQoLDA0ODw","k":"K34VFiiu0qar9xWICc9PPA"}],"type":"temporary","expires":2000}
0 settle
"#;

pub const EXPIRY_GIVES: &[u8] =
    br#"track 1 53686f776e206265666f726520746865206c6963656e636520656e64732e53686f776e206166746572206974207761732072656e657765642e
promise 1 resolved
promise 2 resolved
promise 3 resolved
promise 4 resolved
"#;

pub const KEY_ROTATION_MEDIA: &[u8] = br#"SMPL 1
track 1
fragment
sample 1 cenc 000102030405060708090a0b0c0d0e0f 00000000000000010000000000000000 4+28 54686520ba6349b0f229a90a160a0cd3f9999db3b183ff679d50391e8f5b140b
sample 1 cenc 000102030405060708090a0b0c0d0e0f 00000000000000020000000000000000 - 95a2daf3f99856664b15e454b8
fragment
sample 1 cenc 101112131415161718191a1b1c1d1e1f 00000000000000030000000000000000 - c4a320416f5466a7284092c777b27b1b64866d70c4a15e3afd7db90a32f5228bf7
sample 1 clear 6120636c6561722073616d706c6520666f6c6c6f77732069742c
sample 1 cenc 101112131415161718191a1b1c1d1e1f 00000000000000040000000000000000 - 18be1c047511f5fcf23e4f8d49d0db5644b16e502e16a56c31a435f8
"#;

pub const KEY_ROTATION: &[u8] = br#"EMES 1
0 create a temporary
0 request a keyids text:{"kids":["AAECAwQFBgcICQoLDA0ODw","EBESExQVFhcYGRobHB0eHw"]}
0 settle
0 update a text:{"keys":[{"kty":"oct","kid":"AAECAwQFBgcICQoLDA0ODw","k":"K34VFiiu0qar9xWICc9PPA"}],"type":"temporary"}
0 settle
0 feed
0 settle
0 feed
0 settle
0 update a text:{"keys":[{"kty":"oct","kid":"EBESExQVFhcYGRobHB0eHw","k":"AAECAwQFBgcICQoLDA0ODw"}],"type":"temporary"}
0 settle
"#;

pub const KEY_ROTATION_GIVES: &[u8] =
    br#"track 1 546865206669727374206b6579206f70656e7320746869732073616d706c652e416e642074686973206f6e652e546865207365636f6e64206b6579206f70656e7320746869732073616d706c652c6120636c6561722073616d706c6520666f6c6c6f77732069742c616e642074686973206f6e6520656e64732074686520747261636b2e
promise 1 resolved
promise 2 resolved
promise 3 resolved
promise 4 resolved
"#;

pub const NO_KEY_MEDIA: &[u8] = br#"SMPL 1
track 1
fragment
sample 1 cenc 010102030405060708090a0b0c0d0e0f f0f1f2f3f4f5f6f7f8f9fafbfcfdfeff - 874d6191b620e3261bef6864990db6ce
"#;

pub const NO_KEY: &[u8] = br#"EMES 1
0 create a temporary
0 request a keyids text:{"kids":["AAECAwQFBgcICQoLDA0ODw"]}
0 settle
0 update a text:{"keys":[{"kty":"oct","kid":"AAECAwQFBgcICQoLDA0ODw","k":"K34VFiiu0qar9xWICc9PPA"}],"type":"temporary"}
0 feed
"#;

pub const NO_KEY_GIVES: &[u8] = br#"track 1
promise 1 resolved
promise 2 resolved
promise 3 resolved
"#;

pub const ONE_SAMPLE_MEDIA: &[u8] = br#"SMPL 1
track 1
fragment
sample 1 cenc 000102030405060708090a0b0c0d0e0f f0f1f2f3f4f5f6f7f8f9fafbfcfdfeff - 874d6191b620e3261bef6864990db6ce
"#;

pub const ONE_SAMPLE: &[u8] = br#"EMES 1
0 create a temporary
0 request a keyids text:{"kids":["AAECAwQFBgcICQoLDA0ODw"]}
0 settle
0 update a text:{"keys":[{"kty":"oct","kid":"AAECAwQFBgcICQoLDA0ODw","k":"K34VFiiu0qar9xWICc9PPA"}],"type":"temporary"}
0 feed
"#;

pub const ONE_SAMPLE_GIVES: &[u8] = br#"track 1 6bc1bee22e409f96e93d7e117393172a
promise 1 resolved
promise 2 resolved
promise 3 resolved
"#;

pub const REJECTIONS: &[u8] = br#"EMES 1
0 create a temporary
0 request a keyids text:
0 request a keyids text:{"kids":["AAECAwQFBgcICQoLDA0ODw"]}
"#;

pub const REJECTIONS_GIVES: &[u8] = br#"promise 1 resolved
promise 2 rejected TypeError
promise 3 rejected InvalidStateError
"#;

pub const TWO_SESSIONS_MEDIA: &[u8] = br#"SMPL 1
track 1
track 2
fragment
sample 1 cenc 000102030405060708090a0b0c0d0e0f 00000000000000010000000000000000 - 8a635fa6e929b7010b4f1183e89f8bb3a382e467c9032b168c44184a2d3b
sample 2 cbcs 101112131415161718191a1b1c1d1e1f 000102030405060708090a0b0c0d0e0f 1:2 - 75522312cf7b4daed876696cd4f2677e7365636f6e642073657373696f6e2c20656e6372797074656420696e20612070e2f3919a21408a33aa73d735c4d13d04657220626c6f636b732e
fragment
sample 1 cenc 000102030405060708090a0b0c0d0e0f 00000000000000020000000000000000 - 82a5dab6e2d04a7b0f1ff811e205f92f7f4b50e2572597bf56c9a67d841914
sample 2 cbcs 101112131415161718191a1b1c1d1e1f 000102030405060708090a0b0c0d0e0f 0:0 - 96ac7b56ce2d9aaaba0697a80919f27c43aefd25dacf75f47bb4d8ad9a55a9c2cf23f448bc7d7c618adaaebe800a60e37465726e20303a302e2e2e2e2e2e2e
fragment
sample 1 cenc 000102030405060708090a0b0c0d0e0f 00000000000000030000000000000000 - 61c28aa59a37b17e0dbb0c86af4080c90d58ffb4211c6da2b7d15696b67dcdeaed
sample 2 clear 436c65617220736f756e642e
"#;

pub const TWO_SESSIONS: &[u8] = br#"EMES 1
0 create a temporary
0 create b temporary
0 request a keyids text:{"kids":["AAECAwQFBgcICQoLDA0ODw"]}
0 request b keyids text:{"kids":["AAECAwQFBgcICQoLDA0ODw","EBESExQVFhcYGRobHB0eHw"]}
0 settle
0 update a text:{"keys":[{"kty":"oct","kid":"AAECAwQFBgcICQoLDA0ODw","k":"K34VFiiu0qar9xWICc9PPA"}],"type":"temporary"}
0 update b text:{"keys":[{"kty":"oct","kid":"AAECAwQFBgcICQoLDA0ODw","k":"K34VFiiu0qar9xWICc9PPA"},{"kty":"oct","kid":"EBESExQVFhcYGRobHB0eHw","k":"AAECAwQFBgcICQoLDA0ODw"}],"type":"temporary"}
0 settle
0 feed
0 settle
0 close a
0 settle
0 feed
0 settle
0 remove b
0 settle
0 feed
0 settle
"#;

pub const TWO_SESSIONS_GIVES: &[u8] =
    br#"track 1 566964656f20756e646572207468652066697273742073657373696f6e2e566964656f20756e64657220746865207365636f6e642073657373696f6e2e
track 2 536f756e6420756e64657220746865207365636f6e642073657373696f6e2c20656e6372797074656420696e2061207061747465726e206f6620313a32206f76657220626c6f636b732e4d6f726520736f756e6420756e6465722069742c20696e2077686f6c6520626c6f636b732c20696e20746865207061747465726e20303a302e2e2e2e2e2e2e436c65617220736f756e642e
promise 1 resolved
promise 2 resolved
promise 3 resolved
promise 4 resolved
promise 5 resolved
promise 6 resolved
promise 7 resolved
promise 8 resolved
"#;

pub const USABLE_LATER: &[u8] = br#"EMES 1
0 create a temporary
0 request a keyids text:{"kids":["AAECAwQFBgcICQoLDA0ODw"]}
0 settle
0 update a text:{"keys":[{"kty":"oct","kid":"AAECAwQFBgcICQoLDA0ODw","k":"K34VFiiu0qar9xWICc9PPA"}],"type":"temporary","from":500}
0 feed
0 settle
0 clock 500
"#;

pub const USABLE_LATER_GIVES: &[u8] = br#"track 1 6bc1bee22e409f96e93d7e117393172a
promise 1 resolved
promise 2 resolved
promise 3 resolved
"#;
