//! A digest of texts. It serves only to tell two outputs apart.

/// The factor by which each word is multiplied.
const FACTOR: u64 = 0x9e37_79b9_7f4a_7c15;

/// The number of bytes in a word.
const WORD: usize = 8;

/// Returns the digest after one more word.
fn with_word(digest: u64, word: u64) -> u64 {
    (digest ^ word).wrapping_mul(FACTOR).rotate_left(29)
}

/// Returns the digest after these further bytes.
pub fn with_bytes(digest: u64, bytes: &[u8]) -> u64 {
    let (words, rest) = bytes.as_chunks::<WORD>();
    let mut digest = with_word(digest, bytes.len() as u64);
    for word in words {
        digest = with_word(digest, u64::from_le_bytes(*word));
    }
    for &byte in rest {
        digest = with_word(digest, u64::from(byte));
    }
    digest
}
