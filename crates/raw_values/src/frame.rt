// The frame of a raw value: eight bytes that a word has, highest first, and zeros.
pub const BYTES: usize = 48;

pub const BITS: usize = 384;

pub fn frame(word: u64) -> [u8; BYTES] {
    let mut f = [0u8; BYTES];
    f[..8].copy_from_slice(&word.to_be_bytes());
    f
}
