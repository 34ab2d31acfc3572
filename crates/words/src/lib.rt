// Words of 4 bytes, least byte first, in a slice of bytes; f32 by its bits; i32 in two's complement.
// Every function is total: bytes past the end read as 0 and are not written.
#![tactic(auto)]

mod values;

ghost use Rattle.std.specs.Prelude.{◌≡◌, ◌+◌, ◌*◌, ◌^◌, get_or, set};
ghost use Rattle.std.specs.Float.{binary32};
ghost use Rattle.std.specs.Float.Ieee.{of_bits, to_bits};
ghost use Rattle.std.specs.Int.{w32};
ghost use Rattle.std.proofs.Common.{of_z, to_z};
ghost use Rattle.words.specs.Lists.{put_at};
ghost use Rattle.words.specs.Words.{word_at, bytes_of_word};

pub use values::{Word, array_at, put_all};

// The word whose first byte is at `at`. One load where its bytes are inside.
pub fn word(s: &[u8], at: usize) -> u32
    ensures { result ≡ word_at s.now at }
{
    let Some(rest) = s.get(at..) else {
        return 0;
    };
    match rest.first_chunk() {
        Some(bytes) => u32::from_le_bytes(*bytes),
        None => {
            let mut bytes = [0u8; 4];
            bytes[..rest.len()].copy_from_slice(rest);
            u32::from_le_bytes(bytes)
        }
    }
}

// Writes the four bytes of `w` from `at`. One store where they are inside. Out and at stay apart: the bytes are lent, and hold more than words.
pub fn put_word(out: &mut [u8], at: usize, w: u32)
    ensures { out.new ≡ put_at out.old at (bytes_of_word w) }
{
    if at >= out.len() {
        return;
    }
    let bytes = w.to_le_bytes();
    let rest = &mut out[at..];
    match rest.first_chunk_mut() {
        Some(place) => *place = bytes,
        None => {
            let n = rest.len();
            rest.copy_from_slice(&bytes[..n]);
        }
    }
}

// The float of these bits; every NaN pattern is the one NaN.
#[tactic(auto, using(crate::proofs::Nan::pattern_nan, crate::proofs::Nan::pattern_no_nan))]
pub fn float(w: u32) -> f32
    ensures { result ≡ of_bits binary32 w }
{
    if w % 0x8000_0000 > 0x7f80_0000 {
        return f32::NAN;
    }
    f32::from_bits(w)
}

// A float's bits; those of NaN are 7FC00000.
pub fn bits(x: f32) -> u32
    ensures { result ≡ to_bits binary32 x }
{
    if x.is_nan() {
        return 0x7fc0_0000;
    }
    x.to_bits()
}

// The signed number of these bits.
pub fn int(w: u32) -> i32
    ensures { result ≡ to_z w32 w }
{
    w.cast_signed()
}

// A signed number's bits.
pub fn bits_of_int(x: i32) -> u32
    ensures { result ≡ of_z w32 x }
{
    x.cast_unsigned()
}
