// The digits of a line: their values, and what decoding them answers.
ghost use Rattle.std.specs.Prelude.{◌≡◌, ◌≤◌, ℕ, List, length, take, if◌then◌else◌};
ghost use Rattle.std.proofs.Common.{arith, length-take-le};
ghost use Rattle.frames.specs.Bytes.{hex_value, is_hex, max_bytes};
ghost use Rattle.frames.specs.internal.Padded.{padded};

use std::marker::Model;

// A frame has at most so many bytes.
pub const MAX_BYTES: usize = 255;

// Why a line's digits give no frame's bytes: a byte that is no digit, or a digit alone; or too many bytes.
#[derive(Clone, Copy, Debug, PartialEq, Eq)]
pub enum DecodeError {
    Stray,
    Long,
}

// The bytes of one frame: contracts see them as a list.
// Kept: that takes a struct with a model round the kit's `ArrayVec` too, `FrameBytes(ArrayVec<u8, 255>)`, made by `from` and then `truncate` in place of one literal.
#[derive(Clone, Copy)]
pub struct FrameBytes {
    bytes: [u8; MAX_BYTES],
    len: usize,
}

impl Model for FrameBytes {
    ghost Value = { List ℕ };

    ghost view = { λ f. take f.len f.bytes };

    // Zeros behind the bytes, so that these tell the whole, and a copy is the same bytes.
    ghost invariant = { λ f. (f.len ≤ max_bytes) × (length f.bytes ≡ max_bytes) × (padded (take f.len f.bytes) ≡ f.bytes) };

    ghost inverse = { λ xs. record { bytes = padded xs; len = length xs } };

    ghost inverse_ok = { λ f h i. record { bytes = h.2 i; len = length-take-le f.len f.bytes (omega (arith, h.0, h.1)) i } };
}

impl FrameBytes {
    // The first `len` of the bytes.
    pub fn first(bytes: [u8; MAX_BYTES], len: usize) -> FrameBytes
        requires { len ≤ max_bytes }
        ensures { result ≡ take len bytes }
    {
        let mut bytes = bytes;
        bytes[len..].fill(0);
        FrameBytes { bytes, len }
    }

    pub fn as_slice(&self) -> &[u8]
        ensures { result.now ≡ self.now }
    {
        &self.bytes[..self.len]
    }
}

// The value of a digit 0-9 A-F. One comparison tells each range, so that the compiler can do without jumps.
#[tactic(auto, unfolding(crate::specs::Bytes::hex_value, crate::specs::Bytes::is_hex))]
pub fn hex_value(c: u8) -> Option<u8>
    ensures { result ≡ (if is_hex c then Some (hex_value c) else None) }
{
    let digit = c.wrapping_sub(b'0');
    if digit < 10 {
        return Some(digit);
    }
    let letter = c.wrapping_sub(b'A');
    if letter < 6 {
        return Some(letter + 10);
    }
    None
}
