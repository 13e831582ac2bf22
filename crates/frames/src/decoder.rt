// A line's digits, tested and decoded in one pass, a piece at a time.
ghost use Rattle.std.specs.Prelude.{◌≡◌, ◌||◌, not, is_some, if◌then◌else◌, nat_le, nat_lt, Ok, Err, MatchResult};
ghost use Rattle.frames.specs.Bytes.{is_hex, all, max_bytes};
ghost use Rattle.frames.specs.declared.bytes.DecodeError.TheVariants.{Stray, Long};
ghost use Rattle.frames.specs.Decoder.{too_many, start, pushed, run, finished};
ghost use Rattle.frames.specs.internal.Alone.{last_alone};
ghost use Rattle.frames.specs.internal.Decoded.{decoded};

use super::bytes::{DecodeError, FrameBytes, MAX_BYTES, hex_value};

// The count of a line with more bytes than a frame may have.
// Kept: the contracts count so (`too_many`); an `Option<usize>`, None for more, would be a match wherever counts are added up or compared.
const TOO_MANY: usize = 256;

// All that is kept of the bytes read so far: whether one was no digit, the value of the digit that waits for its second, how many bytes were
// spelt (256 stands for every larger count), and the first 255 of these, a stray byte read as a 0, with zeros after them.
// Kept: the kit's `ArrayVec` is not `Copy`, which a decoder is, and with room for 255 its length could not be 256.
// Kept: `stray` beside the values, since each contract says what becomes of every state of the public fields (DECISIONS 67); `Option` of the others would say less.
#[derive(Clone, Copy)]
pub struct Decoder {
    pub stray: bool,
    pub half: Option<u8>,
    pub count: usize,
    pub bytes: [u8; MAX_BYTES],
}

// Whether any byte is no digit. It looks at all of them, so that many are looked at together; `any` stops at the first.
fn has_stray(digits: &[u8]) -> bool
    ensures { result ≡ not (all is_hex digits.now) }
{
    digits
        .iter()
        .fold(false, |stray, c| stray | hex_value(*c).is_none())
}

// The value of the last digit where it is without its second.
#[tactic(auto, using(crate::proofs::DecoderLaws::read_digit), unfolding(crate::specs::internal::Alone::last_alone))]
fn alone(digits: &[u8]) -> Option<u8>
    ensures { result ≡ last_alone digits.now }
{
    let len = digits.len();
    if len % 2 == 1 {
        return Some(hex_value(digits[len - 1]).unwrap_or(0));
    }
    None
}

// The count after `left` digits for whose bytes there is no room.
fn past_room(count: usize, left: usize) -> usize
    ensures { result ≡ (if nat_lt 1 left then too_many else count) }
{
    if 1 < left { TOO_MANY } else { count }
}

impl Decoder {
    // Before a line's first byte.
    #[tactic(auto, unfolding(crate::specs::Decoder::start))]
    pub fn new() -> Decoder
        ensures { result ≡ start }
    {
        Decoder {
            stray: false,
            half: None,
            count: 0,
            bytes: [0; MAX_BYTES],
        }
    }

    // One byte more. The remainder by 16 matters only where `half` is above 15, which no reading leaves.
    #[tactic(auto, using(crate::proofs::DecoderLaws::read_some, crate::proofs::DecoderLaws::read_digit, crate::proofs::DecoderLaws::digit_of_small), unfolding(crate::specs::Decoder::pushed, crate::specs::Decoder::pushed_on, crate::specs::Decoder::stray_after))]
    pub fn push(self, c: u8) -> Decoder
        ensures { result ≡ pushed self c }
    {
        let value = hex_value(c);
        let digit = value.unwrap_or(0);
        let count = self.count;
        let mut r = self;
        r.stray = self.stray | value.is_none();
        let Some(half) = self.half else {
            r.half = Some(digit);
            return r;
        };
        r.half = None;
        if count < MAX_BYTES {
            r.bytes[count] = half % 16 * 16 + digit;
            r.count = count + 1;
            return r;
        }
        r.count = TOO_MANY;
        r
    }

    // Digits where no digit waits: pairs of them while there is room for their bytes, then what is left, which is one digit at most or has no room.
    fn run_even(self, digits: &[u8]) -> Decoder
        requires { self.half ≡ None }
        ensures { result ≡ run self digits.now }
    {
        let count = self.count;
        let (pairs, _) = digits.as_chunks::<2>();
        let read = pairs.len().min(MAX_BYTES.saturating_sub(count));
        let mut stray = self.stray;
        let mut bytes = self.bytes;
        for (i, &[first, second]) in pairs[..read].iter().enumerate() {
            let high = hex_value(first);
            let low = hex_value(second);
            stray = stray | high.is_none() | low.is_none();
            bytes[count + i] = high.unwrap_or(0) % 16 * 16 + low.unwrap_or(0) % 16;
        }
        let left = &digits[2 * read..];
        Decoder {
            stray: stray | has_stray(left),
            half: alone(left),
            count: past_room(count + read, left.len()),
            bytes,
        }
    }

    // A piece of the line more, of any length.
    #[tactic(auto, using(crate::proofs::DecoderLaws::run_none))]
    pub fn run(self, digits: &[u8]) -> Decoder
        ensures { result ≡ run self digits.now }
    {
        if self.half.is_none() {
            return self.run_even(digits);
        }
        let Some((first, rest)) = digits.split_first() else {
            return self;
        };
        self.push(*first).run_even(rest)
    }

    // How many bytes a line has that ends here, or why it has none.
    fn ended(&self) -> Result<usize, DecodeError>
        ensures { result ≡ (if self.now.stray || is_some self.now.half then Err Stray else if nat_le self.now.count max_bytes then Ok self.now.count else Err Long) }
    {
        if self.stray | self.half.is_some() {
            return Err(DecodeError::Stray);
        }
        if MAX_BYTES < self.count {
            return Err(DecodeError::Long);
        }
        Ok(self.count)
    }

    // What it says of a line that ends here: its bytes, where they stand, or why there are none. No byte is copied, so a text is read without copies.
    #[tactic(auto, unfolding(crate::specs::Decoder::finished))]
    pub(crate) fn spelled(&self) -> Result<&[u8], DecodeError>
        ensures { MatchResult result (λ bytes. finished self.now ≡ Ok bytes.now) (λ error. finished self.now ≡ Err error) }
    {
        let len = self.ended()?;
        Ok(&self.bytes[..len])
    }

    // The same, with the bytes as they are handed out.
    #[tactic(auto, unfolding(crate::specs::Decoder::finished))]
    pub fn finish(self) -> Result<FrameBytes, DecodeError>
        ensures { result ≡ finished self }
    {
        let len = self.ended()?;
        Ok(FrameBytes::first(self.bytes, len))
    }
}

// Decodes a whole line's digits.
#[tactic(auto, using(crate::proofs::DecoderLaws::whole_line))]
pub fn decode(digits: &[u8]) -> Result<FrameBytes, DecodeError>
    ensures { result ≡ decoded digits.now }
{
    Decoder::new().run(digits).finish()
}
