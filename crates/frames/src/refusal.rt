// Why a line is refused.
ghost use Rattle.std.specs.Prelude.{◌≡◌};
ghost use Rattle.frames.specs.Numbers.{refusal_number};
ghost use Rattle.frames.specs.declared.bytes.DecodeError.TheVariants.{Stray, Long};
ghost use Rattle.frames.specs.declared.refusal.Refusal.TheVariants.{Spelling, Size};

use super::bytes::DecodeError;

#[derive(Clone, Copy, Debug, PartialEq, Eq)]
pub enum Refusal {
    // The text is empty, a byte is no digit, a digit is alone, or the line is unended.
    Spelling,
    // A frame has fewer than 2 or more than 255 bytes.
    Size,
    // Byte 0 is not the line's number, or line 64 is reached.
    Number,
    // There is no such kind, or its frames can't have this length.
    Kind,
    // A state count, a state, an action, a channel or an operand is out of range.
    Range,
    // The process has too many bits or leaf uses.
    Limits,
}

impl Refusal {
    // Its number in document 01.
    pub fn number(self) -> u8
        ensures { result ≡ refusal_number self }
    {
        match self {
            Refusal::Spelling => 1,
            Refusal::Size => 2,
            Refusal::Number => 3,
            Refusal::Kind => 4,
            Refusal::Range => 5,
            Refusal::Limits => 6,
        }
    }
}

// What is said of a line whose digits give no bytes.
impl From<DecodeError> for Refusal {
    ghost from_gives = { λ e r. (e ≡ Stray → r ≡ Spelling) × (e ≡ Long → r ≡ Size) };

    fn from(error: DecodeError) -> Refusal {
        match error {
            DecodeError::Stray => Refusal::Spelling,
            DecodeError::Long => Refusal::Size,
        }
    }
}
