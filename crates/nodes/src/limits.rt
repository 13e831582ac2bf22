// The limits of tables and look-ups.

// The most bits of a state code.
pub const MAX_BITS: u8 = 24;

// How many codes there are of as many bits.
pub const CODES: u64 = 1 << MAX_BITS;

// The largest level of a node: six levels for the action, and six for each bit of a code.
pub const LAST_LEVEL: u8 = 5 + 6 * MAX_BITS;

// The level of the constants.
pub const CONSTANT_LEVEL: u8 = 255;

// The longest table.
pub const MAX_LENGTH: u32 = 1048576;
