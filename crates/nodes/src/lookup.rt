// A look-up in a node table: a walk from a root by the bits of an action and four state codes.
ghost use Rattle.std.specs.Prelude.{◌≡◌, ◌+◌, length};
ghost use Rattle.nodes.specs.Table.{last_level};
ghost use Rattle.nodes.specs.Lookup.{slices, table_fits, small, looked_up, walk_from, look_up, error_number};

use super::levels::digit_at;
use super::limits::{CODES, LAST_LEVEL, MAX_LENGTH};

// Document 01's slices of a table.
#[derive(Clone, Copy)]
pub struct TableSlices<'a> {
    pub level: &'a [u8],
    pub low: &'a [u32],
    pub high: &'a [u32],
}

// What is looked up: an action, and the codes of the left and the right model's states now and next.
#[derive(Clone, Copy, Debug, PartialEq, Eq)]
pub struct Point {
    pub action: u64,
    pub left_now: u64,
    pub left_next: u64,
    pub right_now: u64,
    pub right_next: u64,
}

// Why a look-up is refused.
#[derive(Clone, Copy, Debug, PartialEq, Eq)]
pub enum LookUpError {
    // The slices are of different lengths, or too short or too long.
    Table,
    // The action or a code is out of range, or the walk leaves the table.
    Outside,
}

impl LookUpError {
    // Its number in document 01.
    pub fn number(self) -> u8
        ensures { result ≡ error_number self }
    {
        match self {
            LookUpError::Table => 7,
            LookUpError::Outside => 10,
        }
    }
}

// The slices of a table are of one length, from 2 to the longest.
#[tactic(auto, unfolding(crate::specs::Lookup::table_fits))]
pub fn slices_fit(table: TableSlices) -> bool
    ensures { result ≡ table_fits (slices table.entry.level.now table.entry.low.now table.entry.high.now) }
{
    let n = table.level.len();
    table.low.len() == n && table.high.len() == n && 2 <= n && n <= MAX_LENGTH as usize
}

// An action of 6 bits, and state codes of at most MAX_BITS.
#[tactic(auto, unfolding(crate::specs::Lookup::small))]
fn is_small(p: Point) -> bool
    ensures { result ≡ small p.action p.left_now p.left_next p.right_now p.right_next }
{
    p.action <= 63
        && p.left_now < CODES
        && p.left_next < CODES
        && p.right_now < CODES
        && p.right_next < CODES
}

// The bit of a look-up at level v: the action's, or that of the code in the level's slot. Middle bits are 0.
#[tactic(auto, using(crate::proofs::Bits::middle_level), unfolding(crate::specs::Lookup::looked_up))]
fn bit_at(v: u8, p: Point) -> bool
    ensures { result ≡ looked_up p.action p.left_now p.left_next p.right_now p.right_next v }
{
    if v < 6 {
        return digit_at(p.action, v);
    }
    let k = (v - 6) / 6;
    match (v - 6) % 6 {
        0 => digit_at(p.left_now, k),
        1 => digit_at(p.left_next, k),
        3 => digit_at(p.right_now, k),
        4 => digit_at(p.right_next, k),
        _ => false,
    }
}

// The walk from an entry: it ends at entry 0 or 1, and each node's level is above the last.
#[tactic(auto, using(crate::proofs::Walking::walk_none, crate::proofs::Walking::walk_end, crate::proofs::Walking::walk_at, crate::proofs::Walking::walk_off))]
fn walk(table: TableSlices, root: u64, p: Point) -> Result<bool, LookUpError>
    requires { (length table.low.now ≡ length table.level.now) × (length table.high.now ≡ length table.level.now) }
    ensures { result ≡ walk_from (last_level + 2) (slices table.entry.level.now table.entry.low.now table.entry.high.now) (looked_up p.action p.left_now p.left_next p.right_now p.right_next) 0 root }
{
    let level = table.level;
    let mut i = root as usize;
    let mut from: u8 = 0;
    for _ in 0..LAST_LEVEL + 2 {
        if i < 2 {
            return Ok(i == 1);
        }
        if level.len() <= i {
            return Err(LookUpError::Outside);
        }
        let v = level[i];
        if v < from || LAST_LEVEL < v {
            return Err(LookUpError::Outside);
        }
        let child = if bit_at(v, p) {
            table.high[i]
        } else {
            table.low[i]
        };
        i = child as usize;
        from = v + 1;
    }
    Err(LookUpError::Outside)
}

// The value at a point, from a root: refusal 7, then 10, else the value. Every number may be anything.
#[tactic(auto, unfolding(crate::specs::Lookup::table_fits, crate::specs::Lookup::look_up))]
pub fn look_up(table: TableSlices, root: u64, p: Point) -> Result<bool, LookUpError>
    ensures { result ≡ look_up (slices table.entry.level.now table.entry.low.now table.entry.high.now) root p.action p.left_now p.left_next p.right_now p.right_next }
{
    if !slices_fit(table) {
        return Err(LookUpError::Table);
    }
    if !is_small(p) {
        return Err(LookUpError::Outside);
    }
    walk(table, root, p)
}
