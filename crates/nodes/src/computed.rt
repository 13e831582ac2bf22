// The computed table: results of operations, in slots of four words, each written over by the next one of its place.
ghost use Rattle.std.specs.Prelude.{◌≤◌, ◌<◌};
ghost use Rattle.nodes.specs.internal.Parts.{memo_in};
ghost use Rattle.nodes.specs.internal.Operate.{last_number, slots_in, HeldIn, Recalled, Remembers};

use super::manager::Manager;
use super::work::{memory_at, slot, slots};

// What the result of an operation is found by: the operation's number, and two entries.
#[derive(Clone, Copy)]
pub(crate) struct Key {
    pub number: u32,
    pub left: u32,
    pub right: u32,
}

// What a slot holds: an operation's number, its two entries and its result; or a number of ∃ and its three results.
// Kept: the number is a word of the memory, where those of ∃ stand behind those of the operations.
#[derive(Clone, Copy)]
pub(crate) struct Slot {
    pub number: u32,
    pub first: u32,
    pub second: u32,
    pub third: u32,
}

impl<'packed, 'high, 'work> Manager<'packed, 'high, 'work> {
    // The slot of three numbers.
    // Kept: 0 where the memory has no slot: who reads or writes it tests it anyway, as no call promises how many slots it leaves; an Option would be one test more.
    pub(crate) fn slot_for(&self, a: u32, b: u32, c: u32) -> usize
        ensures { 0 < slots_in self.now.work.now → result < slots_in self.now.work.now }
    {
        let n = slots(self.work);
        if n == 0 {
            return 0;
        }
        slot(a, b, c, n)
    }

    // What slot s of the memory holds, if there is that slot and it is not empty.
    pub(crate) fn held_in(&self, s: usize) -> Option<Slot>
        ensures { HeldIn (memo_in self.now.work.now) result }
    {
        if slots(self.work) <= s {
            return None;
        }
        let at = memory_at(self.work) + 4 * s;
        Some(Slot {
            number: self.work[at].checked_sub(1)?,
            first: self.work[at + 1],
            second: self.work[at + 2],
            third: self.work[at + 3],
        })
    }

    // The result of an operation, where slot s of the memory has it.
    pub(crate) fn recall(&self, s: usize, key: Key) -> Option<u32>
        ensures { Recalled (memo_in self.now.work.now) key result }
    {
        let held = self.held_in(s)?;
        if held.number == key.number && held.first == key.left && held.second == key.right {
            return Some(held.third);
        }
        None
    }
}

// Writes to slot s of the memory, if it has that slot, in the place of what was there.
pub(crate) fn remember(work: &mut [u32], s: usize, x: Slot)
    requires { x.number ≤ last_number }
    ensures { Remembers work.old x work.new }
{
    if slots(work) <= s {
        return;
    }
    let at = memory_at(work) + 4 * s;
    work[at] = x.number + 1;
    work[at + 1] = x.first;
    work[at + 2] = x.second;
    work[at + 3] = x.third;
}
