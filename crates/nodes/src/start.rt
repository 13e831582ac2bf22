// How a table begins, and how it is left in the three slices of document 01.
ghost use Rattle.std.specs.Prelude.{◌≡◌, length};
ghost use Rattle.nodes.specs.internal.Index.{Indexing};
ghost use Rattle.nodes.specs.internal.Operate.{Helping};
ghost use Rattle.nodes.specs.internal.Packed.{packed_table};
ghost use Rattle.nodes.specs.internal.Start.{Clear, Fits, Starts, Resumes, Forgets, TakesIndex, Unpacked};
ghost use Rattle.nodes.specs.Table.{WellFormed};

use super::limits::{CONSTANT_LEVEL, MAX_LENGTH};
use super::manager::Manager;
use super::work::memory_at;

// The word of entry 0: the level of the constants, and itself for its child.
const CONSTANT_WORD: u32 = (CONSTANT_LEVEL as u32) * MAX_LENGTH;

// Writes the constants to the first two entries: each is its own child.
fn constants(packed: &mut [u32], high: &mut [u32])
    requires { Fits packed.old high.old }
    ensures { WellFormed (packed_table packed.new high.new 2) }
{
    packed[0] = CONSTANT_WORD;
    packed[1] = CONSTANT_WORD + 1;
    high[0] = 0;
    high[1] = 1;
}

// Empties the memory of results.
fn forget(work: &mut [u32])
    ensures { Forgets work.old work.new }
{
    let first = memory_at(work);
    for i in first..work.len() {
        work[i] = 0;
    }
}

impl<'packed, 'high, 'work> Manager<'packed, 'high, 'work> {
    // A table of the constants alone, with an empty index and memory. The parts of `work` are cut by the table's length, which goes to its
    // first word.
    pub fn new(
        packed: &'packed mut [u32],
        high: &'high mut [u32],
        work: &'work mut [u32],
    ) -> Manager<'packed, 'high, 'work>
        requires { Fits packed.old high.old }
        ensures { Starts packed.entry high.entry work.entry result }
    {
        constants(packed, high);
        work.fill(0);
        if let Some(first) = work.first_mut() {
            *first = packed.len() as u32;
        }
        Manager {
            packed,
            high,
            work,
            used: 2,
        }
    }

    // A table that stands in the slices, with so many entries in use, and a work slice that serves it: so a caller goes on where another
    // manager ended, with the same slices or with others that hold the same.
    pub fn resume(
        packed: &'packed mut [u32],
        high: &'high mut [u32],
        work: &'work mut [u32],
        used: u32,
    ) -> Manager<'packed, 'high, 'work>
        requires formed { WellFormed (packed_table packed.old high.old used) }
        requires helping { Helping (packed_table packed.old high.old used) work.old }
        ensures { Resumes packed.entry high.entry work.entry used result }
    {
        Manager {
            packed,
            high,
            work,
            used,
        }
    }

    // The same where `work` has an index of the table, and anything in the place of the results, which is emptied.
    pub fn with_index(
        packed: &'packed mut [u32],
        high: &'high mut [u32],
        work: &'work mut [u32],
        used: u32,
    ) -> Manager<'packed, 'high, 'work>
        requires formed { WellFormed (packed_table packed.old high.old used) }
        requires indexing { Indexing (packed_table packed.old high.old used) work.old }
        ensures { TakesIndex packed.entry high.entry work.entry used result }
    {
        forget(work);
        Manager::resume(packed, high, work, used)
    }
}

// Leaves a table in document 01's three slices: the levels of the entries in use go to `level`, and their low children stay in `low`.
// Of other entries, or more than there are, nothing is asked, and nothing promised.
// Kept: a public function of any three slices, as document 01 has a table; as a method it would take the manager that holds two of them apart.
pub fn unpack(level: &mut [u8], low: &mut [u32], high: &[u32], used: u32)
    requires { length level.old ≡ length low.old }
    ensures { WellFormed (packed_table low.old high.now used) → Unpacked (packed_table low.old high.now used) level.new low.new high.now }
{
    let n = low.len().min(used as usize);
    for i in 0..n {
        let word = low[i];
        level[i] = (word / MAX_LENGTH % 256) as u8; // a byte in any case
        low[i] = word % MAX_LENGTH;
    }
}
