// The unique table: a node is found by its level and its children, and made only where there is none.
ghost use Rattle.std.specs.Prelude.{◌≡◌, ◌<◌, ◌≤◌, None};
ghost use Rattle.std.specs.Bool.{Decides};
ghost use Rattle.nodes.specs.internal.Parts.{links_in, heads_in};
ghost use Rattle.nodes.specs.Table.{max_length, WellFormed};
ghost use Rattle.nodes.specs.internal.Index.{coverage, Indexing, InIndex, Begins, LinkingAt};
ghost use Rattle.nodes.specs.internal.Make.{Makeable, IsNode, FindsFrom, FindsBelow, Finds, Makes, IsNew, held, node_fun};
ghost use Rattle.nodes.specs.internal.Packed.{packing, packed_table};
ghost use Rattle.nodes.specs.internal.Lent.{table_of, held_by, entering, leaving};
ghost use Rattle.nodes.specs.internal.Work.{Keeps};

use super::limits::MAX_LENGTH;
use super::manager::{Full, Manager};
use super::work::{covered, covers, hash, hashes};

// A node: its level, its low child and its high child.
#[derive(Clone, Copy)]
pub struct Node {
    pub level: u8,
    pub low: u32,
    pub high: u32,
}

impl Node {
    // What `packed` has of it: its level and its low child in one word.
    fn word(self) -> u32
        requires { self.low < max_length }
        ensures { result ≡ packing self.level self.low }
    {
        (self.level as u32) * MAX_LENGTH + self.low
    }
}

// Puts the new node `used` before the others of the chain that begins at `head`, where the index covers it.
fn link(work: &mut [u32], used: u32, head: Option<usize>)
    requires { InIndex work.old head }
    ensures { LinkingAt work.old used head work.new }
{
    let Some(head) = head else {
        return;
    };
    let at = used as usize;
    if at < covers(work) {
        work[1 + at] = work[head];
        work[head] = used;
    }
}

// Writes a node that the table lacks to the first entry that is not in use, and puts it into the chain that begins at `head`.
// Kept: slices and the count, as `make` has them: what a manager's ghost fields say does not hold before all of them are written.
fn add(
    packed: &mut [u32],
    high: &mut [u32],
    work: &mut [u32],
    used: &mut u32,
    head: Option<usize>,
    node: Node,
) -> Result<u32, Full>
    requires makeable { Makeable (packed_table packed.old high.old used.old) node.level node.low node.high }
    requires differ { node.low ≡ node.high → ⊥ }
    requires lacking { Finds (packed_table packed.old high.old used.old) node.level node.low node.high None }
    requires indexing { Indexing (packed_table packed.old high.old used.old) work.old }
    requires begins { Begins work.old node.level node.low node.high head }
    ensures makes { Makes (held packed.old high.old work.old used.old) (held packed.new high.new work.new used.new) (node_fun (packed_table packed.old high.old used.old) node.level node.low node.high) result }
    ensures is_new { IsNew used.old used.new result }
{
    let i = *used;
    let at = i as usize;
    if packed.len() <= at {
        return Err(Full);
    }
    packed[at] = node.word();
    high[at] = node.high;
    link(work, i, head);
    *used += 1;
    Ok(i)
}

// The unique table, to be searched: a table in two slices, and a work slice whose index is right. Of what stands behind the index nothing is said.
#[derive(Clone, Copy)]
struct UniqueTable<'a> {
    packed: &'a [u32],
    high: &'a [u32],
    work: &'a [u32],
    used: u32,
    ghost formed: { WellFormed (packed_table packed.now high.now used) },
    ghost indexing: { Indexing (packed_table packed.now high.now used) work.now },
}

impl<'a> UniqueTable<'a> {
    // Where the chain of a node begins: the place of its head in `work`, if the index has heads.
    fn head_of(&self, node: Node) -> Option<usize>
        ensures { Begins self.now.work.now node.level node.low node.high result }
    {
        let n = hashes(self.work);
        if n == 0 {
            return None;
        }
        Some(1 + covers(self.work) + hash(node.level as u32, node.low, node.high, n))
    }

    // Whether the node is entry i.
    fn is_at(&self, node: Node, i: u32) -> bool
        requires { (node.low < max_length) × (2 ≤ i) × (i < self.now.used) }
        ensures { Decides result (IsNode (packed_table self.now.packed.now self.now.high.now self.now.used) node.level node.low node.high i) }
    {
        let at = i as usize;
        self.packed[at] == node.word() && self.high[at] == node.high
    }

    // The node, if it is one of the entries from `from` on.
    fn find_from(&self, from: usize, node: Node) -> Option<u32>
        requires { node.low < max_length }
        ensures { FindsFrom from (packed_table self.now.packed.now self.now.high.now self.now.used) node.level node.low node.high result }
    {
        if (self.used as usize) <= from {
            return None;
        }
        let first = (from as u32).max(2);
        (first..self.used).find(|&i| self.is_at(node, i))
    }

    // The same among the entries that the index covers, by their chain.
    fn find_chained(&self, head: Option<usize>, node: Node) -> Option<u32>
        requires begins { Begins self.now.work.now node.level node.low node.high head }
        requires low_fits { node.low < max_length }
        ensures { FindsBelow (coverage (heads_in self.now.work.now) (links_in self.now.work.now)) (packed_table self.now.packed.now self.now.high.now self.now.used) node.level node.low node.high result }
    {
        let mut i = self.work[head?];
        // Kept: a chain gives the next entry, not a count.
        while 2 <= i {
            if self.is_at(node, i) {
                return Some(i);
            }
            i = self.work[1 + i as usize];
        }
        None
    }

    // The same among all entries in use.
    // Kept: with `.or_else(|| self.find_from(covered(self.work), node))` the proof did not close: what it ensured said nothing of the closure's answer.
    fn find(&self, head: Option<usize>, node: Node) -> Option<u32>
        requires begins { Begins self.now.work.now node.level node.low node.high head }
        requires low_fits { node.low < max_length }
        ensures { Finds (packed_table self.now.packed.now self.now.high.now self.now.used) node.level node.low node.high result }
    {
        let found = self.find_chained(head, node);
        if found.is_some() {
            return found;
        }
        self.find_from(covered(self.work), node)
    }
}

// The entry of the function that is the high child's where the node's level is true and the low child's elsewhere: a node is made only
// where there is none. It asks of the work slice that its index is right, and leaves what stands in the place of results as it is.
// Kept: a function of slices, beside the method of a manager, whose memory of results is right, too.
pub fn make(
    packed: &mut [u32],
    high: &mut [u32],
    work: &mut [u32],
    used: &mut u32,
    node: Node,
) -> Result<u32, Full>
    requires makeable { Makeable (packed_table packed.old high.old used.old) node.level node.low node.high }
    requires indexing { Indexing (packed_table packed.old high.old used.old) work.old }
    ensures { Makes (held packed.old high.old work.old used.old) (held packed.new high.new work.new used.new) (node_fun (packed_table packed.old high.old used.old) node.level node.low node.high) result }
{
    if node.low == node.high {
        return Ok(node.low);
    }
    let table = UniqueTable {
        packed,
        high,
        work,
        used: *used,
    };
    let head = table.head_of(node);
    if let Some(i) = table.find(head, node) {
        return Ok(i);
    }
    add(packed, high, work, used, head, node)
}

impl<'packed, 'high, 'work> Manager<'packed, 'high, 'work> {
    // The same in a manager.
    pub fn make(&mut self, node: Node) -> Result<u32, Full>
        requires { Makeable (table_of self.old) node.level node.low node.high }
        ensures kept { Keeps (entering self.old) (leaving self.new result) }
        ensures makes { Makes (held_by self.old) (held_by self.new) (node_fun (table_of self.old) node.level node.low node.high) result }
    {
        make(self.packed, self.high, self.work, &mut self.used, node)
    }
}
