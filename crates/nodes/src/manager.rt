// The table that calls work on, with what serves them.
ghost use Rattle.std.specs.Prelude.{◌≡◌, ◌-◌, ◌<◌, ◌&&◌, ltb};
ghost use Rattle.nodes.specs.Table.{WellFormed};
ghost use Rattle.nodes.specs.internal.Operate.{Helping};
ghost use Rattle.nodes.specs.internal.Packed.{packed_table};

// There is no entry left for a node that is needed.
#[derive(Clone, Copy, Debug, PartialEq, Eq)]
pub struct Full;

// The table in two slices, the work slice that serves it, and how many entries are in use.
// Kept: nodes are entries with numbers, in slices that the caller lends; document 01 and the C interface have them so, and there is no heap.
#[derive(Drop)]
pub struct Manager<'packed, 'high, 'work> {
    pub(crate) packed: &'packed mut [u32],
    pub(crate) high: &'high mut [u32],
    pub(crate) work: &'work mut [u32],
    pub(crate) used: u32,
    pub(crate) ghost formed: { WellFormed (packed_table packed.now high.now used) },
    pub(crate) ghost helping: { Helping (packed_table packed.now high.now used) work.now },
}

// The nodes of a table with so many entries in use: all of these but the constants.
pub fn node_count(used: u32) -> u32
    ensures { result ≡ used - 2 }
{
    used.saturating_sub(2)
}

impl<'packed, 'high, 'work> Manager<'packed, 'high, 'work> {
    // How many entries are in use.
    pub fn used(&self) -> u32
        ensures { result ≡ self.now.used }
    {
        self.used // the constants too
    }

    // The nodes of the table: its entries in use but the constants.
    pub fn node_count(&self) -> u32
        ensures { result ≡ self.now.used - 2 }
    {
        self.used - 2
    }

    // Whether f and g are entries in use.
    pub(crate) fn are_used(&self, f: u32, g: u32) -> bool
        ensures { result ≡ (ltb f self.now.used && ltb g self.now.used) }
    {
        f < self.used && g < self.used
    }
}
