// The value where every variable is 0.
ghost use Rattle.std.specs.Prelude.{◌≡◌};
ghost use Rattle.nodes.specs.Table.{WellFormed};
ghost use Rattle.nodes.specs.internal.Lent.{table_of};
ghost use Rattle.nodes.specs.internal.Packed.{packed_table};
ghost use Rattle.nodes.specs.internal.Zero.{holds_at_zero};

use super::limits::MAX_LENGTH;
use super::manager::Manager;

// Whether root is an entry in use whose function holds where every variable is 0: the walk goes by low children.
#[tactic(auto, using(crate::proofs::Parting::levels_length, crate::proofs::Parting::low_at, crate::proofs::Zeros::zeros_low, crate::proofs::Zeros::zeros_end, crate::proofs::Zeros::low_earlier))]
pub fn holds_at_zero(packed: &[u32], high: &[u32], used: u32, root: u32) -> bool
    requires { WellFormed (packed_table packed.now high.now used) }
    ensures { result ≡ holds_at_zero (packed_table packed.now high.now used) root }
{
    if used <= root {
        return false;
    }
    let mut k = root;
    // Kept: the walk ends at an entry, not after a count.
    while 1 < k {
        k = packed[k as usize] % MAX_LENGTH;
    }
    k == 1
}

impl<'packed, 'high, 'work> Manager<'packed, 'high, 'work> {
    // The same of the manager's table.
    pub fn holds_at_zero(&self, root: u32) -> bool
        ensures { result ≡ holds_at_zero (table_of self.now) root }
    {
        holds_at_zero(self.packed, self.high, self.used, root)
    }
}
