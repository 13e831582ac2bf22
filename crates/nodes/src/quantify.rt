// ∃ of a level by one recursion, which works out its three functions at a time.
// Kept: `recall`, `settle`, `finish` and `operate` for three answers: one form, `fn work_out<A: Asked>(&mut self, a: A) -> Result<A::Answer, Full>`, needs a trait of keys and steps with laws, and each body again in its impls.
ghost use Rattle.std.specs.Prelude.{◌≡◌, ◌≤◌, ◌<◌};
ghost use Rattle.nodes.specs.internal.Parts.{memo_in};
ghost use Rattle.nodes.specs.internal.Operate.{last_number, quantifying};
ghost use Rattle.nodes.specs.Table.{max_length, level_of, den};
ghost use Rattle.nodes.specs.internal.Lent.{table_of, entering, leaving};
ghost use Rattle.nodes.specs.internal.Quantify.{MakeableThree, MeantThree, node_funs, results_of, RecalledThree, Trebling};

use super::apply::Operation;
use super::computed::{Slot, remember};
use super::levels::Level;
use super::limits::{CONSTANT_LEVEL, LAST_LEVEL};
use super::manager::{Full, Manager};
use super::unique::Node;

// The entries of a function with a level fixed to 0, fixed to 1, and of the ∨ of the two.
#[derive(Clone, Copy)]
pub struct Trio {
    pub zero: u32,
    pub one: u32,
    pub any: u32,
}

// The first number of ∃, behind those of the operations.
const FIRST_NUMBER: u32 = 5 + 2 * (LAST_LEVEL as u32);

// How many numbers of ∃ an entry has: one for every level that an entry may have.
const LEVELS_EACH: u32 = (CONSTANT_LEVEL as u32) + 1;

// The number under which the memory has the results of ∃v f: no operation's.
fn number_of(v: Level, f: u32) -> u32
    requires { f < max_length }
    ensures { (result ≡ quantifying v.v f) × (result ≤ last_number) }
{
    FIRST_NUMBER + (v.v as u32) + f * LEVELS_EACH
}

impl<'packed, 'high, 'work> Manager<'packed, 'high, 'work> {
    // The results of ∃v f, where slot s of the memory has them.
    fn recall_three(&self, s: usize, v: Level, f: u32) -> Option<Trio>
        requires { f < max_length }
        ensures { RecalledThree (memo_in self.now.work.now) (quantifying v.v f) result }
    {
        let held = self.held_in(s)?;
        if held.number == number_of(v, f) {
            return Some(Trio {
                zero: held.first,
                one: held.second,
                any: held.third,
            });
        }
        None
    }

    // Makes the three nodes of level l whose children are the entries of a and of b. The ∨ is often the first of them.
    fn make_three(&mut self, level: u8, a: Trio, b: Trio) -> Result<Trio, Full>
        requires { MakeableThree (table_of self.old) level a b }
        ensures { Trebling (entering self.old) (leaving self.new result) (node_funs (table_of self.old) level a b) result }
    {
        let zero = self.make(Node {
            level,
            low: a.zero,
            high: b.zero,
        })?;
        let one = self.make(Node {
            level,
            low: a.one,
            high: b.one,
        })?;
        if a.any == a.zero && b.any == b.zero {
            return Ok(Trio {
                zero,
                one,
                any: zero,
            });
        }
        let any = self.make(Node {
            level,
            low: a.any,
            high: b.any,
        })?;
        Ok(Trio { zero, one, any })
    }

    // Makes them, and remembers them in slot s as the results of ∃v f.
    fn finish_three(
        &mut self,
        level: u8,
        a: Trio,
        b: Trio,
        s: usize,
        v: Level,
        f: u32,
    ) -> Result<Trio, Full>
        requires makeable { MakeableThree (table_of self.old) level a b }
        requires meant { MeantThree (table_of self.old) v f (node_funs (table_of self.old) level a b) }
        ensures { Trebling (entering self.old) (leaving self.new result) (node_funs (table_of self.old) level a b) result }
    {
        let r = self.make_three(level, a, b)?;
        let slot = Slot {
            number: number_of(v, f),
            first: r.zero,
            second: r.one,
            third: r.any,
        };
        remember(self.work, s, slot);
        Ok(r)
    }

    // The results of ∃v f, where f's level l is v or above it: f itself, or its children and their ∨.
    fn settle_three(&mut self, v: Level, f: u32, l: u8) -> Result<Trio, Full>
        requires used { f < self.old.used }
        requires top_level { (l ≡ level_of (table_of self.old) f) × (v.v ≤ l) }
        ensures { Trebling (entering self.old) (leaving self.new result) (results_of v.v (den (table_of self.old) f)) result }
    {
        if v.v < l {
            return Ok(Trio {
                zero: f,
                one: f,
                any: f,
            });
        }
        let c = self.cofactors(v, f);
        let any = self.operate(Operation::Or, c.low, c.high)?;
        Ok(Trio {
            zero: c.low,
            one: c.high,
            any,
        })
    }

    // The entries of what f stands for with level v fixed to 0, fixed to 1, and of ∃v.
    pub(crate) fn quantify(&mut self, v: Level, f: u32) -> Result<Trio, Full>
        requires { f < self.old.used }
        ensures { Trebling (entering self.old) (leaving self.new result) (results_of v.v (den (table_of self.old) f)) result }
    {
        let l = self.level(f);
        if v.v <= l {
            return self.settle_three(v, f, l);
        }
        let s = self.slot_for(v.v as u32, f, 0);
        if let Some(r) = self.recall_three(s, v, f) {
            return Ok(r);
        }
        let c = self.cofactors(Level { v: l }, f);
        let a = self.quantify(v, c.low)?;
        let b = self.quantify(v, c.high)?;
        self.finish_three(l, a, b, s, v, f)
    }
}
