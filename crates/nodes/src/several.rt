// Several levels, one after the other.
ghost use Rattle.std.specs.Prelude.{◌≡◌, ◌≤◌};
ghost use Rattle.nodes.specs.Table.{last_level};
ghost use Rattle.nodes.specs.Formula.{renamed, fix_below};
ghost use Rattle.nodes.specs.internal.Several.{some_from, renamed_from, Alike};
ghost use Rattle.nodes.specs.internal.Lent.{entering, leaving, entry_of};
ghost use Rattle.nodes.specs.internal.Work.{Maps};

use super::levels::{Level, Levels, digit_at};
use super::manager::{Full, Manager};

impl<'packed, 'high, 'work> Manager<'packed, 'high, 'work> {
    // The entry of f with level v renamed to w: ∃v((v = w) ∧ f).
    pub fn rename(&mut self, f: u32, v: Level, w: Level) -> Result<u32, Full>
        requires { v.v ≡ w.v → ⊥ }
        ensures { Maps (entering self.old) (leaving self.new result) (renamed v.v w.v) f (entry_of result) }
    {
        if !self.are_used(f, f) {
            return Ok(f);
        }
        let e = self.same(v, w)?;
        let g = self.and(e, f)?;
        self.exists(g, v)
    }

    // ∃ of the levels, highest first.
    pub fn exists_from(&mut self, f: u32, levels: Levels) -> Result<u32, Full>
        ensures { Maps (entering self.old) (leaving self.new result) (some_from levels.first levels.apart levels.count) f (entry_of result) }
    {
        let mut g = f;
        for k in (0..levels.count).rev() {
            g = self.exists(g, levels.at(k))?;
        }
        Ok(g)
    }

    // The levels renamed to others, as many and as far apart, highest first.
    pub fn rename_from(&mut self, f: u32, from: Levels, to: Levels) -> Result<u32, Full>
        requires { Alike from to }
        ensures { Maps (entering self.old) (leaving self.new result) (renamed_from from.first to.first from.apart from.count) f (entry_of result) }
    {
        let mut g = f;
        for k in (0..from.count).rev() {
            g = self.rename(g, from.at(k), to.at(k))?;
        }
        Ok(g)
    }

    // The levels below n fixed to the digits of c, upward.
    pub fn fix_below(&mut self, f: u32, n: u8, c: u32) -> Result<u32, Full>
        requires { n ≤ last_level }
        ensures { Maps (entering self.old) (leaving self.new result) (fix_below n c) f (entry_of result) }
    {
        let mut g = f;
        for v in 0..n {
            g = self.fix(g, Level { v }, digit_at(c as u64, v))?;
        }
        Ok(g)
    }
}
