// Levels of nodes, and those at which a number's digits stand.
ghost use Rattle.std.specs.Prelude.{◌≡◌, ◌+◌, ◌-◌, ◌*◌, ◌≤◌, ◌<◌};
ghost use Rattle.nodes.specs.Table.{last_level};
ghost use Rattle.nodes.specs.Formula.{bit};
ghost use Rattle.nodes.specs.internal.Spaced.{Spaced};

// A level that a node may have.
#[derive(Clone, Copy)]
pub struct Level {
    pub v: u8,
    pub ghost fits: { v ≤ last_level },
}

// So many levels of nodes, the first one and others behind it that are `apart` from each other: where the digits of a number stand, the lowest first.
#[derive(Clone, Copy)]
pub struct Levels {
    pub first: u8,
    pub apart: u8,
    pub count: u8,
    pub ghost spaced: { Spaced first apart count 1 },
}

impl Levels {
    // The one that digit k stands at.
    pub(crate) fn at(self, k: u8) -> Level
        requires { k < self.count }
        ensures { result.v ≡ self.first + k * self.apart }
    {
        Level {
            v: self.first + k * self.apart,
        }
    }

    // Those behind the first.
    pub(crate) fn rest(self) -> Levels
        requires { 0 < self.count }
        ensures { (result.first ≡ self.first + self.apart) × (result.apart ≡ self.apart) × (result.count ≡ self.count - 1) }
    {
        Levels {
            first: self.first + self.apart,
            apart: self.apart,
            count: self.count - 1,
        }
    }
}

// Binary digit k of n.
pub(crate) fn digit_at(n: u64, k: u8) -> bool
    ensures { result ≡ bit n k }
{
    n.checked_shr(k as u32).unwrap_or(0) % 2 == 1
}
