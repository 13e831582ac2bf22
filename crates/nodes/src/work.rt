// The work slice: a hash, and the parts behind its first word, which holds the table's length.
// Kept: functions of the lent slice: a struct of it, `struct Work<'a> { words: &'a mut [u32] }`, would hold nothing else and only put `self.words` for `work`.
ghost use Rattle.std.specs.Prelude.{◌≡◌, cond, ◌-◌, ◌%◌, ◌<◌, ltb};
ghost use Rattle.nodes.specs.internal.Parts.{parted, covers, hashes, memory_at, links_in, heads_in};
ghost use Rattle.nodes.specs.internal.Operate.{slots_in};
ghost use Rattle.nodes.specs.internal.Index.{hash_of, coverage};

// x, less m where it has that much.
fn lessened(x: usize, m: usize) -> usize
    ensures { result ≡ cond (ltb x m) x (x - m) }
{
    x.checked_sub(m).unwrap_or(x)
}

// x % n, without a division where x is below 8 n.
#[tactic(auto, using(crate::proofs::Remainders::remainder_is))]
fn remainder(x: usize, n: usize) -> usize
    requires { 0 < n }
    ensures { result ≡ x % n }
{
    if x / 8 < n && n < 1099511627776 {
        return lessened(lessened(lessened(x, 4 * n), 2 * n), n);
    }
    x % n
}

// A place below n for the node of level v with children lo and hi: by the larger child, spread by the level and the smaller
// one, so that nodes made one after the other are found in few cache lines.
#[tactic(auto, unfolding(crate::specs::internal::Index::hash_of))]
pub(crate) fn hash(v: u32, lo: u32, hi: u32, n: usize) -> usize
    requires { 0 < n }
    ensures { (result ≡ hash_of v lo hi n) × (result < n) }
{
    let near = lo.max(hi) as usize;
    let far = lo.min(hi) as usize;
    let x = 7 * (v as usize) + 2 * near + far % 1024;
    if x < n {
        return x;
    }
    remainder(x, n)
}

// A slot below n for the result of an operation with three numbers.
pub(crate) fn slot(a: u32, b: u32, c: u32, n: usize) -> usize
    requires { 0 < n }
    ensures { result < n }
{
    remainder(3 * (a as usize) + (b as usize) + 2 * (c as usize), n)
}

// How many words there are behind the first.
fn parted(work: &[u32]) -> usize
    ensures { result ≡ parted work.now }
{
    work.len().saturating_sub(1)
}

// How many entries have a link: as many as the first word says, the table's length, but at most half of the words behind it.
#[tactic(auto, unfolding(crate::specs::internal::Parts::covers))]
pub(crate) fn covers(work: &[u32]) -> usize
    ensures { result ≡ covers work.now }
{
    let Some(entries) = work.first() else {
        return 0;
    };
    (*entries as usize).min(parted(work) / 2)
}

// How many heads the index has.
#[tactic(auto, using(crate::proofs::Parting::index_fits), unfolding(crate::specs::internal::Parts::hashes))]
pub(crate) fn hashes(work: &[u32]) -> usize
    ensures { result ≡ hashes work.now }
{
    (parted(work) - covers(work)) / 2
}

// Where the memory begins.
#[tactic(auto, using(crate::proofs::Parting::index_fits))]
pub(crate) fn memory_at(work: &[u32]) -> usize
    ensures { result ≡ memory_at work.now }
{
    1 + covers(work) + hashes(work)
}

// How many entries the index covers.
#[tactic(auto, using(crate::proofs::Holding::work_uncovered, crate::proofs::Holding::work_coverage))]
pub(crate) fn covered(work: &[u32]) -> usize
    ensures { result ≡ coverage (heads_in work.now) (links_in work.now) }
{
    if hashes(work) == 0 {
        return 0;
    }
    covers(work)
}

// How many slots the memory has.
#[tactic(auto, using(crate::proofs::Parting::index_fits))]
pub(crate) fn slots(work: &[u32]) -> usize
    ensures { result ≡ slots_in work.now }
{
    (parted(work) - covers(work) - hashes(work)) / 4
}
