// The library for C and Rust: thin exports of the comparison, the look-up and what a text's model is. A slice is a pointer and a length.
#![tactic(auto)]

pub mod model;

ghost use Rattle.std.specs.Prelude.{◌≡◌, ◌+◌, ◌≤◌, ℕ, ◌∷◌, [], length};
ghost use Rattle.nodes.specs.Lookup.{slices, look_up};
ghost use Rattle.verdicts.specs.Contract.{values_of_verdict};
ghost use Rattle.seipolku.specs.Exported.{six, last_words, written, kind_of, Exported, numbered};

use nodes::lookup::{Point, TableSlices, look_up};
use verdicts::answer::{CompareError, Comparison, Nodes, SPENT, Verdict};
use verdicts::compare::compare;

// The words of an answer.
const WORDS: usize = 12;

// The three words of a verdict.
// Kept: numbers, as the C interface has them.
#[derive(Clone, Copy)]
struct VerdictWords {
    number: u64,
    rounds: u64,
    iterate: u64,
}

// Writes six words, from the place `at` on.
fn put(words: &mut [u64], at: usize, values: [u64; 6])
    requires { at + 6 ≤ length words.old }
    ensures { (a b c d e f : ℕ) → values ≡ a ∷ b ∷ c ∷ d ∷ e ∷ f ∷ [] → words.new ≡ six words.old at a b c d e f }
{
    words[at..at + 6].copy_from_slice(&values);
}

// Writes the last six of the twelve words: the two that are left of the weak verdict, and the nodes of the whole list, up to the relations, and
// up to the weak answers.
fn put_nodes(words: &mut [u64], rounds: u64, iterate: u64, nodes: Nodes)
    requires { 12 ≤ length words.old }
    ensures { words.new ≡ last_words words.old rounds iterate nodes }
{
    let whole = nodes.whole as u64;
    let relations = nodes.relations as u64;
    let answers = nodes.answers as u64;
    put(words, 6, [rounds, iterate, whole, relations, answers, 0]);
}

// A verdict's words, by its number and values.
impl From<Verdict> for VerdictWords {
    ghost from_gives = { λ v w. (w.number ≡ (values_of_verdict v).number) × (w.rounds ≡ (values_of_verdict v).rounds) × (w.iterate ≡ (values_of_verdict v).iterate) };

    fn from(verdict: Verdict) -> VerdictWords {
        match verdict {
            Verdict::Equal { iterate, rounds } => VerdictWords {
                number: 0,
                rounds,
                iterate: iterate as u64,
            },
            Verdict::Different { rounds } => VerdictWords {
                number: 1,
                rounds,
                iterate: 0,
            },
            Verdict::Spent => VerdictWords {
                number: SPENT as u64,
                rounds: 0,
                iterate: 0,
            },
        }
    }
}

// Writes an answer's words, and returns 0 answered or 2 refused.
fn write(answer: Result<Comparison, CompareError>, words: &mut [u64]) -> u64
    requires { 12 ≤ length words.old }
    ensures { (result ≡ kind_of answer) × (words.new ≡ written words.old answer) }
{
    match answer {
        Ok(a) => {
            let s = VerdictWords::from(a.strong);
            let w = VerdictWords::from(a.weak);
            let left = a.left as u64;
            let right = a.right as u64;
            put(
                words,
                0,
                [left, right, s.number, s.rounds, s.iterate, w.number],
            );
            put_nodes(words, w.rounds, w.iterate, a.nodes);
            0
        }
        Err(e) => {
            put(
                words,
                0,
                [e.number() as u64, e.side() as u64, e.line() as u64, 0, 0, 0],
            );
            put_nodes(words, 0, 0, e.nodes());
            2
        }
    }
}

// Compares two models: 0 answered, 2 refused, with the answer's twelve words; 3 where answer has fewer, and then nothing is touched.
// Kept: slices and numbers are the C interface.
#[unsafe(no_mangle)]
pub extern "C" fn seipolku_compare(
    left: &[u8],
    right: &[u8],
    limit: u64,
    level: &mut [u8],
    low: &mut [u32],
    high: &mut [u32],
    work: &mut [u32],
    answer: &mut [u64],
) -> u64
    ensures { Exported left.now right.now limit (slices level.old low.old high.old) (slices level.new low.new high.new) work.old work.new answer.old answer.new result }
{
    if answer.len() < WORDS {
        return 3;
    }
    let a = compare(left, right, limit, level, low, high, work);
    write(a, answer)
}

// Looks a value up: 0 or 1, else 7 or 10.
// Kept: slices and numbers are the C interface.
#[unsafe(no_mangle)]
pub extern "C" fn seipolku_look_up(
    level: &[u8],
    low: &[u32],
    high: &[u32],
    root: u64,
    action: u64,
    left_now: u64,
    left_next: u64,
    right_now: u64,
    right_next: u64,
) -> u64
    ensures { result ≡ numbered (look_up (slices level.now low.now high.now) root action left_now left_next right_now right_next) }
{
    let point = Point {
        action,
        left_now,
        left_next,
        right_now,
        right_next,
    };
    match look_up(TableSlices { level, low, high }, root, point) {
        Ok(value) => value as u64,
        Err(e) => e.number() as u64,
    }
}
