// Reads left.hex and right.hex, compares the models, and prints the strong and the weak verdict.
#![tactic(auto)]

ghost use Rattle.std.specs.Prelude.{◌≡◌, ◌<◌, ◌≤◌, length, IfSome};
ghost use Rattle.verdicts.specs.Bisimulation.{strong, weak};
ghost use Rattle.verdicts.specs.Contract.{values_of_verdict};
ghost use Rattle.checking.specs.Program.{max_text, round_limit, verdict_line, line_in, Printed};

use std::io::Read;
use std::rt::Files;
use std::{fmt, fs, io};
use verdicts::answer::{CompareError, Comparison, NEITHER, SPENT, Verdict};
use verdicts::compare::compare;

// The largest text: 64 lines of 255 bytes, two digits a byte, with their 0A.
const MAX_TEXT: usize = 32704;

// The entries of the table.
const LENGTH: usize = 4096;

// The most rounds.
const LIMIT: u64 = 1000000;

// What the line of one mode says.
// Kept: by numbers, as `line_in` is; `Spent` and `Refused(CompareError)` would leave the numbers to `fmt`, of which nothing is proved.
#[derive(Clone, Copy)]
pub enum Line {
    Equal { rounds: u64, nodes: u32 },
    Different { rounds: u64, nodes: u32 },
    Refused { number: u8, side: u8, line: usize },
}

// What both lines say.
// Kept: `Modes<Line>` would be the same two fields, in a name that says less.
#[derive(Clone, Copy)]
pub struct Lines {
    pub strong: Line,
    pub weak: Line,
}

impl fmt::Display for Line {
    fn fmt<W: fmt::Write>(&self, f: &mut fmt::Formatter<W>) -> fmt::Result {
        match self {
            Line::Equal { rounds, nodes } => write!(f, "equal {rounds} {nodes}"),
            Line::Different { rounds, nodes } => write!(f, "different {rounds} {nodes}"),
            Line::Refused { number, side, line } => { write!(f, "refused {number} {side} {line}") }
        }
    }
}

// Reads to the input's end: its bytes, if it ends before buf is full and no read fails.
fn read_rest<'b, R: Read>(file: &mut R, buf: &'b mut [u8]) -> Option<&'b [u8]>
    ensures { IfSome result (λ bytes. length bytes.now < length buf.old) }
{
    let mut done = 0;
    // Kept: `read_to_end`, which reads it all in one call, needs a heap.
    while done < buf.len() {
        let count = file.read(&mut buf[done..]).ok()?;
        if count == 0 {
            return Some(&buf[..done]);
        }
        done += count;
    }
    None
}

// A file's bytes, if it can be read and they are at most MAX_TEXT.
fn text<'b>(rt: &impl Files, path: &str, buf: &'b mut [u8; MAX_TEXT + 1]) -> Option<&'b [u8]>
    ensures { IfSome result (λ bytes. length bytes.now ≤ max_text) }
{
    let mut file = fs::open(rt, path).ok()?;
    read_rest(&mut file, buf)
}

// What a verdict's line says, with the nodes of its comparison.
fn line_of(verdict: Verdict, nodes: u32) -> Line
    ensures { result ≡ verdict_line (values_of_verdict verdict) nodes }
{
    match verdict {
        Verdict::Equal { rounds, .. } => Line::Equal { rounds, nodes },
        Verdict::Different { rounds } => Line::Different { rounds, nodes },
        Verdict::Spent => Line::Refused {
            number: SPENT,
            side: NEITHER,
            line: 0,
        },
    }
}

// What both lines say; a refusal of the comparison stands on both.
fn lines_of(answer: Result<Comparison, CompareError>) -> Lines
    ensures { (result.strong ≡ line_in strong answer) × (result.weak ≡ line_in weak answer) }
{
    match answer {
        Ok(a) => Lines {
            strong: line_of(a.strong, a.nodes.whole),
            weak: line_of(a.weak, a.nodes.whole),
        },
        Err(e) => {
            let line = Line::Refused {
                number: e.number(),
                side: e.side(),
                line: e.line(),
            };
            Lines {
                strong: line,
                weak: line,
            }
        }
    }
}

// Compares two texts by the iterates up to a limit: what both lines say.
fn compare_within(left: &[u8], right: &[u8], limit: u64) -> Lines
    ensures { Printed left.now right.now limit result }
{
    let mut level = [0u8; LENGTH];
    let mut low = [0u32; LENGTH];
    let mut high = [0u32; LENGTH];
    let mut work = [0u32; 4 * LENGTH];
    lines_of(compare(
        left, right, limit, &mut level, &mut low, &mut high, &mut work,
    ))
}

// What the program prints of two texts.
fn compare_texts(left: &[u8], right: &[u8]) -> Lines
    ensures { Printed left.now right.now round_limit result }
{
    compare_within(left, right, LIMIT)
}

fn print_lines(rt: &impl Print, lines: Lines) -> io::Result<()> {
    let Lines { strong, weak } = lines;
    println!(rt; "strong {strong}")?;
    println!(rt; "weak {weak}")
}

fn print_texts(rt: &impl Print, left: &[u8], right: &[u8]) -> io::Result<()> {
    print_lines(rt, compare_texts(left, right))
}

// Prints what the program would print of two texts with another limit. With the program's no line has a 9: so many different iterates need more
// nodes than its table has.
pub fn print_within(rt: &impl Print, left: &[u8], right: &[u8], limit: u64) -> io::Result<()> {
    print_lines(rt, compare_within(left, right, limit))
}

// The program of document 01, in the current folder: a strong line, then a weak one; or which file could not be read.
pub fn run(rt: &(impl Files + Print)) -> io::Result<()> {
    let mut left = [0u8; MAX_TEXT + 1];
    let mut right = [0u8; MAX_TEXT + 1];
    let Some(left) = text(rt, "left.hex", &mut left) else {
        return println!(rt; "no input left");
    };
    let Some(right) = text(rt, "right.hex", &mut right) else {
        return println!(rt; "no input right");
    };
    print_texts(rt, left, right)
}
