// What a text's model is.
ghost use Rattle.std.specs.Prelude.{◌≡◌, ◌-◌, ◌≤◌, length};
ghost use Rattle.frames.specs.Summary.{line_bits, line_uses, line_states};
ghost use Rattle.seipolku.specs.Exported.{six, Described};

use super::put;
use frames::summary::Summary;
use frames::text::read;

// Writes the words for an accepted text with this summary, whose last line's process is the model.
fn write_model(s: Summary, words: &mut [u64])
    requires { (1 ≤ s.lines) × (6 ≤ length words.old) }
    ensures { words.new ≡ six words.old 0 (line_bits s (s.lines - 1)) s.lines (line_uses s (s.lines - 1)) (line_states s (s.lines - 1)) 0 0 }
{
    let last = s.counts_at(s.lines - 1);
    put(
        words,
        0,
        [
            last.bits as u64,
            s.lines as u64,
            last.uses as u64,
            last.states as u64,
            0,
            0,
        ],
    );
}

// Tells what a text's model is: 0 accepted, with its bits, the text's lines, its leaf uses and states; 2 refused, with the words of a refusal;
// 3 where answer has fewer than six words, and then nothing is touched.
// Kept: slices and numbers are the C interface.
#[unsafe(no_mangle)]
pub extern "C" fn seipolku_model(text: &[u8], answer: &mut [u64]) -> u64
    ensures { Described text.now answer.old answer.new result }
{
    if answer.len() < 6 {
        return 3;
    }
    match read(text) {
        Ok(summary) => {
            write_model(summary, answer);
            0
        }
        Err(e) => {
            put(
                answer,
                0,
                [e.refusal.number() as u64, 0, e.line as u64, 0, 0, 0],
            );
            2
        }
    }
}
