// The text of a log: its entries booked, and their lines written into a buffer, by whole lines. It takes all input.
#![tactic(auto)]

ghost use Rattle.std.specs.Prelude.{◌≡◌, [], ◌++◌, ◌+◌, ◌≤◌, ◌<◌, length, take, drop};
ghost use Rattle.text.specs.Text.{length_in, buffer_with};
ghost use Rattle.log_walk.specs.Walk.{entry_line, text_left, lines_of};

use log_walk::{Printed, Walk};
use position::Position;

// The line of entry k at the start of a buffer, or nothing where the buffer is too short: its letter, its refusal, and the position after it.
// stays a length, 0 for none: what `text::line` gives, and C is given (`hb_log_line`)
fn entry_line(buf: &mut [u8], k: u32, letter: u8, refusal: u8, p: Position) -> usize
    ensures value { result ≡ length_in buf.old (entry_line k letter refusal p) }
    ensures buf_after { buf.new ≡ buffer_with buf.old (entry_line k letter refusal p) }
    ensures line_bound { length (entry_line k letter refusal p) ≤ 83 }
{
    text::line(buf, k, letter, refusal, p.scores, p.sticks)
}

// Books entries of a log, from where a walk stands, and writes their lines into a buffer, one after the other: as many whole lines as fit.
// Bytes past the last line stay. A buffer of 83 bytes has room for every line, so that nothing is written only where no text is left.
pub fn lines(w: Walk, s: &[u8], buf: &mut [u8]) -> Printed
    ensures value { result ≡ lines_of (length buf.old) w s.now }
    ensures buf_after { buf.new ≡ take result.written (text_left w s.now) ++ drop result.written buf.old }
    ensures s_value { 83 + result.written ≤ length buf.old → result.walk.entry < 4294967295 → text_left result.walk s.now ≡ [] }
{
    let mut walk = w;
    let mut written = 0usize;
    // stays a while: how far a step goes is read from the log, and it stops where a line has no room
    while let Ok(Some(step)) = log_walk::book_at(walk.game, s, walk.at) {
        if walk.entry == u32::MAX {
            break;
        }
        let game = step.booked.unwrap_or(walk.game);
        let refusal = refusals::number(step.booked);
        let n = entry_line(
            &mut buf[written..],
            walk.entry,
            step.letter,
            refusal,
            game.now,
        );
        if n == 0 {
            break;
        }
        written += n;
        walk = Walk {
            game,
            entry: walk.entry + 1,
            at: walk.at + step.len,
        };
    }
    Printed { written, walk }
}
