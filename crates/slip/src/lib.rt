// A slip to paste in the club book (02, S-2): six lines of a scored hand, a label and a number or a word each, into the parts of a lent page.
// `slip` takes all input.
#![tactic(auto)]

ghost use Rattle.std.specs.Prelude.{◌≡◌, true, cond, [], ◌∷◌, ◌++◌, ◌+◌, ◌≤◌, ◌<◌, length, get_or, drop};
ghost use Rattle.yaku.specs.Yaku.{is_yakuman};
ghost use Rattle.score.specs.Score.{score_of};
ghost use Rattle.text.specs.Text.{digits_of, signed_of, score_text};
ghost use Rattle.text.specs.Words.{bytes_of};
ghost use Rattle.slip.specs.Line.{spaces, slip_line, labels};
ghost use Rattle.slip.specs.Slip.{line_at, slip_text, slip_refusal, slip_page};

use score::Scored;
use units::{Fu, Han};

// ---- the lines

// Fills a line with spaces, and a line feed after them.
fn blank(line: &mut [u8])
    requires { length line.old ≡ 25 }
    ensures { line.new ≡ spaces 24 ++ (10 ∷ []) }
{
    line[..24].fill(b' ');
    line[24] = b'\n';
}

// Writes a line: the label left in 10 columns, the value right in 14, a line feed.
fn put_line(line: &mut [u8], label: &[u8], value: &[u8])
    requires line_len { length line.old ≡ 25 }
    requires label_len_bound { (length label.now ≤ 10) × (length value.now ≤ 14) }
    ensures { line.new ≡ slip_line label.now value.now }
{
    blank(line);
    text::copy(label, line);
    let at = 24 - value.len();
    text::copy(value, &mut line[at..24]);
}

// Writes a line with a number, a minus before a negative one.
fn put_number(line: &mut [u8], label: &[u8], n: i32)
    requires { (length line.old ≡ 25) × (length label.now ≤ 10) }
    ensures { line.new ≡ slip_line label.now (signed_of n) }
{
    put_line(line, label, text::signed(n).as_slice());
}

// Writes the first line: HAN and h, or the word YAKUMAN.
fn put_han(line: &mut [u8], h: Han, yakuman: bool)
    requires { length line.old ≡ 25 }
    ensures { line.new ≡ slip_line (get_or labels 0 []) (cond yakuman (bytes_of "YAKUMAN") (digits_of h.0)) }
{
    if yakuman {
        put_line(line, b"HAN", b"YAKUMAN");
        return;
    }
    put_number(line, b"HAN", i32::from(h.0));
}

// Writes the second line: FU and fu.
fn put_fu(line: &mut [u8], fu: Fu)
    requires { length line.old ≡ 25 }
    ensures { line.new ≡ slip_line (get_or labels 1 []) (digits_of fu.0) }
{
    put_number(line, b"FU", i32::from(fu.0));
}

// Writes the line of a seat: SEAT with its number, and its change of the four.
fn put_seat(line: &mut [u8], seat: usize, changes: [i32; 4])
    requires { (length line.old ≡ 25) × (seat < 4) }
    ensures { line.new ≡ slip_line (get_or labels (2 + seat) []) (score_text changes seat) }
{
    let mut label = *b"SEAT 0";
    label[5] = b'0' + (seat as u8);
    put_number(line, &label, changes[seat]);
}

// Writes line k of a score; a yakuman's fu is 0.
fn put_line_at(line: &mut [u8], k: usize, a: Scored)
    requires line_len { (length line.old ≡ 25) × (k < 6) }
    requires fu_value { is_yakuman a.yaku ≡ true → a.fu.0 ≡ 0 }
    ensures { line.new ≡ line_at a k }
{
    match k {
        0 => put_han(line, a.h, yaku::is_yakuman(a.yaku)),
        1 => put_fu(line, a.fu),
        _ => put_seat(line, k - 2, a.changes),
    }
}

// Writes the six lines of a score, each into its own part of the page, and leaves what stands after them.
fn put_lines(page: &mut [u8], a: Scored)
    requires in_bounds { 150 ≤ length page.old }
    requires fu_value { is_yakuman a.yaku ≡ true → a.fu.0 ≡ 0 }
    ensures { page.new ≡ slip_text a ++ drop 150 page.old }
{
    for k in 0..6 {
        put_line_at(&mut page[25 * k..25 * k + 25], k, a);
    }
}

// ---- the slip

// The slip of a record's score, for a dealer and a round wind, at the start of a page; or the refusal, and the page as it was.
// stays a number: Score's refusal is handed on as C is given it (`Scored`), and 16 beside it
pub fn slip(s: &[u8], dealer: u8, wind: u8, page: &mut [u8]) -> u8
    ensures value { result ≡ slip_refusal (score_of s.now dealer wind) page.old }
    ensures page_after { page.new ≡ slip_page (score_of s.now dealer wind) page.old }
{
    let a = score::score(s, dealer, wind);
    if 0 < a.refusal {
        return a.refusal;
    }
    if page.len() < 150 {
        return 16;
    }
    put_lines(page, a);
    0
}
