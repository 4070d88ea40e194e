// Numbers as text and a line of `tally` (01, Log). `line` takes all input.
#![tactic(auto)]

ghost use Rattle.std.specs.Prelude.{◌≡◌, [], ◌∷◌, ◌++◌, ◌+◌, ◌<◌, ◌≤◌, min, length, take, drop};
ghost use Rattle.text.specs.Text.{digits_of, signed_of, line_of, length_in, buffer_with};
ghost use Rattle.text.specs.Put.{Put};

mod bytes;

pub use bytes::Bytes;

// Writes the digits of n from `at` on, those of its tenth first, and returns the place after them.
// stays with a buffer and a place: `Bytes::push_digits` says why
fn digits(buf: &mut [u8], at: usize, n: u32) -> usize
    requires { at + length (digits_of n) ≤ length buf.old }
    ensures { Put buf.old at (digits_of n) buf.new result }
{
    if n < 10 {
        buf[at] = b'0' + (n as u8);
        return at + 1;
    }
    let e = digits(buf, at, n / 10);
    buf[e] = b'0' + ((n % 10) as u8);
    e + 1
}

// The digits of n, with a minus before those of a negative one.
pub fn signed(n: i32) -> Bytes<11>
    ensures value { result ≡ signed_of n }
    ensures few { length result ≤ 11 }
{
    let mut text = Bytes::new();
    text.push_signed(n);
    text
}

// Writes a number and the byte that stands after it.
fn put_number(text: &mut Bytes<83>, n: u32, after: u8)
    requires { length text.old + 11 ≤ 83 }
    ensures added { text.new ≡ text.old ++ (digits_of n ++ (after ∷ [])) }
    ensures few { length text.new ≤ length text.old + 11 }
{
    text.push_digits(n);
    text.push(after);
}

// Writes a score and the space after it.
fn put_score(text: &mut Bytes<83>, n: i32)
    requires { length text.old + 12 ≤ 83 }
    ensures added { text.new ≡ text.old ++ (signed_of n ++ (32 ∷ [])) }
    ensures few { length text.new ≤ length text.old + 12 }
{
    text.push_signed(n);
    text.push(b' ');
}

// A line. It fits in 83 bytes: 11 for each number and 12 for each score with the byte after it, 2 for the letter.
fn written(entry: u32, letter: u8, refusal: u8, scores: [i32; 4], sticks: u32) -> Bytes<83>
    ensures { result ≡ line_of entry letter refusal scores sticks }
{
    let mut text = Bytes::new();
    put_number(&mut text, entry, b' ');
    text.push(letter);
    text.push(b' ');
    put_number(&mut text, u32::from(refusal), b' ');
    for score in scores {
        put_score(&mut text, score);
    }
    put_number(&mut text, sticks, b'\n');
    text
}

// Copies bytes to the start of a buffer, as many as fit, and returns how many.
pub fn copy(from: &[u8], to: &mut [u8]) -> usize
    ensures count { result ≡ min (length from.now) (length to.old) }
    ensures copied { to.new ≡ take result from.now ++ drop result to.old }
{
    let n = from.len().min(to.len());
    to[..n].copy_from_slice(&from[..n]);
    n
}

// Copies bytes into a buffer from a place on, and returns the place after them.
// stays with a buffer and a place: `Put` is of the whole buffer
pub fn put(from: &[u8], buf: &mut [u8], at: usize) -> usize
    requires { at + length from.now ≤ length buf.old }
    ensures { Put buf.old at from.now buf.new result }
{
    buf[at..at + from.len()].copy_from_slice(from);
    at + from.len()
}

// A line at the start of a buffer, or nothing where it is too short; 83 bytes are enough.
pub fn line(
    buf: &mut [u8],
    entry: u32,
    letter: u8,
    refusal: u8,
    scores: [i32; 4],
    sticks: u32,
) -> usize
    ensures value { result ≡ length_in buf.old (line_of entry letter refusal scores sticks) }
    ensures buf_after { buf.new ≡ buffer_with buf.old (line_of entry letter refusal scores sticks) }
    ensures sticks_len_bound { length (line_of entry letter refusal scores sticks) ≤ 83 }
{
    let text = written(entry, letter, refusal, scores, sticks);
    if buf.len() < text.len() {
        return 0;
    }
    copy(text.as_slice(), buf)
}
