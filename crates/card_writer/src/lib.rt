// Writes the practice cards (02, S-9): every set of 2, 5 or 8 tiles of one suit that splits into a pair and groups.
#![tactic(auto)]

ghost use Rattle.std.specs.Prelude.{◌≡◌, ℕ, ◌+◌, ◌-◌, ◌*◌, ◌≤◌, true, length, take};
ghost use Rattle.refusals.specs.Refusal.{refusal_in};
ghost use Rattle.card_writer.specs.Call.{is_size, answer_of, answer_in, card_buffer};
ghost use Rattle.text.specs.Put.{Put};
ghost use Rattle.card_writer.specs.search.Written.{written, counted};

use refusals::Refusal;

// What the call says: refusal 19, or the number of sets.
#[repr(C)]
#[derive(Clone, Copy)]
pub struct Cards {
    // stays a byte: what C is given (include/herbassolh.h)
    pub refusal: u8,
    pub count: u16,
}

// What is drawn: sets of so many tiles, a pair and so many groups, of kinds below an end.
#[derive(Clone, Copy)]
struct Drawn {
    size: usize,
    groups: u8,
    end: u8,
}

// Writes the first `size` tiles of a card.
// stays with a buffer and a place: as `draw`
fn put_card(buf: &mut [u8], at: usize, card: [u8; 8], size: usize) -> usize
    requires { (size ≤ 8) × (at + size ≤ length buf.old) }
    ensures { Put buf.old at (take size card) buf.new result }
{
    buf[at..at + size].copy_from_slice(&card[..size]);
    at + size
}

// Writes each card that begins with the tiles drawn so far, whose tally is t, and goes on with `left` tiles from the kind `low` on. Returns the place
// after them.
// stays with a buffer and a place: `Put` is of the whole buffer. The prefix stays an array beside how much of it is used: no heap
fn draw(
    buf: &mut [u8],
    at: usize,
    prefix: [u8; 8],
    t: [u8; 34],
    low: u8,
    left: usize,
    d: Drawn,
) -> usize
    requires { (left ≤ d.size) × (d.size ≤ 8) × (d.end ≤ 34) × (at + length (written (take (d.size - left) prefix) d.groups left d.end low t) ≤ length buf.old) }
    ensures { Put buf.old at (written (take (d.size - left) prefix) d.groups left d.end low t) buf.new result }
{
    if left == 0 {
        if reading_splits::splits(t, d.groups) {
            return put_card(buf, at, prefix, d.size);
        }
        return at;
    }
    let mut e = at;
    // stays a range: a is the kind that is drawn
    for a in low..d.end {
        let room = t[usize::from(a)] < 4;
        if room {
            let mut next = prefix;
            next[d.size - left] = a;
            e = draw(buf, e, next, tiles::add(t, a, 1), a, left - 1, d);
        }
    }
    e
}

// How many cards begin with the tiles drawn so far: the draw without its buffer.
// stays beside `draw`: a closure for both would say in a clause at each turn what room the buffer has and that the count fits, in more lines than these
fn count(t: [u8; 34], low: u8, left: usize, d: Drawn) -> u16
    requires { (left ≤ 8) × (d.end ≤ 34) × (d.end ≤ low + 9) }
    ensures { result ≡ counted d.groups left d.end low t }
{
    if left == 0 {
        if reading_splits::splits(t, d.groups) {
            return 1;
        }
        return 0;
    }
    let mut c = 0u16;
    // stays a range: a is the kind that is drawn
    for a in low..d.end {
        let held = t[usize::from(a)];
        let room = held < 4;
        if room {
            c += count(tiles::add(t, a, 1), a, left - 1, d);
        }
    }
    c
}

// Whether cards have so many tiles.
fn is_size(size: u8) -> bool
    ensures { result ≡ is_size size }
{
    size == 2 || size == 5 || size == 8
}

// Writes the cards of a suit at the start of buf and says how many they are, or refuses with 19 and writes nothing.
fn try_write(suit: u8, size: u8, buf: &mut [u8]) -> Result<u16, Refusal>
    ensures value { answer_in result ≡ answer_of suit size (length buf.old) }
    ensures buf_after { buf.new ≡ card_buffer suit size buf.old }
{
    let no_suit = 2 < suit;
    if no_suit {
        return Err(Refusal::Cards);
    }
    if !is_size(size) {
        return Err(Refusal::Cards);
    }
    let tiles = usize::from(size);
    let low = 9 * suit;
    let d = Drawn {
        size: tiles,
        groups: (size - 2) / 3,
        end: low + 9,
    };
    let count = count([0u8; 34], low, tiles, d);
    if buf.len() < tiles * usize::from(count) {
        return Err(Refusal::Cards);
    }
    draw(buf, 0, [0u8; 8], [0u8; 34], low, tiles, d);
    Ok(count)
}

// The cards of a suit, at the start of buf.
pub fn write(suit: u8, size: u8, buf: &mut [u8]) -> Cards
    ensures value { result ≡ answer_of suit size (length buf.old) }
    ensures buf_after { buf.new ≡ card_buffer suit size buf.old }
{
    match try_write(suit, size, buf) {
        Ok(count) => Cards { refusal: 0, count },
        Err(refusal) => Cards {
            refusal: u8::from(refusal),
            count: 0,
        },
    }
}
