// The hand record, Read, and how long the record is that bytes start with (01, Tiles and the hand record). It takes all input.
#![tactic(auto)]

ghost use Rattle.std.specs.Prelude.{◌≡◌, ◌+◌, ◌*◌, ◌-◌, ◌≤◌, ◌<◌, length, IfSome, IfOk, unwrap_or};
ghost use Rattle.bits.specs.Bits.{bits_of};
ghost use Rattle.hand_record.specs.search.Offsets.{held_in};
ghost use Rattle.hand_record.specs.Record.{length_of, head_of, refused_with, answer_in, read_of, count_in, refusal_in, hand_of, read_hand_of, numbered, written_in};
ghost use Rattle.refusals.specs.Refusal.{number as number_of, refusal_in as number_in};
ghost use Rattle.hand_record.specs.Lengths.{record_length};

use hand::{Fields, Hand, Held};
use refusals::Refusal;

// The widths of the head's fields.
pub const HEAD: [u8; 8] = [1, 2, 2, 2, 3, 6, 6, 3];

// The bytes of a record with 0 to 4 melds.
pub const LENGTHS: [usize; 5] = [13, 12, 11, 10, 8];

// The padding bits of a record with 0 to 4 melds.
pub const PADS: [usize; 5] = [1, 3, 5, 7, 1];

// The head of a record: the fields, and then the meld count.
#[derive(Clone, Copy)]
struct Head {
    fields: Fields,
    m: u8,
}

// What Read gives: the fields that read, or the refusal; the tiles held stand beside them, all zero where it is refused.
#[derive(Clone, Copy)]
pub struct HandRead {
    pub answer: Result<Fields, Refusal>,
    pub held: Held,
}

impl HandRead {
    // The hand that reads, or the refusal.
    pub fn hand(self) -> Result<Hand, Refusal>
        ensures refusal { number_in result ≡ refusal_in (numbered self).answer }
        ensures hand { IfOk result (λ h. h ≡ hand_of (numbered self)) }
    {
        let fields = self.answer?;
        Ok(Hand {
            fields,
            held: self.held,
        })
    }
}

// What Read gives, flat: 0 and the hand, or the refusal and an all-zero hand.
#[repr(C)]
#[derive(Clone, Copy)]
pub struct ReadHand {
    pub refusal: u8,
    pub hand: Hand,
}

// What Write gives: 0 and the record's length, or the refusal and 0.
#[repr(C)]
#[derive(Clone, Copy)]
pub struct Written {
    pub refusal: u8,
    pub len: usize,
}

impl From<Result<usize, Refusal>> for Written {
    ghost from_gives = { λ given w. w ≡ written_in given };

    fn from(given: Result<usize, Refusal>) -> Written
        ensures { result ≡ written_in given }
    {
        Written {
            refusal: refusals::number(given),
            len: given.unwrap_or(0),
        }
    }
}

// The head of a record: its first 25 bits.
fn header(s: &[u8]) -> Head
    requires { 4 ≤ length s.now }
    ensures { result ≡ head_of (bits_of s.now) }
{
    let fields = Fields {
        how: bits::field(s, 0, 1),
        winner: bits::field(s, 1, 2),
        discarder: bits::field(s, 3, 2),
        riichi: bits::field(s, 5, 2),
        situation: bits::field(s, 7, 3),
        indicator: bits::field(s, 10, 6),
        winning: bits::field(s, 16, 6),
    };
    let m = bits::field(s, 22, 3);
    Head { fields, m }
}

// The tiles held from bit `at` on: m melds, and then 13 - 3m tiles, with zeros after them. An inner call of each reader.
pub fn held_in(s: &[u8], at: usize, m: u8) -> Held
    requires { (m ≤ 4) × (length s.now ≤ 13) × (at + 8 * m + 6 * (13 - 3 * m) ≤ 8 * length s.now) }
    ensures { result ≡ held_in at m (bits_of s.now) }
{
    let k = m as usize;
    let mut melds = [0u8; 4];
    bits::run_into(s, at, 8, k, &mut melds);
    let mut concealed = [0u8; 13];
    bits::run_into(s, at + 8 * k, 6, 13 - 3 * k, &mut concealed);
    Held {
        m,
        melds,
        concealed,
    }
}

// A refused record: the refusal, and zeros.
fn refused(r: Refusal) -> HandRead
    ensures { numbered result ≡ refused_with (number_of r) }
{
    HandRead {
        answer: Err(r),
        held: Held::default(),
    }
}

// The hand of m melds and the fields f that a record of its length is, or why it is refused.
fn hand_in(s: &[u8], f: Fields, m: u8) -> HandRead
    requires { (m ≤ 4) × (length s.now ≡ length_of m) × (f ≡ (head_of (bits_of s.now)).fields) }
    ensures { numbered result ≡ answer_in m (bits_of s.now) }
{
    let held = held_in(s, 25, m);
    let padding = bits::last(s, PADS[m as usize]);
    let h = Hand { fields: f, held };
    match hand_refusals::check(h, u32::from(padding)) {
        Ok(()) => HandRead {
            answer: Ok(f),
            held,
        },
        Err(r) => refused(r),
    }
}

// Read: the fields of a sound record beside its tiles held, or the first refusal of 1 to 5 beside zeros.
pub fn read(s: &[u8]) -> HandRead
    ensures { numbered result ≡ read_of s.now }
{
    let n = s.len();
    let short = n < 4;
    if short {
        return refused(Refusal::Length);
    }
    let h = header(s);
    let m = h.m;
    if 4 < m {
        return refused(Refusal::Length);
    }
    if n != LENGTHS[m as usize] {
        return refused(Refusal::Length);
    }
    let f = h.fields;
    hand_in(s, f, m)
}

// Read, flat: 0 and the hand, or the refusal and an all-zero hand.
pub fn read_hand(s: &[u8]) -> ReadHand
    ensures { result ≡ read_hand_of s.now }
{
    match read(s).hand() {
        Ok(hand) => ReadHand { refusal: 0, hand },
        Err(r) => ReadHand {
            refusal: u8::from(r),
            hand: Hand::default(),
        },
    }
}

// ---- how long the record is that bytes start with

// The meld count of the record that bytes start with: its 3 bits from bit 22.
fn meld_count(s: &[u8]) -> u8
    requires { 4 ≤ length s.now }
    ensures { result ≡ count_in s.now }
{
    bits::field(s, 22, 3)
}

// How many bytes the record has that bytes start with; none where m is over 4 or bytes are missing.
pub fn record_length(s: &[u8]) -> Option<usize>
    ensures value { unwrap_or result 0 ≡ record_length s.now }
    ensures some { IfSome result (λ n. 0 < n) }
{
    if s.len() < 4 {
        return None;
    }
    let m = meld_count(s) as usize;
    if 4 < m {
        return None;
    }
    let n = LENGTHS[m];
    if s.len() < n {
        return None;
    }
    Some(n)
}
