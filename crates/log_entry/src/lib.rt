// The log (01, Log; 02, S-6, S-8 and S-10): the kinds of its entries, and Next entry. The public calls take all input.
#![tactic(auto)]

ghost use Rattle.std.specs.Prelude.{◌≡◌, List, ◌∷◌, ℕ, ◌+◌, ◌/◌, ◌%◌, ◌≤◌, ◌<◌, length, unwrap_or, IfSome, IfOk, IfErr};
ghost use Rattle.refusals.specs.Refusal.{refusal_in};
ghost use Rattle.game.specs.Game.{Entry};
ghost use Rattle.log_entry.specs.EntryKind.{number, is_result_kind, IsKindOf};
ghost use Rattle.log_entry.specs.Entry.{IsEntry, letter_of};
ghost use Rattle.log_entry.specs.Log.{part_at, refusal_at};
ghost use Rattle.log_entry.specs.Part.{part_given};
ghost use Rattle.log_entry.specs.search.Lengths.{records_length, win_length, multi_ron_length, pao_length, length_by, correction_length, entry_length};
ghost use Rattle.log_entry.specs.search.Found.{letter_by};

use refusals::Refusal;

// The kinds of entries, by the numbers that headers have. Each one's letter stands in `letter`, its length in `length_by`.
#[derive(Clone, Copy, Debug, PartialEq, Eq)]
pub enum EntryKind {
    Riichi = 0,
    Win = 1,
    Draw = 2,
    Chombo = 3,
    MultiRon = 4,
    Pao = 5,
    Correction = 6,
}

// The kind of a number; 14 where no entry has it.
impl TryFrom<u8> for EntryKind {
    type Error = Refusal;

    ghost try_from_gives = { IsKindOf };

    fn try_from(number: u8) -> Result<Self, Refusal> {
        match number {
            0 => Ok(EntryKind::Riichi),
            1 => Ok(EntryKind::Win),
            2 => Ok(EntryKind::Draw),
            3 => Ok(EntryKind::Chombo),
            4 => Ok(EntryKind::MultiRon),
            5 => Ok(EntryKind::Pao),
            6 => Ok(EntryKind::Correction),
            _ => Err(Refusal::Entry),
        }
    }
}

impl EntryKind {
    // The letter that `tally` prints for an entry of the kind.
    pub fn letter(self) -> u8
        ensures { result ≡ letter_by (number self) }
    {
        match self {
            EntryKind::Riichi => b'R',
            EntryKind::Win => b'W',
            EntryKind::Draw => b'D',
            EntryKind::Chombo => b'C',
            EntryKind::MultiRon => b'M',
            EntryKind::Pao => b'P',
            EntryKind::Correction => b'X',
        }
    }

    // A result, which a correction can carry.
    fn is_result(self) -> bool
        ensures { result ≡ is_result_kind (number self) }
    {
        matches!(
            self,
            EntryKind::Win | EntryKind::Draw | EntryKind::Chombo | EntryKind::MultiRon
        )
    }
}

// The kind that a header byte names.
pub fn kind(header: u8) -> u8
    ensures { result ≡ header / 16 }
{
    header / 16
}

// A header byte's argument: a seat, who is ready, or how many records follow.
pub fn argument(header: u8) -> u8
    ensures { result ≡ header % 16 }
{
    header % 16
}

// Who holds the triplets, by the byte after a pao's header: its first 2 bits.
pub fn holder(byte: u8) -> u8
    ensures { result ≡ byte / 64 }
{
    byte / 64
}

// The feeder: its next 2 bits.
pub fn feeder(byte: u8) -> u8
    ensures { result ≡ byte / 16 % 4 }
{
    byte / 16 % 4
}

// Which yaku they are, 28 or 29: the bit after these.
pub fn yaku(byte: u8) -> u8
    ensures { result ≡ 28 + byte / 8 % 2 }
{
    28 + byte / 8 % 2
}

// The letter that `tally` prints for a kind: that of every entry whose header names it; 0 for a kind that no entry has.
// stays a number for a kind, and 0 for none: what C is given (include/herbassolh.h, HbNextEntry)
pub fn letter(kind: u8) -> u8
    ensures by_index { (header : ℕ) (rest : List ℕ) (e : Entry) → IsEntry (header ∷ rest) e → kind ≡ header / 16 → result ≡ letter_of e }
    ensures value { 6 < kind → result ≡ 0 }
{
    match EntryKind::try_from(kind) {
        Ok(k) => k.letter(),
        Err(_) => 0,
    }
}

// How many bytes n records have that lie end to end from the start of bytes; none where one is broken.
fn records_length(n: u8, s: &[u8]) -> Option<usize>
    ensures value { unwrap_or result 0 ≡ records_length n s.now }
    ensures some { IfSome result (λ k. n ≤ k) }
{
    let mut at = 0usize;
    // stays a range: so many records, each found where the one before it ends
    for _ in 0..n {
        at += hand_record::record_length(&s[at..])?;
    }
    Some(at)
}

// How many bytes a win has, its header included, by its argument and the bytes after the header; none where it is bad.
fn win_length(argument: u8, rest: &[u8]) -> Option<usize>
    ensures value { unwrap_or result 0 ≡ win_length argument rest.now }
    ensures some { IfSome result (λ n. 0 < n) }
{
    if argument != 0 {
        return None;
    }
    Some(hand_record::record_length(rest)? + 1)
}

// The same of one to three rons on one tile: so many records follow.
fn multi_ron_length(argument: u8, rest: &[u8]) -> Option<usize>
    ensures value { unwrap_or result 0 ≡ multi_ron_length argument rest.now }
    ensures some { IfSome result (λ n. 0 < n) }
{
    let few = 0 < argument && argument <= 3;
    if !few {
        return None;
    }
    Some(records_length(argument, rest)? + 1)
}

// The same of a pao: one byte follows, with its last three bits zero.
fn pao_length(argument: u8, rest: &[u8]) -> Option<usize>
    ensures value { unwrap_or result 0 ≡ pao_length argument rest.now }
    ensures some { IfSome result (λ n. 0 < n) }
{
    if 0 < argument {
        return None;
    }
    let byte = *rest.first()?;
    if 0 < byte % 8 {
        return None;
    }
    Some(2)
}

// The same of a kind that carries no other entry; of one that does, none.
#[tactic(auto, unfolding(crate::specs::search::Lengths::length_by))]
fn length_by(kind: EntryKind, argument: u8, rest: &[u8]) -> Option<usize>
    ensures value { unwrap_or result 0 ≡ length_by (number kind) argument rest.now }
    ensures some { IfSome result (λ n. 0 < n) }
{
    match kind {
        EntryKind::Riichi | EntryKind::Draw | EntryKind::Chombo => Some(1),
        EntryKind::Win => win_length(argument, rest),
        EntryKind::MultiRon => multi_ron_length(argument, rest),
        EntryKind::Pao => pao_length(argument, rest),
        EntryKind::Correction => None,
    }
}

// The same of a correction: the replacing entry follows, a win, a draw, a chombo or a multiple ron.
fn correction_length(outer: u8, rest: &[u8]) -> Option<usize>
    ensures value { unwrap_or result 0 ≡ correction_length outer rest.now }
    ensures some { IfSome result (λ n. 0 < n) }
{
    if outer != 0 {
        return None;
    }
    let (&header, inner) = rest.split_first()?;
    let k = EntryKind::try_from(kind(header)).ok()?;
    if !k.is_result() {
        return None;
    }
    Some(length_by(k, argument(header), inner)? + 1)
}

// How many bytes the entry has that bytes start with; none where they start with none.
#[tactic(auto, unfolding(crate::specs::search::Lengths::entry_length, crate::specs::search::Lengths::length_by))]
fn entry_length(s: &[u8]) -> Option<usize>
    ensures value { unwrap_or result 0 ≡ entry_length s.now }
    ensures some { IfSome result (λ n. 0 < n) }
{
    let (&header, rest) = s.split_first()?;
    match EntryKind::try_from(kind(header)).ok()? {
        EntryKind::Correction => correction_length(argument(header), rest),
        k => length_by(k, argument(header), rest),
    }
}

// Next entry: the part of the log that the entry at an offset takes, its header first. Past the log's end there is none; where bytes are left and they
// start with no entry it is refused with 14.
pub fn next_entry(log: &[u8], at: usize) -> Result<Option<&[u8]>, Refusal>
    ensures part { part_given result ≡ part_at log.now at }
    ensures refusal { refusal_in result ≡ refusal_at log.now at }
    ensures some { IfOk result (λ given. IfSome given (λ p. 0 < length p.now)) }
    ensures err { IfErr result (λ r. r ≡ Refusal.Entry) }
{
    if log.len() <= at {
        return Ok(None);
    }
    let Some(n) = entry_length(&log[at..]) else {
        return Err(Refusal::Entry);
    };
    let end = at + n;
    Ok(Some(&log[at..end]))
}
