// Records that lie end to end (02, S-6): the hands that they are or the refusal of the first that does not read, whether the hands are rons on one tile,
// and who wins first. Each record is read once.
#![tactic(auto)]

ghost use Rattle.std.specs.Prelude.{◌≡◌, List, map, ℕ, ◌≤◌, take, IfOk, unwrap_or};
ghost use Rattle.refusals.specs.Refusal.{refusal_in};
ghost use Rattle.hand_rons.specs.Records.{hand_for, records_of, first_unreadable, conflict, not_on_one_tile, is_winner, first_after, cut_of, IsFirst, numbered};

use hand::{Fields, Hand};
use refusals::Refusal;

// One record of several: its hand, and where it ends.
#[derive(Clone, Copy)]
struct First {
    end: usize,
    hand: Hand,
}

// Where the first of so many records ends, the last being all that is left; none where it is broken.
fn cut(number: u8, s: &[u8]) -> Option<usize>
    ensures { unwrap_or result 0 ≡ cut_of number s.now }
{
    let last = number == 1;
    if last {
        return Some(s.len());
    }
    hand_record::record_length(s)
}

// The first of so many records; a broken one is refused as bytes of the wrong length are.
fn read_first(number: u8, s: &[u8]) -> Result<First, Refusal>
    requires { 1 ≤ number }
    ensures { IsFirst number s.now (numbered result) }
{
    let end = cut(number, s).ok_or(Refusal::Length)?;
    let hand = hand_record::read(&s[..end]).hand()?;
    Ok(First { end, hand })
}

// The hands of so many records, in their order, or the refusal of the first that does not read.
pub fn read_all(number: u8, s: &[u8]) -> Result<[Hand; 3], Refusal>
    requires { number ≤ 3 }
    ensures refusal_value { refusal_in result ≡ first_unreadable (records_of number s.now) }
    ensures s_value { IfOk result (λ hands. map hand_for (records_of number s.now) ≡ take number hands) }
{
    let mut hands = [Hand::default(); 3];
    let mut at = 0;
    for i in 0..number {
        let first = read_first(number - i, &s[at..])?;
        hands[usize::from(i)] = first.hand;
        at += first.end;
    }
    Ok(hands)
}

// Two records have one winner, or differ in what rons on one tile have in common.
fn conflict(f: Fields, g: Fields) -> bool
    ensures { result ≡ conflict f g }
{
    (f.winner == g.winner)
        | !(f.discarder == g.discarder)
        | !(f.winning == g.winning)
        | !(f.indicator == g.indicator)
        | !(f.situation == g.situation)
}

// One of so many hands is not ron, or two conflict.
pub fn not_on_one_tile(number: u8, hands: [Hand; 3]) -> bool
    requires { (1 ≤ number) × (number ≤ 3) }
    ensures { (rs : List (List ℕ)) → map hand_for rs ≡ take number hands → result ≡ not_on_one_tile rs }
{
    let a = hands[0];
    let b = hands[1];
    let c = hands[2];
    let f = a.fields;
    let g = b.fields;
    let h = c.fields;
    let two = 1 < number;
    let three = 2 < number;
    !(f.how == 1)
        | (two & conflict(f, g))
        | (three & conflict(f, h))
        | (two & !(g.how == 1))
        | (three & conflict(g, h))
        | (three & !(h.how == 1))
}

// The seat wins one of so many hands.
pub fn is_winner(number: u8, hands: [Hand; 3], seat: u8) -> bool
    requires { (1 ≤ number) × (number ≤ 3) }
    ensures { (rs : List (List ℕ)) → map hand_for rs ≡ take number hands → result ≡ is_winner rs seat }
{
    let a = hands[0];
    let b = hands[1];
    let c = hands[2];
    (a.fields.winner == seat)
        | ((1 < number) & (b.fields.winner == seat))
        | ((2 < number) & (c.fields.winner == seat))
}

// The first seat after the discarder, in turn order, that wins one of so many hands. It is the third seat where the two before it win none.
pub fn first_after(discarder: u8, number: u8, hands: [Hand; 3]) -> u8
    requires { (discarder ≤ 3) × (1 ≤ number) × (number ≤ 3) }
    ensures { (rs : List (List ℕ)) → map hand_for rs ≡ take number hands → result ≡ first_after discarder (is_winner rs) }
{
    let a = (discarder + 1) % 4;
    if is_winner(number, hands, a) {
        return a;
    }
    let b = (discarder + 2) % 4;
    if is_winner(number, hands, b) {
        return b;
    }
    (discarder + 3) % 4
}
