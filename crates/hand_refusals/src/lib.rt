// What a hand is refused for: 2 to 5, first match wins, for Read and for Write (01, Read; Write). What 2, 3 and 4 ask of the tiles held
// stands apart: an unfinished hand has no fields.
#![tactic(auto)]

ghost use Rattle.std.specs.Prelude.{◌≡◌, true, false, ◌&&◌, ◌||◌, not, ◌+◌, ◌-◌, ◌*◌, ◌/◌, ◌%◌, ◌≤◌, ltb, eqb, get_or};
ghost use Rattle.tiles.specs.Below.{all_below, any_below};
ghost use Rattle.tiles.specs.Kinds.{is_run_start};
ghost use Rattle.tiles.specs.Tally.{tally_of};
ghost use Rattle.hand.specs.Held.{tile_over33, chi_without_run, wrong_held, descends as descends_of, over_four, unused_not_zero, has_kan};
ghost use Rattle.hand.specs.Refusals.{wrong_discarder, wrong_fields, in_record, wrong_by, refusal_of, too_large, unwritable};
ghost use Rattle.refusals.specs.Refusal.{refusal_in};

use hand::{Fields, Hand, Held};
use refusals::Refusal;

// ---- the tiles held: 2, 3 and 4

// A tile over 33 is in a meld or among the concealed tiles.
fn tile_over_33(x: Held) -> bool
    ensures { result ≡ tile_over33 x }
{
    x.melds().iter().any(|&b| 33 < b % 64) | x.concealed().iter().any(|&k| 33 < k)
}

// A chi from whose tile no run goes.
fn bad_chi(b: u8) -> bool
    ensures { result ≡ (eqb (b / 64) 0 && not (is_run_start (b % 64))) }
{
    (b / 64 == 0) & !tiles::is_run_start(b % 64)
}

// Such a chi is among the melds.
fn chi_without_run(x: Held) -> bool
    ensures { result ≡ chi_without_run x }
{
    x.melds().iter().any(|&b| bad_chi(b))
}

// 2 of the tiles held, with the padding bits after them as a number.
pub fn wrong_held(x: Held, padding: u32) -> bool
    ensures { result ≡ wrong_held x padding }
{
    tile_over_33(x) | chi_without_run(x) | (0 < padding)
}

// 3: the concealed tiles descend somewhere.
pub fn descends(x: Held) -> bool
    ensures { result ≡ descends_of x }
{
    !x.concealed().is_sorted()
}

// 4: over four of a kind in a tally.
pub fn over_four(t: [u8; 34]) -> bool
    ensures { result ≡ over_four (λ k. get_or t k 0) }
{
    // each is looked at, so that the compiler may take many at once
    let mut over = false;
    for &n in &t {
        over |= 4 < n;
    }
    over
}

// ---- with the fields: 2, the tiles of 4, and 5

// The tally of the tiles of 4: the hand's and the indicator.
fn record_tally(h: Hand) -> [u8; 34]
    ensures { result ≡ tally_of (in_record h) }
{
    tiles::add(hand::hand_tally(h), h.fields.indicator, 1)
}

// Tsumo with a discarder, or ron from oneself.
fn wrong_discarder(f: Fields) -> bool
    ensures { result ≡ wrong_discarder f }
{
    if f.how == 1 {
        f.discarder == f.winner
    } else {
        !(f.discarder == 0)
    }
}

// 2, whole.
fn wrong_fields(h: Hand, padding: u32) -> bool
    ensures { result ≡ wrong_fields h padding }
{
    let f = h.fields;
    wrong_held(h.held, padding)
        | ((33 < f.indicator) | (33 < f.winning))
        | ((3 <= f.riichi) | (4 < f.situation))
        | wrong_discarder(f)
}

// A kan, open or closed, is among the melds.
fn has_kan(x: Held) -> bool
    ensures { result ≡ has_kan x }
{
    x.melds().iter().any(|&b| 2 <= b / 64)
}

// 5, where the tiles of 4 have n of the winning tile's kind.
fn wrong_situation(f: Fields, x: Held, n: u8) -> bool
    ensures { result ≡ wrong_by f x n }
{
    let ron = f.how == 1;
    (((0 < f.riichi) & !hand::is_closed(x)) | ((f.riichi == 2) & (0 < x.m)))
        | ((f.situation == 1) & (ron | (0 < f.riichi) | !has_kan(x)))
        | ((f.situation == 2) & (!ron | (1 < n)))
        | ((f.situation == 4) & (ron | (0 < x.m) | (0 < f.riichi)))
}

// ---- first match wins

// 2 to 5, first match wins.
pub fn check(h: Hand, padding: u32) -> Result<(), Refusal>
    ensures { refusal_in result ≡ refusal_of h padding }
{
    if wrong_fields(h, padding) {
        return Err(Refusal::Field);
    }
    let f = h.fields;
    let x = h.held;
    if descends(x) {
        return Err(Refusal::Descending);
    }
    let t = record_tally(h);
    if over_four(t) {
        return Err(Refusal::OverFour);
    }
    let at = f.winning as usize;
    if wrong_situation(f, x, t[at]) {
        return Err(Refusal::Situation);
    }
    Ok(())
}

// ---- what Write asks beside them

// Each place from n on is 0.
fn zero_from(c: [u8; 13], n: usize) -> bool
    ensures { result ≡ all_below 13 (λ i. ltb i n || eqb (get_or c i 0) 0) }
{
    for i in 0..13 {
        if !((i < n) | (c[i] == 0)) {
            return false;
        }
    }
    true
}

// A place past the m melds or past the 13 - 3m tiles is not 0.
pub fn unused_not_zero(x: Held) -> bool
    ensures { result ≡ unused_not_zero x }
{
    let m = x.m;
    let d = x.melds;
    let c = x.concealed;
    !(((0 < m) | (d[0] == 0))
        & ((1 < m) | (d[1] == 0))
        & ((2 < m) | (d[2] == 0))
        & ((3 < m) | (d[3] == 0)))
        | !zero_from(c, hand::others(m))
}

// A number too large for its bits, or m over 4. A tile too large is over 33.
fn too_large(h: Hand) -> bool
    ensures { result ≡ too_large h }
{
    let f = h.fields;
    (4 < h.held.m)
        | (1 < f.how)
        | (3 < f.winner)
        | (3 < f.discarder)
        | (3 < f.riichi)
        | (7 < f.situation)
}

// What Write refuses of a hand before it looks at the buffer: 2 to 5.
pub fn check_writable(h: Hand) -> Result<(), Refusal>
    ensures { refusal_in result ≡ unwritable h }
{
    if too_large(h) | unused_not_zero(h.held) {
        Err(Refusal::Field)
    } else {
        check(h, 0)
    }
}
