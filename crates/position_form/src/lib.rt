// Whether a position is open (01, The game, refusal 9; 02, S-5 and S-8): marked over, at its last hand, or out of form. Any value of the struct may be given.
#![tactic(auto)]

ghost use Rattle.std.specs.Prelude.{◌≡◌, false, [], ◌∷◌, ◌≤◌, ◌<◌, pos, get_or};
ghost use Rattle.std.specs.Int.Signed.{lt_z};
ghost use Rattle.tiles.specs.Below.{any, count, tabulate};
ghost use Rattle.position.specs.Ledger.{points_in_play, floor, is_set, feeder_index, feeder_at, liable_by, eq_z, wrong_feeder, out_of_form, not_open};
ghost use Rattle.position.specs.search.Feeder.{liable_as};
ghost use Rattle.position.specs.search.Form.{sum_of};

use position::{FLOOR, LAST_HAND, POINTS_IN_PLAY, Position};

// What f gives of each of the four seats, in their order.
// stays written out once: the functions of four seats call it
pub fn each_seat<T, F: Fn(usize) -> T>(f: F) -> [T; 4]
    requires { F.pre f 0 × F.pre f 1 × F.pre f 2 × F.pre f 3 }
    ensures { (a : T) × (b : T) × (c : T) × (d : T) × F.post f 0 a × F.post f 1 b × F.post f 2 c × F.post f 3 d × (result ≡ a ∷ b ∷ c ∷ d ∷ []) }
{
    [f(0), f(1), f(2), f(3)]
}

// Which of four marks are set.
pub fn set_marks(d: [u8; 4]) -> [bool; 4]
    ensures { result ≡ tabulate 4 0 (λ i. is_set (get_or d i 0)) }
{
    each_seat(|i| 0 < d[i])
}

// How many of four are true.
// stays written out: with fold, sum or filter().count() the proof did not close
pub fn count_true(b: [bool; 4]) -> u32
    ensures { (result ≡ count 4 (λ i. get_or b i false)) × (result ≤ 4) }
{
    u32::from(b[0]) + u32::from(b[1]) + u32::from(b[2]) + u32::from(b[3])
}

// One of four is true.
// stays written out: with `contains`, which looks at one after the other, a log of riichi takes a quarter more
pub fn any_true(f: [bool; 4]) -> bool
    ensures { result ≡ any 4 (λ i. get_or f i false) }
{
    f[0] | f[1] | f[2] | f[3]
}

// Where the feeder of a holder's yaku, 28 or 29, stands.
// stays numbers: a position and the ledger go by them
pub fn feeder_index(holder: u8, yaku: u8) -> usize
    requires { (holder ≤ 3) × (28 ≤ yaku) × (yaku ≤ 29) }
    ensures { (result ≡ feeder_index holder yaku) × (result < 8) }
{
    usize::from(4 * (yaku - 28) + holder)
}

// The feeder that is named for a holder's yaku, 28 or 29, where one is.
// stays numbers: a position and the ledger go by them
pub fn feeder_of(p: Position, holder: u8, yaku: u8) -> Option<u8>
    requires { (holder ≤ 3) × (28 ≤ yaku) × (yaku ≤ 29) }
    ensures { liable_as result ≡ liable_by (feeder_at p (feeder_index holder yaku)) }
{
    p.feeders[feeder_index(holder, yaku)].checked_sub(1)
}

// A feeder, as a position holds it, is over 3, or its own holder.
fn wrong_feeder(holder: usize, n: u8) -> bool
    requires { holder < 4 }
    ensures { result ≡ wrong_feeder holder n }
{
    (4 < n) | (usize::from(n) == 1 + holder)
}

// One of the feeders, of yaku 28 or 29, is wrong.
fn any_wrong(f: [u8; 8]) -> bool
    ensures { result ≡ any 8 (λ i. wrong_feeder i (get_or f i 0)) }
{
    let of_28 = each_seat(|i| wrong_feeder(i, f[i]));
    let of_29 = each_seat(|i| wrong_feeder(i, f[i + 4]));
    any_true(of_28) | any_true(of_29)
}

// A score is under the floor.
fn any_low(s: [i32; 4]) -> bool
    ensures { result ≡ any 4 (λ i. lt_z (get_or s i (pos 0)) floor) }
{
    any_true(each_seat(|i| s[i] < FLOOR))
}

// The scores and 1,000 times the sticks are all the points in play.
// stays written out: with a fold over the scores the proof did not close
fn balanced(s: [i32; 4], sticks: u32) -> bool
    ensures { result ≡ eq_z (sum_of (get_or s 0 (pos 0)) (get_or s 1 (pos 0)) (get_or s 2 (pos 0)) (get_or s 3 (pos 0)) sticks) points_in_play }
{
    let scores = i64::from(s[0]) + i64::from(s[1]) + i64::from(s[2]) + i64::from(s[3]);
    scores + 1000 * i64::from(sticks) == POINTS_IN_PLAY
}

// The game is out of form.
pub fn out_of_form(p: Position) -> bool
    ensures { result ≡ out_of_form p }
{
    (3 < p.dealer)
        | (1 < p.wind)
        | (LAST_HAND < p.hands)
        | (p.sticks < count_true(set_marks(p.declared)))
        | (u32::from(p.hands) < p.counter)
        | any_wrong(p.feeders)
        | any_low(p.scores)
        | !balanced(p.scores, p.sticks)
}

// The game is over or out of form: every booking in it is refused, with 9 or with the 8 listed before it.
pub fn not_open(p: Position) -> bool
    ensures { result ≡ not_open p }
{
    ((0 < p.over) | (p.hands == LAST_HAND)) | out_of_form(p)
}
