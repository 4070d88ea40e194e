// Judge: a claim of another scorer, a reading and the winner's gain, held against the record of a hand (02, S-13).
#![tactic(auto)]

ghost use Rattle.std.specs.Prelude.{◌≡◌, ◌&&◌, ◌++◌, ◌+◌, ◌*◌, ◌-◌, ◌<◌, ◌≤◌, eqb, length, take, replicate};
ghost use Rattle.bits.specs.Bits.{bits_of};
ghost use Rattle.claim.specs.IsJudged.{IsJudged};
ghost use Rattle.claim.specs.Judge.{judged_of};
ghost use Rattle.claim.specs.search.Claimed.{shape_in, codes_in, ascends as ascends_of, length_of, gain_at, faulty_regular, reading_in, named_in, claimed_of};
ghost use Rattle.claim.specs.search.Judge.{judged_in};
ghost use Rattle.claim.specs.search.Verdict.{IsFormed, strip, regularly, reads, weighed_as, verdict_of};

use hand::Hand;
use reading::Reading;
use refusals::Refusal;
use units::Points;

// What Judge gives, flat as C is given it: a refusal and 0, or 0 and the verdict: 0 accepted, 1 to 4 the first condition that is false.
#[repr(C)]
#[derive(Clone, Copy)]
pub struct Judged {
    pub refusal: u8,
    pub verdict: u8,
}

// What a claim names: a reading and the winner's gain.
#[derive(Clone, Copy)]
struct Claimed {
    reading: Reading,
    gain: Points,
}

// ---- the claim

// How many bytes a claim of a shape has for a hand with m melds.
pub fn length(shape: u8, m: u8) -> usize
    requires { m ≤ 4 }
    ensures { result ≡ length_of shape m }
{
    if shape == 0 {
        return [7, 7, 6, 5, 4][m as usize];
    }
    3
}

// Where its gain begins: after shape, pair, codes and place, or after the shape alone.
fn gain_at(shape: u8, m: u8) -> usize
    requires { m ≤ 4 }
    ensures { result ≡ gain_at shape m }
{
    if shape == 0 {
        return 11 + 7 * (4 - m as usize);
    }
    2
}

// The 4 - m group codes, then 68 in each place that a meld takes.
fn groups_in(s: &[u8], m: usize) -> [u8; 4]
    requires { (m ≤ 4) × (length s.now ≤ 13) × (8 + 7 * (4 - m) ≤ 8 * length s.now) }
    ensures { result ≡ codes_in m (bits_of s.now) ++ replicate m 68 }
{
    let mut out = [68u8; 4];
    bits::run_into(s, 8, 7, 4 - m, &mut out);
    out
}

// The codes are groups' and do not descend.
fn ascend(codes: &[u8]) -> bool
    ensures { result ≡ ascends_of 0 codes.now }
{
    let mut low = 0;
    for &c in codes {
        if !((low <= c) & reading_steps::is_group(c)) {
            return false;
        }
        low = c;
    }
    true
}

// The reading that a claim names, which has the length of one of its shape.
fn reading_in(s: &[u8], m: u8, shape: u8) -> Option<Reading>
    requires { (m ≤ 4) × (length s.now ≡ length_of shape m) × (shape_in (bits_of s.now) ≡ shape) }
    ensures { result ≡ named_in (eqb shape 0 && faulty_regular m (bits_of s.now)) (reading_in m (bits_of s.now)) }
{
    if shape != 0 {
        return Some(reading::of_shape(shape));
    }
    let size = (4 - m) as usize;
    let pair = bits::field(s, 2, 6);
    let groups = groups_in(s, m as usize);
    let place = bits::field(s, 8 + 7 * size, 3);
    let faulty = (33 < pair) | !ascend(&groups[..size]) | (size < place as usize);
    if faulty {
        return None;
    }
    Some(Reading {
        shape,
        pair,
        groups,
        place,
    })
}

// What a claim names for a hand with m melds.
fn read_claim(s: &[u8], m: u8) -> Option<Claimed>
    requires { m ≤ 4 }
    ensures { result ≡ claimed_of m s.now }
{
    let n = s.len();
    if n < 3 {
        return None;
    }
    let shape = bits::field(s, 0, 2);
    let far = (n != length(shape, m)) | (shape == 3);
    if far {
        return None;
    }
    let reading = reading_in(s, m, shape)?;
    let at = gain_at(shape, m);
    let gain = bits::long_field(s, at, 17);
    let padding = bits::field(s, at + 17, 8 * n - (at + 17));
    let padded = 0 < padding;
    if padded {
        return None;
    }
    Some(Claimed {
        reading,
        gain: Points(gain),
    })
}

// ---- the verdict

// The groups use every tile of the tally exactly once.
fn splits_as(t: [u8; 34], groups: &[u8]) -> bool
    ensures { result ≡ strip t groups.now }
{
    match groups {
        [] => reading_steps::is_empty(t),
        [c, others @ ..] => {
            reading_steps::fits(t, *c) && splits_as(reading_steps::without(t, *c), others)
        }
    }
}

// The pair, the first n groups and the place of a reading are a regular one of the tally.
fn is_regular(t: [u8; 34], n: usize, win: u8, r: Reading) -> bool
    requires { (n ≤ 4) × (r.pair < 34) × (r.place ≤ 4) }
    ensures { result ≡ regularly t n win r.pair r.groups r.place }
{
    let k = r.pair as usize;
    if t[k] < 2 {
        return false;
    }
    splits_as(reading_steps::without_pair(t, k), &r.groups[..n]) & reading_steps::holds(r, win)
}

// The reading is one of the tally with m melds, won by the kind win.
fn is_reading(t: [u8; 34], m: u8, win: u8, r: Reading) -> bool
    requires { (m ≤ 4) × (r.place ≤ 4) × (r.shape ≡ 0 → r.pair < 34) }
    ensures { result ≡ reads t m win r }
{
    if r.shape == 0 {
        return is_regular(t, (4 - m) as usize, win, r);
    }
    if r.shape == 1 {
        return (m == 0) & reading_steps::is_seven_pairs(t);
    }
    (m == 0) & reading_steps::is_orphans(t)
}

// A verdict stays a number: `IsVerdict` of specs/ holds it, and C is given it.
// The verdict on a reading of the tiles: whether it has a yaku, what it pays, what is claimed, and the most that a reading with a yaku pays.
fn weighed(yaku: bool, paid: Points, gain: Points, most: Points) -> u8
    ensures { result ≡ weighed_as yaku paid.0 gain.0 most.0 }
{
    if !yaku {
        return 2;
    }
    if paid.0 != gain.0 {
        return 3;
    }
    let less = paid.0 < most.0;
    if less {
        return 4;
    }
    0
}

// The verdict on a reading and a gain that a claim names: 0, or the first condition that is false.
fn verdict(h: Hand, dealer: u8, wind: u8, r: Reading, gain: Points) -> u8
    requires { (h.held.m ≤ 4) × (h.fields.winner ≤ 3) × (dealer ≤ 3) × (wind ≤ 1) × IsFormed h.held.m r }
    ensures { result ≡ verdict_of h dealer wind r gain.0 }
{
    let m = h.held.m;
    let win = h.fields.winning;
    let c = hand::concealed_tally(h);
    if !is_reading(c, m, win, r) {
        return 1;
    }
    let t = score::hand_common_of(h, c, dealer, wind);
    let v = score_best::keep_better(t, score_best::none(0), r);
    let b = score_search::search_for(t, c, m, win, 0);
    weighed(v.valued, v.value.gain, gain, b.value.gain)
}

// ---- the call

// Judge's verdict on a claim for the record of a won hand, or the refusal.
fn try_judge(s: &[u8], claim: &[u8], dealer: u8, wind: u8) -> Result<u8, Refusal>
    ensures { judged_in result ≡ judged_of s.now claim.now dealer wind }
{
    if (3 < dealer) | (1 < wind) {
        return Err(Refusal::Argument);
    }
    let h = hand_record::read(s).hand()?;
    let x = read_claim(claim, h.held.m).ok_or(Refusal::Claim)?;
    Ok(verdict(h, dealer, wind, x.reading, x.gain))
}

// Judge: whether another scorer's claim for the record of a won hand is accepted, or which of the four conditions fails first; or why it is refused.
pub fn judge(s: &[u8], claim: &[u8], dealer: u8, wind: u8) -> Judged
    ensures judged { IsJudged s.now claim.now dealer wind result }
    ensures value { result ≡ judged_of s.now claim.now dealer wind }
{
    let judged = try_judge(s, claim, dealer, wind);
    Judged {
        refusal: refusals::number(judged),
        verdict: judged.unwrap_or(0),
    }
}
