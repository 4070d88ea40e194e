// Every reading of a record's tiles, not only the one that Score reports: how many there are, and the n-th of them, from 1, in document 01's order,
// with what it is worth.
#![tactic(auto)]

ghost use Rattle.std.specs.Prelude.{◌≡◌, false, cond, ◌<◌, ◌≤◌, length, get_or};
ghost use Rattle.hand.specs.Refusals.{wrong_discarder};
ghost use Rattle.points_value.specs.Han.{han as han_is};
ghost use Rattle.score_best.specs.search.HandCommon.{IsHandCommon};
ghost use Rattle.score.specs.Readings.{readings_of};
ghost use Rattle.score_readings.specs.Shown.{paid_of};
ghost use Rattle.score_readings.specs.IsNth.{refused_with, IsNth};
ghost use Rattle.score_readings.specs.Count.{count_of};
ghost use Rattle.score_readings.specs.NthOf.{nth_of};
ghost use Rattle.score_readings.specs.search.Found.{shown_by, hand_nth_of};

use hand::Hand;
use points::Seats;
use points_fu::Items;
use points_value::Value;
use score_best::{Best, HandCommon};
use units::{Fu, Han, Points};

// A reading with what it is worth: how many readings there are; A, the winner's gain and the four changes; h, how many dora count in it, and the han of
// each listed yaku (of yaku n at n); its shape, pair, groups and place as `Reading` has them; whether Score reports it; fu and its items; the yaku
// set. Or the refusal, and all else zero.
#[repr(C)]
#[derive(Clone, Copy)]
pub struct NthReading {
    pub count: u32,
    pub basic: Points,
    pub gain: Points,
    pub changes: [i32; 4],
    pub h: Han,
    pub dora: Han,
    pub han: [Han; 37],
    pub refusal: u8,
    pub shape: u8,
    pub pair: u8,
    pub groups: [u8; 4],
    pub place: u8,
    pub reported: bool,
    pub fu: Fu,
    pub items: Items,
    pub yaku: [bool; 37],
}

// How many readings there are, or the refusal and 0.
#[repr(C)]
#[derive(Clone, Copy)]
pub struct ReadingCount {
    pub count: u32,
    pub refusal: u8,
}

// What a reading pays: A, the winner's gain and the four changes.
#[derive(Clone, Copy)]
pub struct Paid {
    pub basic: Points,
    pub gain: Points,
    pub changes: [i32; 4],
}

// ---- what is shown of a reading

// A refusal, and all else zero.
fn refused(n: u8) -> NthReading
    ensures { result ≡ refused_with n }
{
    let changes = [0i32; 4];
    let han = [Han(0); 37];
    let groups = [0u8; 4];
    let items = points_fu::base_alone(Fu(0));
    let yaku = [false; 37];
    NthReading {
        count: 0,
        basic: Points(0),
        gain: Points(0),
        changes,
        h: Han(0),
        dora: Han(0),
        han,
        refusal: n,
        shape: 0,
        pair: 0,
        groups,
        place: 0,
        reported: false,
        fu: Fu(0),
        items,
        yaku,
    }
}

// What a reading with a yaku pays; one without a yaku cannot win.
fn paid_of(v: Value, s: Seats, ron: bool) -> Paid
    requires { v.basic.0 ≤ 8000 }
    ensures { result ≡ paid_of v s ron }
{
    let y = v.yaku;
    let a = v.basic;
    let g = v.gain;
    if yaku::has_yaku(y) {
        let changes = points::changes(s, ron, a);
        return Paid {
            basic: a,
            gain: g,
            changes,
        };
    }
    let none = [0i32; 4];
    Paid {
        basic: Points(0),
        gain: Points(0),
        changes: none,
    }
}

// How many dora count: none with a yakuman.
fn dora_in(t: HandCommon, yakuman: bool) -> Han
    requires { t.dora < 34 }
    ensures { result ≡ han_is (cond yakuman 0 (get_or t.won.tally t.dora 0)) }
{
    if yakuman {
        return Han(0);
    }
    let tally = t.won.tally;
    units::han_of(tally[t.dora as usize])
}

// The reading that the search found, with what it is worth.
fn shown(t: HandCommon, b: Best, reported: bool) -> NthReading
    requires { IsHandCommon t × (b.value.basic.0 ≤ 8000) }
    ensures { result ≡ shown_by t b reported }
{
    let r = b.reading;
    let v = b.value;
    let y = v.yaku;
    let s = t.seats;
    let g = r.groups;
    let items = v.items;
    let k = score_best::common_of(t, r);
    let values = k.tests.values;
    let han = points_value::han_each(y, t.won.closed, values);
    let dora = dora_in(t, yaku::is_yakuman(y));
    let p = paid_of(v, s, t.won.ron);
    let basic = p.basic;
    let gain = p.gain;
    let changes = p.changes;
    let h = v.han;
    let fu = v.fu;
    NthReading {
        count: b.tried,
        basic,
        gain,
        changes,
        h,
        dora,
        han,
        refusal: 0,
        shape: r.shape,
        pair: r.pair,
        groups: g,
        place: r.place,
        reported,
        fu,
        items,
        yaku: y,
    }
}

// ---- of a hand that read as sound

// The n-th reading, and whether it is the one that Score reports.
fn nth_hand(h: Hand, dealer: u8, wind: u8, n: u32) -> NthReading
    requires { (h.held.m ≤ 4) × (h.fields.winner ≤ 3) × (dealer ≤ 3) × (wind ≤ 1) × (h.fields.discarder ≤ 3) × (wrong_discarder h.fields ≡ false) }
    ensures { result ≡ hand_nth_of h dealer wind n }
{
    if n == 0 {
        return refused(8);
    }
    let c = hand::concealed_tally(h);
    let t = score::hand_common_of(h, c, dealer, wind);
    let b = score_search::search_for(t, c, h.held.m, h.fields.winning, n);
    if b.valued {
        let x = score_search::search_for(t, c, h.held.m, h.fields.winning, 0);
        let best = x.reading;
        let r = b.reading;
        return shown(t, b, x.valued & (best == r));
    }
    refused(8)
}

// How many readings it has: the first is searched for, as nothing ends that search.
fn count_hand(h: Hand, dealer: u8, wind: u8) -> u32
    requires { (h.held.m ≤ 4) × (h.fields.winner ≤ 3) × (dealer ≤ 3) × (wind ≤ 1) }
    ensures { result ≡ length (readings_of h) }
{
    let c = hand::concealed_tally(h);
    let t = score::hand_common_of(h, c, dealer, wind);
    let b = score_search::search_for(t, c, h.held.m, h.fields.winning, 1);
    b.tried
}

// ---- the calls

// The n-th reading of the record's tiles, from 1, with what it is worth; or why it is refused.
pub fn nth(s: &[u8], dealer: u8, wind: u8, n: u32) -> NthReading
    ensures nth { IsNth s.now dealer wind n result }
    ensures value { result ≡ nth_of s.now dealer wind n }
{
    if (3 < dealer) | (1 < wind) {
        return refused(8);
    }
    let r = hand_record::read(s);
    let a = r.answer;
    let Ok(f) = a else {
        return refused(refusals::number(a));
    };
    let held = r.held;
    let h = Hand { fields: f, held };
    nth_hand(h, dealer, wind, n)
}

// How many readings the record's tiles have; or why it is refused.
pub fn count(s: &[u8], dealer: u8, wind: u8) -> ReadingCount
    ensures { result ≡ count_of s.now dealer wind }
{
    if (3 < dealer) | (1 < wind) {
        return ReadingCount {
            count: 0,
            refusal: 8,
        };
    }
    let r = hand_record::read(s);
    let a = r.answer;
    let Ok(f) = a else {
        return ReadingCount {
            count: 0,
            refusal: refusals::number(a),
        };
    };
    let held = r.held;
    let h = Hand { fields: f, held };
    ReadingCount {
        count: count_hand(h, dealer, wind),
        refusal: 0,
    }
}
