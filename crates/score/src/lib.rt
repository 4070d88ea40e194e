// Score: a record, the dealer and the round wind give the best reading's h, fu with its items, yaku and four changes, and how many readings were
// tried, or a refusal (01, Score; 02, S-3 and S-4).
#![tactic(auto)]

ghost use Rattle.std.specs.Prelude.{◌≡◌, false, cond, ◌-◌, ◌<◌, ◌≤◌, ltb, get_or};
ghost use Rattle.hand.specs.Hand.{concealed_tally};
ghost use Rattle.hand.specs.Refusals.{wrong_discarder};
ghost use Rattle.yaku_basics.specs.Melds.{meld_code, meld_way};
ghost use Rattle.score_best.specs.search.HandCommon.{IsHandCommon};
ghost use Rattle.score.specs.Named.{won_of, refused_with, accepted_as, Named};
ghost use Rattle.score.specs.search.HandCommon.{meld_codes, meld_ways, hand_common_of};
ghost use Rattle.score.specs.search.HandScore.{hand_score_of};
ghost use Rattle.score.specs.IsScore.{IsScore};
ghost use Rattle.score.specs.Score.{score_of};

use hand::Hand;
use points::Seats;
use points_fu::Items;
use points_value::Value;
use score_best::HandCommon;
use units::{Fu, Han};
use yaku::Won;

// What Score gives: 0 and h, fu, the items that add up to it, the yaku set (yaku n at n), how many readings were tried and the four changes, or the
// refusal and zeros.
#[repr(C)]
#[derive(Clone, Copy)]
pub struct Scored {
    pub refusal: u8,
    pub h: Han,
    pub fu: Fu,
    pub items: Items,
    pub yaku: [bool; 37],
    pub tried: u32,
    pub changes: [i32; 4],
}

// How the hand was won, where c is the tally of its concealed tiles with the winning tile.
fn won_of(h: Hand, c: [u8; 34], dealer: u8, wind: u8) -> Won
    requires { (h.fields.winner ≤ 3) × (dealer ≤ 3) × (wind ≤ 1) × (c ≡ concealed_tally h) }
    ensures { result ≡ won_of h dealer wind }
{
    let f = h.fields;
    let x = h.held;
    let t = hand::with_melds(c, h);
    Won {
        tally: t,
        win: f.winning,
        round: 27 + wind,
        own: 27 + (f.winner + 4 - dealer) % 4,
        riichi: f.riichi,
        situation: f.situation,
        ron: f.how == 1,
        closed: hand::is_closed(x),
        meldless: x.m == 0,
    }
}

// The group of the meld at a place, or none.
fn code_at(d: [u8; 4], m: u8, i: u8) -> u8
    requires { (m ≤ 4) × (i < 4) }
    ensures { result ≡ cond (ltb i (4 - m)) 68 (meld_code (get_or d (i - (4 - m)) 0)) }
{
    let free = 4 - m;
    if i < free {
        68
    } else {
        yaku_basics::meld_code(d[(i - free) as usize])
    }
}

// The way of the meld at a place, or concealed.
fn way_at(d: [u8; 4], m: u8, i: u8) -> u8
    requires { (m ≤ 4) × (i < 4) }
    ensures { result ≡ cond (ltb i (4 - m)) 0 (meld_way (get_or d (i - (4 - m)) 0)) }
{
    let free = 4 - m;
    if i < free {
        0
    } else {
        yaku_basics::meld_way(d[(i - free) as usize])
    }
}

// The groups of the melds, in the last of four places.
fn meld_codes(h: Hand) -> [u8; 4]
    requires { h.held.m ≤ 4 }
    ensures { result ≡ meld_codes h }
{
    let x = h.held;
    let d = x.melds;
    let m = x.m;
    [
        code_at(d, m, 0),
        code_at(d, m, 1),
        code_at(d, m, 2),
        code_at(d, m, 3),
    ]
}

// The ways of the melds, in the last of four places.
fn meld_ways(h: Hand) -> [u8; 4]
    requires { h.held.m ≤ 4 }
    ensures { result ≡ meld_ways h }
{
    let x = h.held;
    let d = x.melds;
    let m = x.m;
    [
        way_at(d, m, 0),
        way_at(d, m, 1),
        way_at(d, m, 2),
        way_at(d, m, 3),
    ]
}

// What is the same in every reading of the hand, where c is the tally that the readings go by.
pub fn hand_common_of(h: Hand, c: [u8; 34], dealer: u8, wind: u8) -> HandCommon
    requires { (h.held.m ≤ 4) × (h.fields.winner ≤ 3) × (dealer ≤ 3) × (wind ≤ 1) × (c ≡ concealed_tally h) }
    ensures { (result ≡ hand_common_of h dealer wind) × IsHandCommon result }
{
    let won = won_of(h, c, dealer, wind);
    let t = won.tally;
    let tests = yaku_tiles::tile_tests(t, won.meldless);
    let codes = meld_codes(h);
    let ways = meld_ways(h);
    let seats = Seats {
        winner: h.fields.winner,
        dealer,
        discarder: h.fields.discarder,
    };
    HandCommon {
        won,
        tests,
        seats,
        dora: tiles::dora(h.fields.indicator),
        codes,
        ways,
    }
}

// A refusal, and all else zero.
fn refused(n: u8) -> Scored
    ensures { result ≡ refused_with n }
{
    let none = [false; 37];
    let zero = [0i32; 4];
    let items = points_fu::base_alone(Fu(0));
    Scored {
        refusal: n,
        h: Han(0),
        fu: Fu(0),
        items,
        yaku: none,
        tried: 0,
        changes: zero,
    }
}

// An accepted hand by the value of its reported reading and how many were tried.
fn accepted(v: Value, s: Seats, ron: bool, tried: u32) -> Scored
    requires { v.basic.0 ≤ 8000 }
    ensures { result ≡ accepted_as v s ron tried }
{
    let y = v.yaku;
    let a = v.basic;
    let han = v.han;
    let fu = v.fu;
    let items = v.items;
    let c = points::changes(s, ron, a);
    Scored {
        refusal: 0,
        h: han,
        fu,
        items,
        yaku: y,
        tried,
        changes: c,
    }
}

// What a hand that read as sound scores, the answer that the papers name for it: an inner call of Score and of the game. That a ron is from another
// seat makes each yakuman a paid one, at which the search may end.
pub fn score_hand(h: Hand, dealer: u8, wind: u8) -> Scored
    requires { (h.held.m ≤ 4) × (h.fields.winner ≤ 3) × (dealer ≤ 3) × (wind ≤ 1) × (h.fields.discarder ≤ 3) × (wrong_discarder h.fields ≡ false) }
    ensures named { Named h dealer wind result }
    ensures value { result ≡ hand_score_of h dealer wind }
{
    let c = hand::concealed_tally(h);
    let t = hand_common_of(h, c, dealer, wind);
    let b = score_search::search_for(t, c, h.held.m, h.fields.winning, 0);
    if 0 < b.tried {
        if b.valued {
            let v = b.value;
            let s = t.seats;
            return accepted(v, s, t.won.ron, b.tried);
        }
        return refused(7);
    }
    refused(6)
}

// Score: what the record of a won hand is worth and who pays what, by the best of its readings; or why it is refused.
pub fn score(s: &[u8], dealer: u8, wind: u8) -> Scored
    ensures score { IsScore s.now dealer wind result }
    ensures value { result ≡ score_of s.now dealer wind }
{
    if (3 < dealer) | (1 < wind) {
        return refused(8);
    }
    let r = hand_record::read(s);
    let a = r.answer;
    let Ok(f) = a else {
        return refused(refusals::number(a));
    };
    let held = r.held;
    let h = Hand { fields: f, held };
    score_hand(h, dealer, wind)
}
