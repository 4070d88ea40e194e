// What a reading of a hand is worth, beside what is the same in every one of them; and the better of two readings: what a search keeps, and a
// reading held against it.
#![tactic(auto)]

ghost use Rattle.std.specs.Prelude.{◌≡◌, false, ◌≤◌};
ghost use Rattle.yaku.specs.Yaku.{is_yakuman, has_yaku};
ghost use Rattle.score_best.specs.search.HandCommon.{joined as joined_of, full_reading_in, worth_in, IsHandCommon, IsCommonIn};
ghost use Rattle.score_best.specs.search.Best.{beats as beats_of, none_of, keep_of, keep_better};

use points::Seats;
use points_value::{Common, Value, Worth};
use reading::Reading;
use units::{Fu, Han, Points};
use yaku::{FullReading, Won};
use yaku_tiles::TileTests;

// What is the same in every reading: how the hand was won, the tests of its tiles, the seats, the dora's kind, the melds' groups and ways.
#[derive(Clone, Copy)]
pub struct HandCommon {
    pub won: Won,
    pub tests: TileTests,
    pub seats: Seats,
    pub dora: u8,
    pub codes: [u8; 4],
    pub ways: [u8; 4],
}

// What the search keeps. `valued` says that a reading had a yaku; `value` and `reading` are the best of those. `done` says that the last reading had a
// yakuman, which ends the search; `tried` is how many were tried. Where `wanted` is not 0, it is the number, from 1, of the reading to keep: then `valued`
// says that it was reached, and nothing ends the search. These stay fields and a number: `none_of`, `taking` and `passing` of specs/search, and the
// theorems over them, speak of each.
#[derive(Clone, Copy)]
pub struct Best {
    pub valued: bool,
    pub value: Value,
    pub reading: Reading,
    pub done: bool,
    pub tried: u32,
    pub wanted: u32,
}

// ---- what a reading is worth

// The groups of a reading and, in the places where it has none, those of the melds.
fn joined(groups: [u8; 4], melds: [u8; 4]) -> [u8; 4]
    ensures { result ≡ joined_of groups melds }
{
    let mut out = melds;
    for (place, &code) in groups.iter().enumerate() {
        if code != 68 {
            out[place] = code;
        }
    }
    out
}

// What the pair and groups of a reading have at each place, to be made once for all of them.
pub fn common_of(t: HandCommon, r: Reading) -> Common
    requires { IsHandCommon t }
    ensures { IsCommonIn t r.shape r.pair r.groups result }
{
    let w = t.won;
    let x = t.tests;
    let rg = r.groups;
    let mc = t.codes;
    let mw = t.ways;
    points_value::common_of(w, x, r.shape, r.pair, joined(rg, mc), mw, t.dora)
}

// The reading with the melds.
fn full_reading(t: HandCommon, k: Common, r: Reading) -> FullReading
    requires { (k.groups ≡ joined_of r.groups t.codes) × (r.place ≤ 4) }
    ensures { result ≡ full_reading_in t r }
{
    let mw = t.ways;
    let groups = k.groups;
    let ways = yaku_basics::ways_at(mw, t.won.ron, r.place);
    FullReading {
        shape: r.shape,
        pair: r.pair,
        groups,
        ways,
        place: r.place,
    }
}

// What a reading is worth and whether a yakuman or any yaku is listed for it, where k is what its pair and groups have at each place.
fn worth_at(t: HandCommon, k: Common, r: Reading) -> Worth
    requires { IsCommonIn t r.shape r.pair r.groups k × (r.place ≤ 4) }
    ensures value_value { result.value ≡ worth_in t r }
    ensures yakuman_value { (result.yakuman ≡ is_yakuman (worth_in t r).yaku) × (result.any ≡ has_yaku (worth_in t r).yaku) }
{
    let w = t.won;
    let s = t.seats;
    let mw = t.ways;
    points_value::value_of(w, k, full_reading(t, k, r), mw, t.dora, s)
}

// ---- what a search keeps

// The value v is above w: by gain, then h, then fu.
fn beats(v: Value, w: Value) -> bool
    ensures { result ≡ beats_of v w }
{
    (w.gain.0 < v.gain.0)
        | ((v.gain.0 == w.gain.0)
            & ((w.han.0 < v.han.0) | ((v.han.0 == w.han.0) & (w.fu.0 < v.fu.0))))
}

// What is kept before any reading.
pub fn none(wanted: u32) -> Best
    ensures { result ≡ none_of wanted }
{
    let y = [false; 37];
    let items = points_fu::base_alone(Fu(0));
    let v = Value {
        yaku: y,
        han: Han(0),
        items,
        fu: Fu(0),
        basic: Points(0),
        gain: Points(0),
    };
    let r = reading::of_shape(0);
    Best {
        valued: false,
        value: v,
        reading: r,
        done: false,
        tried: 0,
        wanted,
    }
}

// The better of what is kept and a reading of worth v; of equals what is kept. Where one is wanted by its number: that one, whatever it is worth.
fn keep(b: Best, r: Reading, v: Worth) -> Best
    ensures { result ≡ keep_of b r v }
{
    let kept = b.value;
    let worth = v.value;
    let tried = b.tried.saturating_add(1);
    let best = b.wanted == 0;
    let mut x = b;
    x.done = best & v.yakuman;
    x.tried = tried;
    if (best & (v.any & (!b.valued | beats(worth, kept)))) | (tried == b.wanted) {
        x.valued = true;
        x.value = worth;
        x.reading = r;
    }
    x
}

// The better of what is kept and a reading, where k is what its pair and groups have at each place. None is valued once the search is done.
pub fn keep_better_at(t: HandCommon, k: Common, b: Best, r: Reading) -> Best
    requires { IsCommonIn t r.shape r.pair r.groups k × (r.place ≤ 4) × (b.done ≡ false) }
    ensures { result ≡ keep_better (worth_in t) b r }
{
    keep(b, r, worth_at(t, k, r))
}

// The same for a reading that is the only one of its pair and groups.
pub fn keep_better(t: HandCommon, b: Best, r: Reading) -> Best
    requires { IsHandCommon t × (r.place ≤ 4) × (b.done ≡ false) }
    ensures { result ≡ keep_better (worth_in t) b r }
{
    keep_better_at(t, common_of(t, r), b, r)
}
