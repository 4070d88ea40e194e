// What a reading is worth: its yaku, h, fu, the basic points and the winner's gain.
#![tactic(auto)]

ghost use Rattle.std.specs.Prelude.{◌≡◌, cond, ◌+◌, ◌<◌, ◌≤◌, eqb};
ghost use Rattle.yaku_tiles.specs.search.TileTests.{tile_tests_of};
ghost use Rattle.yaku.specs.Yaku.{is_yakuman, yaku_of, has_yaku};
ghost use Rattle.yaku_basics.specs.search.Ways.{ways_at};
ghost use Rattle.points_value.specs.Han.{han_each};
ghost use Rattle.points_value.specs.Value.{value_of};
ghost use Rattle.points_value.specs.search.Common.{IsCommon};

use points::Seats;
use points_fu::Items;
use units::{Fu, Han, Points};
use yaku::{FullReading, GroupTests, PlaceTests, Won};
use yaku_tiles::TileTests;

mod yaku_han;

// What a reading is worth: its yaku, h, the items of fu and their sum, the basic points A and the winner's gain.
#[derive(Clone, Copy)]
pub struct Value {
    pub yaku: [bool; 37],
    pub han: Han,
    pub items: Items,
    pub fu: Fu,
    pub basic: Points,
    pub gain: Points,
}

// What a reading is worth, and whether a yakuman or any yaku is listed for it.
#[derive(Clone, Copy)]
pub struct Worth {
    pub value: Value,
    pub yakuman: bool,
    pub any: bool,
}

// What is the same at each place of the winning tile: the four groups, and what they and the pair say. `han` is h without the yaku that go by the
// place or the ways. By the ways alone, `ankou` triplets are concealed, `kan` groups are kans, and `items` is what each group earns.
#[derive(Clone, Copy)]
pub struct Common {
    pub groups: [u8; 4],
    pub tests: GroupTests,
    pub han: Han,
    pub ankou: u8,
    pub kan: u8,
    pub items: [Fu; 4],
}

// What a pair and groups have at each place, to be made once for all of them; `dora` is the kind of the dora.
pub fn common_of(
    w: Won,
    x: TileTests,
    shape: u8,
    pair: u8,
    g: [u8; 4],
    ways: [u8; 4],
    dora: u8,
) -> Common
    requires x_value { x ≡ tile_tests_of w.tally w.meldless }
    requires round_bound { (w.round < 34) × (w.own < 34) × (dora < 34) }
    ensures { IsCommon w dora shape pair g ways result }
{
    let t = w.tally;
    let tests = yaku::group_tests(w, x, shape, pair, g);
    let y = tests.yaku;
    let d = t[dora as usize];
    let han = yaku_han::han(y, w.closed, tests.values, units::han_of(d));
    let ankou = yaku_groups::concealed(g, ways);
    let kan = yaku_groups::kans(ways);
    let items = points_fu::group_items(g, ways);
    Common {
        groups: g,
        tests,
        han,
        ankou,
        kan,
        items,
    }
}

// h, where q is what the place says.
fn hand_han(k: Common, q: PlaceTests) -> Han
    requires { k.han.0 ≤ 482 }
    ensures result_value { result.0 ≡ cond q.yakuman 0 (k.han.0 + cond q.pinfu 1 0 + cond (eqb q.ankou 3) 2 0 + cond (eqb q.kan 3) 2 0) }
    ensures result_bound { result.0 ≤ 487 }
{
    if q.yakuman {
        return Han(0);
    }
    yaku_han::placed(k.han, q)
}

// The han of each listed yaku, of yaku n at place n, where yaku 3 has `values`.
pub fn han_each(y: [bool; 37], closed: bool, values: Han) -> [Han; 37]
    ensures { result ≡ han_each y closed values.0 }
{
    yaku_han::han_each(y, closed, values)
}

// What a reading is worth, and whether a yakuman or any yaku is listed for it; `dora` is the kind of the dora.
// The ways of p are `ways`, but for the group that the winning tile completes.
pub fn value_of(w: Won, k: Common, p: FullReading, ways: [u8; 4], dora: u8, s: Seats) -> Worth
    requires common { IsCommon w dora p.shape p.pair p.groups ways k }
    requires ways_value { (p.ways ≡ ways_at ways w.ron p.place) × (p.place ≤ 4) }
    ensures value_value { result.value ≡ value_of w p dora s }
    ensures yakuman_value { (result.yakuman ≡ is_yakuman (yaku_of w p)) × (result.any ≡ has_yaku (yaku_of w p)) }
{
    let x = k.tests;
    let gs = p.groups;
    let ankou = yaku_groups::concealed_at(k.ankou, gs, ways, w.ron, p.place);
    let kan = yaku_groups::kans_at(k.kan, ways, w.ron, p.place);
    let earned = k.items;
    let group = points_fu::items_at(earned, gs, ways, w.ron, p.place);
    let q = yaku::place_tests(w, x, p, ankou, kan);
    let h = hand_han(k, q);
    let items = points_fu::items_of(w, x, q, p, group);
    let f = points_fu::added(items);
    let a = points::basic(q.yakuman, h, f);
    let g = points::gain(s, w.ron, a);
    let y = yaku::yaku_of(w, x, q, p);
    let value = Value {
        yaku: y,
        han: h,
        items,
        fu: f,
        basic: a,
        gain: g,
    };
    Worth {
        value,
        yakuman: q.yakuman,
        any: q.any,
    }
}
