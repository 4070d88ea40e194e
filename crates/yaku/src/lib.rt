// The 36 yaku of a reading, and which of them are listed.
#![tactic(auto)]

ghost use Rattle.std.specs.Prelude.{◌≡◌, ◌<◌, ◌≤◌};
ghost use Rattle.std.specs.List.{list_any};
ghost use Rattle.yaku_basics.specs.Tests.{concealed, kans};
ghost use Rattle.yaku_tiles.specs.search.TileTests.{tile_tests_of};
ghost use Rattle.yaku.specs.Yaku.{tests_of, is_yakuman, listed as listed_of, yaku_of, has_yaku};
ghost use Rattle.yaku.specs.search.Common.{group_tests_of, place_tests_of};

use units::Han;
use yaku_tiles::TileTests;

// Yaku 26 to 36 are the yakuman.
const FIRST_YAKUMAN: usize = 26;

// What is the same in every reading of a hand. The tally has all tiles, kans whole; round and own are kinds of wind;
// meldless says that no meld is held.
#[derive(Clone, Copy)]
pub struct Won {
    pub tally: [u8; 34],
    pub win: u8,
    pub round: u8,
    pub own: u8,
    pub riichi: u8,
    pub situation: u8,
    pub ron: bool,
    pub closed: bool,
    pub meldless: bool,
}

// A reading with its melds. Shape 0 is regular, 1 seven pairs, 2 thirteen orphans. The four groups are the reading's in its
// order and then the melds; a way is 0 concealed, 1 open, 2 an open kan, 3 a closed kan. Where there is none, the pair is 34
// and a group 68. Numbers, since the definitions over the papers' numbers hold them (`tests_of`, `is_concealed`, `triplet_fu`, `earns_wait`).
#[derive(Clone, Copy)]
pub struct FullReading {
    pub shape: u8,
    pub pair: u8,
    pub groups: [u8; 4],
    pub ways: [u8; 4],
    pub place: u8,
}

// What the pair and the groups say, the same at each place of the winning tile. `yaku` has the tests; those that go by the place or the ways are false.
// `yakuman` and `any` say what is among them, `values` is the han of yaku 3, `runs` yaku 4 but for the place, `value` that the pair is a value tile.
#[derive(Clone, Copy)]
pub struct GroupTests {
    pub yaku: [bool; 37],
    pub yakuman: bool,
    pub any: bool,
    pub values: Han,
    pub runs: bool,
    pub value: bool,
}

// What the place of the winning tile says, and the ways with it: whether the wait earns fu; yaku 4; how many triplets are concealed and how many
// groups are kans; and whether a yakuman, or any yaku, is among all tests.
#[derive(Clone, Copy)]
pub struct PlaceTests {
    pub wait: bool,
    pub pinfu: bool,
    pub ankou: u8,
    pub kan: u8,
    pub yakuman: bool,
    pub any: bool,
}

// The tests of the pair and the groups, to be made once for all places.
pub fn group_tests(w: Won, x: TileTests, shape: u8, pair: u8, g: [u8; 4]) -> GroupTests
    requires x_value { x ≡ tile_tests_of w.tally w.meldless }
    requires round_bound { (w.round < 34) × (w.own < 34) }
    ensures value { result ≡ group_tests_of w shape pair g }
    ensures values_bound { result.values.0 ≤ 5 }
{
    let round = w.round;
    let own = w.own;
    let riichi = w.riichi;
    let situation = w.situation;
    let ron = w.ron;
    let closed = w.closed;
    let little = yaku_basics::little_dragons(g, pair);
    let values = yaku_basics::value_han(g, round, own, little);
    let twin = yaku_groups::twins(g);
    let outside = yaku_groups::outside(g, pair);
    let value = yaku_basics::is_value(round, own, pair);
    let yaku = [
        false,
        closed & !ron,
        x.simples,
        0 < values.0,
        false,
        closed & (twin == 1),
        situation == 2,
        situation == 1,
        (situation == 3) & !ron,
        (situation == 3) & ron,
        closed & (riichi == 1),
        closed & (riichi == 2),
        closed & (shape == 1),
        yaku_groups::in_three_suits(0, g),
        yaku_groups::straight(g),
        outside & x.honour,
        yaku_groups::in_three_suits(34, g),
        yaku_groups::triplets(g),
        false,
        false,
        x.yaochus,
        closed & (twin == 2),
        outside & !x.honour,
        x.half,
        little,
        x.flush,
        (situation == 4) & (own == 27),
        (situation == 4) & !(own == 27),
        yaku_basics::dragons(g) == 3,
        yaku_groups::four_winds(g, pair),
        false,
        false,
        x.honours,
        x.terminals,
        x.greens,
        x.gates,
        shape == 2,
    ];
    let runs = yaku_basics::may_be_pinfu(closed, g, value);
    let yakuman = is_yakuman(yaku);
    let any = has_yaku(yaku);
    GroupTests {
        yaku,
        yakuman,
        any,
        values,
        runs,
        value,
    }
}

// The tests of the place, where `ankou` triplets are concealed and `kan` groups are kans.
pub fn place_tests(w: Won, k: GroupTests, p: FullReading, ankou: u8, kan: u8) -> PlaceTests
    requires k_value { k ≡ group_tests_of w p.shape p.pair p.groups }
    requires ankou_value { (ankou ≡ concealed p.groups p.ways) × (kan ≡ kans p.ways) × (p.place ≤ 4) }
    ensures { result ≡ place_tests_of w p }
{
    let g = p.groups;
    let wait = yaku_basics::earns_wait(p.place, yaku_basics::placed(g, p.place), w.win);
    let pinfu = k.runs & !wait;
    let all_ankou = w.closed & (ankou == 4);
    PlaceTests {
        wait,
        pinfu,
        ankou,
        kan,
        yakuman: k.yakuman | (all_ankou | (kan == 4)),
        any: k.any | (pinfu | (ankou == 3) | (kan == 3) | all_ankou | (kan == 4)),
    }
}

// Each of the 36 yaku, whatever the others say: yaku n at place n.
pub fn tests(w: Won, k: GroupTests, q: PlaceTests, p: FullReading) -> [bool; 37]
    requires k_value { k ≡ group_tests_of w p.shape p.pair p.groups }
    requires q_value { q ≡ place_tests_of w p }
    ensures { result ≡ tests_of w p }
{
    let mut y = k.yaku;
    y[4] = q.pinfu;
    y[18] = q.ankou == 3;
    y[19] = q.kan == 3;
    y[30] = w.closed & (q.ankou == 4);
    y[31] = q.kan == 4;
    y
}

// One of these tests holds. All are read: a fold without a branch is quicker here than `any`, which stops at the first.
fn some(tests: &[bool]) -> bool
    ensures { result ≡ list_any (λ b. b) tests.now }
{
    tests.iter().fold(false, |found, &test| found | test)
}

// A yakuman is among the yaku.
pub fn is_yakuman(y: [bool; 37]) -> bool
    ensures { result ≡ is_yakuman y }
{
    some(&y[FIRST_YAKUMAN..])
}

// With a yakuman only yakuman are listed.
fn listed(y: [bool; 37], yakuman: bool) -> [bool; 37]
    requires { yakuman ≡ is_yakuman y }
    ensures { result ≡ listed_of y }
{
    if !yakuman {
        return y;
    }
    let mut z = [false; 37];
    z[FIRST_YAKUMAN..].copy_from_slice(&y[FIRST_YAKUMAN..]);
    z
}

// The yaku that are listed for a reading: with a yakuman only yakuman.
pub fn yaku_of(w: Won, k: GroupTests, q: PlaceTests, p: FullReading) -> [bool; 37]
    requires k_value { k ≡ group_tests_of w p.shape p.pair p.groups }
    requires q_value { q ≡ place_tests_of w p }
    ensures { result ≡ yaku_of w p }
{
    listed(tests(w, k, q, p), q.yakuman)
}

// A yaku is listed.
pub fn has_yaku(y: [bool; 37]) -> bool
    ensures { result ≡ has_yaku y }
{
    some(&y)
}
