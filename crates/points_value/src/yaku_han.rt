// The han of a list of yaku, with the dora.
ghost use Rattle.std.specs.Prelude.{◌≡◌, cond, ◌+◌, ◌/◌, ◌%◌, ◌<◌, ◌≤◌, eqb};
ghost use Rattle.points_value.specs.Han.{yaku_han, han_each};
ghost use Rattle.points_value.specs.search.Han.{fixed_han, han_by};

use units::Han;
use yaku::PlaceTests;

// The han of each yaku: in a closed hand, then in an open one, so that 0x21 is the paper's 2−1 and 0x10 its c1. Yakuman have none.
const HAN: [u8; 37] = [
    0x00, 0x10, // 1 tsumo
    0x11, // 2 all simples
    0x00, // 3 value triplet: as many as it counts
    0x10, // 4 pinfu
    0x10, // 5 one twin run
    0x11, // 6 chankan
    0x11, // 7 rinshan
    0x11, // 8 last tile tsumo
    0x11, // 9 last tile ron
    0x10, // 10 riichi
    0x20, // 11 double riichi
    0x20, // 12 seven pairs
    0x21, // 13 same run in three suits
    0x21, // 14 123 456 789 of a suit
    0x21, // 15 yaochu in every group and pair, an honour present
    0x22, // 16 same triplet in three suits
    0x22, // 17 four triplets
    0x22, // 18 three concealed triplets
    0x22, // 19 three kans
    0x22, // 20 only yaochu
    0x30, // 21 two twin runs
    0x32, // 22 as 15 with no honour
    0x32, // 23 one suit and honours
    0x44, // 24 two dragon triplets and a dragon pair
    0x65, // 25 one suit
    0x00, 0x00, 0x00, 0x00, 0x00, 0x00, 0x00, 0x00, 0x00, 0x00, 0x00,
];

// The han where the yaku is listed, else none.
fn han_if(listed: bool, han: Han) -> Han
    ensures result_value { result.0 ≡ cond listed han.0 0 }
    ensures result_le_han { result.0 ≤ han.0 }
{
    if listed { han } else { Han(0) }
}

// Of the two han of a listed yaku, packed in one byte, the one that goes for the hand.
fn han_for(listed: bool, closed: bool, both: u8) -> Han
    ensures { result.0 ≡ cond listed (cond closed (both / 16) (both % 16)) 0 }
{
    if listed {
        if closed {
            units::han_of(both / 16)
        } else {
            units::han_of(both % 16)
        }
    } else {
        Han(0)
    }
}

// The han of the listed yaku, without what yaku 3 counts.
fn han_by(y: [bool; 37], closed: bool) -> Han
    ensures result_value { result.0 ≡ han_by y (fixed_han closed) }
    ensures result_bound { result.0 ≤ 222 }
{
    // copied once: a constant that is read in a loop is copied in every turn
    let each = HAN;
    let mut n: u16 = 0;
    for i in 0..37 {
        n += han_for(y[i], closed, each[i]).0;
    }
    Han(n)
}

// h: the han of the listed yaku, where yaku 3 has `values`, and of the dora.
pub fn han(y: [bool; 37], closed: bool, values: Han, dora: Han) -> Han
    requires { (values.0 ≤ 5) × (dora.0 < 256) }
    ensures result_value { result.0 ≡ yaku_han y closed values.0 + dora.0 }
    ensures result_bound { result.0 ≤ 482 }
{
    Han(han_by(y, closed).0 + han_if(y[3], values).0 + dora.0)
}

// The han of each listed yaku, of yaku n at place n, where yaku 3 has `values`.
pub fn han_each(y: [bool; 37], closed: bool, values: Han) -> [Han; 37]
    ensures { result ≡ han_each y closed values.0 }
{
    let each = HAN;
    let mut out = [Han(0); 37];
    for i in 0..37 {
        out[i] = han_for(y[i], closed, each[i]);
    }
    out[3] = han_if(y[3], values);
    out
}

// h. `before` is h without the yaku that go by the place or the ways: 4, which is closed only, 18 and 19. (30 and 31 are yakuman.)
pub fn placed(before: Han, q: PlaceTests) -> Han
    requires { before.0 ≤ 482 }
    ensures result_value { result.0 ≡ before.0 + cond q.pinfu 1 0 + cond (eqb q.ankou 3) 2 0 + cond (eqb q.kan 3) 2 0 }
    ensures result_bound { result.0 ≤ 487 }
{
    Han(
        before.0
            + han_if(q.pinfu, Han(1)).0
            + han_if(q.ankou == 3, Han(2)).0
            + han_if(q.kan == 3, Han(2)).0,
    )
}
