// The yaku that go by the tiles alone. Nine sorts of kinds are told apart, and one pass over the tally says which of them are there.
#![tactic(auto)]

ghost use Rattle.std.specs.Prelude.{◌≡◌, ◌<◌};
ghost use Rattle.yaku_tiles.specs.search.TileTests.{tile_tests_of};
ghost use Rattle.yaku_tiles.specs.search.Sorts.{sorts_in, within};
ghost use Rattle.tiles.specs.Kinds.{in_suit};
ghost use Rattle.yaku_tiles.specs.OfTiles.{only as only_of, gates_of, gates as gates_is};

// What the tiles alone say, the same in every reading of a hand.
#[derive(Clone, Copy)]
pub struct TileTests {
    pub simples: bool,
    pub yaochus: bool,
    pub honour: bool,
    pub half: bool,
    pub flush: bool,
    pub honours: bool,
    pub terminals: bool,
    pub greens: bool,
    pub gates: bool,
}

// Sets of sorts: terminals and simples of man; of pin; terminals, 2 3 4 6 8 and 5 7 of sou; honours but hatsu; hatsu.
const NUMBERS: [bool; 9] = [true, true, true, true, true, true, true, false, false];

const SIMPLES: [bool; 9] = [false, true, false, true, false, true, true, false, false];

const TERMINALS: [bool; 9] = [true, false, true, false, true, false, false, false, false];

const HONOURS: [bool; 9] = [false, false, false, false, false, false, false, true, true];

const YAOCHUS: [bool; 9] = [true, false, true, false, true, false, false, true, true];

const GREENS: [bool; 9] = [false, false, false, false, false, true, false, false, true];

const MAN: [bool; 9] = [true, true, false, false, false, false, false, false, false];

const PIN: [bool; 9] = [false, false, true, true, false, false, false, false, false];

const SOU: [bool; 9] = [false, false, false, false, true, true, true, false, false];

const MAN_HONOURS: [bool; 9] = [true, true, false, false, false, false, false, true, true];

const PIN_HONOURS: [bool; 9] = [false, false, true, true, false, false, false, true, true];

const SOU_HONOURS: [bool; 9] = [false, false, false, false, true, true, true, true, true];

// Which sorts of tiles the tally has. Written out: the kinds of a sort are no range, and a table of nine lists of kinds is no plainer.
fn sorts(t: [u8; 34]) -> [bool; 9]
    ensures { result ≡ sorts_in t }
{
    [
        (0 < t[0]) | (0 < t[8]),
        (0 < t[1]) | (0 < t[2]) | (0 < t[3]) | (0 < t[4]) | (0 < t[5]) | (0 < t[6]) | (0 < t[7]),
        (0 < t[9]) | (0 < t[17]),
        (0 < t[10])
            | (0 < t[11])
            | (0 < t[12])
            | (0 < t[13])
            | (0 < t[14])
            | (0 < t[15])
            | (0 < t[16]),
        (0 < t[18]) | (0 < t[26]),
        (0 < t[19]) | (0 < t[20]) | (0 < t[21]) | (0 < t[23]) | (0 < t[25]),
        (0 < t[22]) | (0 < t[24]),
        (0 < t[27]) | (0 < t[28]) | (0 < t[29]) | (0 < t[30]) | (0 < t[31]) | (0 < t[33]),
        0 < t[32],
    ]
}

// Each sort that is there is in the set.
fn only(x: [bool; 9], set: [bool; 9]) -> bool
    ensures { result ≡ within x set }
{
    x.iter()
        .zip(&set)
        .all(|(there, allowed)| *allowed | !*there)
}

// Three of the 1 and of the 9 of a suit, and one at least of each between.
fn gates_of(t: [u8; 34], s: usize) -> bool
    requires { s < 3 }
    ensures { result ≡ gates_of t s }
{
    let i = 9 * s;
    (3 <= t[i])
        & (1 <= t[i + 1])
        & (1 <= t[i + 2])
        & (1 <= t[i + 3])
        & (1 <= t[i + 4])
        & (1 <= t[i + 5])
        & (1 <= t[i + 6])
        & (1 <= t[i + 7])
        & (3 <= t[i + 8])
}

// Yaku 35: no meld, one suit's 1112345678999 and one more of it; man, pin and sou say of which suit all tiles are.
fn gates(t: [u8; 34], meldless: bool, man: bool, pin: bool, sou: bool) -> bool
    requires { (man ≡ only_of t (in_suit 0)) × (pin ≡ only_of t (in_suit 1)) × (sou ≡ only_of t (in_suit 2)) }
    ensures { result ≡ gates_is t meldless }
{
    if !(meldless & (man | pin | sou)) {
        return false;
    }
    (man & gates_of(t, 0)) | (pin & gates_of(t, 1)) | (sou & gates_of(t, 2))
}

// The tests of the tiles alone, to be made once for a hand.
pub fn tile_tests(t: [u8; 34], meldless: bool) -> TileTests
    ensures { result ≡ tile_tests_of t meldless }
{
    let x = sorts(t);
    let man = only(x, MAN);
    let pin = only(x, PIN);
    let sou = only(x, SOU);
    let numbers = only(x, NUMBERS);
    let honours = only(x, HONOURS);
    let one_suit = only(x, MAN_HONOURS) | only(x, PIN_HONOURS) | only(x, SOU_HONOURS);
    TileTests {
        simples: only(x, SIMPLES),
        yaochus: only(x, YAOCHUS),
        honour: !numbers,
        half: one_suit & !numbers & !honours,
        flush: man | pin | sou,
        honours,
        terminals: only(x, TERMINALS),
        greens: only(x, GREENS),
        gates: gates(t, meldless, man, pin, sou),
    }
}
