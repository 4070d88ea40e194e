// The hand: its fields, the tiles held, the tallies of its tiles (01, Tiles and the hand record).
#![tactic(auto)]

ghost use Rattle.std.specs.Prelude.{◌≡◌, ℕ, ◌+◌, ◌-◌, ◌*◌, ◌/◌, ◌%◌, ◌≤◌, ◌<◌, eqb, get_or, length, take};
ghost use Rattle.tiles.specs.Below.{count_below};
ghost use Rattle.tiles.specs.Tally.{tally_of};
ghost use Rattle.hand.specs.Held.{is_closed, meld_holds, in_melds, in_others, in_held};
ghost use Rattle.hand.specs.Hand.{concealed_tally, hand_tally};

// The numbers of a hand, in the record's order: how 0 tsumo, 1 ron.
#[repr(C)]
#[derive(Clone, Copy, Default)]
pub struct Fields {
    pub how: u8,
    pub winner: u8,
    pub discarder: u8,
    pub riichi: u8,
    pub situation: u8,
    pub indicator: u8,
    pub winning: u8,
}

// The tiles held: m melds, each 64 times its kind plus its tile, and 13 - 3m concealed tiles beside the winning one. Unused places are 0.
#[repr(C)]
#[derive(Clone, Copy, Default)]
pub struct Held {
    pub m: u8,
    pub melds: [u8; 4],
    pub concealed: [u8; 13],
}

// A finished hand.
#[repr(C)]
#[derive(Clone, Copy, Default)]
pub struct Hand {
    pub fields: Fields,
    pub held: Held,
}

impl Held {
    // The melds: the places that are used.
    pub fn melds(&self) -> &[u8]
        ensures { result.now ≡ take self.now.m self.now.melds }
    {
        &self.melds[..usize::from(self.m).min(4)]
    }

    // The concealed tiles beside the winning one: the places that are used.
    pub fn concealed(&self) -> &[u8]
        ensures { result.now ≡ take (13 - 3 * self.now.m) self.now.concealed }
    {
        &self.concealed[..others(self.m)]
    }
}

// How many concealed tiles there are beside the winning one.
pub fn others(m: u8) -> usize
    ensures { (result ≡ 13 - 3 * m) × (result ≤ 13) }
{
    if m <= 4 { 13 - 3 * (m as usize) } else { 0 }
}

// All melds are closed kans.
pub fn is_closed(x: Held) -> bool
    ensures { result ≡ is_closed x }
{
    x.melds().iter().all(|&b| b / 64 == 3)
}

// ---- tallies

// The tally of at most 13 tiles.
fn tally_of(tiles: &[u8]) -> [u8; 34]
    requires { length tiles.now ≤ 13 }
    ensures { result ≡ tally_of (λ k. count_below (length tiles.now) (λ i. eqb (get_or tiles.now i 0) k)) }
{
    let mut t = [0u8; 34];
    for &k in tiles {
        if k < 34 {
            t[usize::from(k)] += 1;
        }
    }
    t
}

// The tally of the concealed tiles alone.
pub fn others_tally(x: Held) -> [u8; 34]
    ensures { result ≡ tally_of (in_others x) }
{
    tally_of(x.concealed())
}

// A tally with the tiles of a meld added.
fn add_meld(t: [u8; 34], b: u8) -> [u8; 34]
    requires { (k : ℕ) → get_or t k 0 ≤ 240 }
    ensures { (k : ℕ) → k < 34 → get_or result k 0 ≡ get_or t k 0 + meld_holds b k }
{
    let tile = b % 64;
    if b / 64 == 0 {
        let u = tiles::add(t, tile, 1);
        let v = tiles::add(u, tile + 1, 1);
        tiles::add(v, tile + 2, 1)
    } else if b / 64 == 1 {
        tiles::add(t, tile, 3)
    } else {
        tiles::add(t, tile, 4)
    }
}

// A tally with the tiles of all melds added, kans whole.
fn add_melds(t: [u8; 34], x: Held) -> [u8; 34]
    requires { (k : ℕ) → get_or t k 0 ≤ 224 }
    ensures { (k : ℕ) → k < 34 → get_or result k 0 ≡ get_or t k 0 + in_melds x k }
{
    let mut sum = t;
    for &b in x.melds() {
        let more = add_meld(sum, b);
        sum = more;
    }
    sum
}

// The tally of melds and concealed tiles together.
pub fn held_tally(x: Held) -> [u8; 34]
    ensures { result ≡ tally_of (in_held x) }
{
    add_melds(others_tally(x), x)
}

// The tally of the concealed tiles with the winning tile: what readings go by.
pub fn concealed_tally(h: Hand) -> [u8; 34]
    ensures { result ≡ concealed_tally h }
{
    tiles::add(others_tally(h.held), h.fields.winning, 1)
}

// The tally of all tiles of the hand, where c is that of its concealed tiles with the winning tile: the melds alone are counted.
pub fn with_melds(c: [u8; 34], h: Hand) -> [u8; 34]
    requires { c ≡ concealed_tally h }
    ensures { result ≡ hand_tally h }
{
    add_melds(c, h.held)
}

// The tally of all tiles of the hand: what yaku and dora go by.
pub fn hand_tally(h: Hand) -> [u8; 34]
    ensures { result ≡ hand_tally h }
{
    with_melds(concealed_tally(h), h)
}
