// What an unfinished hand waits for, and whether it is in furiten (02, S-1).
#![tactic(auto)]

ghost use Rattle.std.specs.Prelude.{◌≡◌, ◌&&◌, true, false, ℕ, suc, ◌-◌, ◌<◌, ◌≤◌, ltb, length, get_or, sum as total_of};
ghost use Rattle.std.specs.List.{list_any, All};
ghost use Rattle.tiles.specs.Tally.{more};
ghost use Rattle.waits.specs.Waits.{refused_with, IsWaits};
ghost use Rattle.waits.specs.Answer.{waits_of};
ghost use Rattle.waits.specs.search.Found.{reads as reads_of, wait_set, found_of, answer_in};
ghost use Rattle.refusals.specs.Refusal.{number};
ghost use Rattle.waits.specs.search.Over.{sort_of, of_sort};
ghost use Rattle.reading_splits.specs.search.SplitsInto.{splits_into};

use hand::Held;
use refusals::Refusal;

// What the call gives: 0, the set of waits and furiten; or the refusal, no wait and no furiten.
#[repr(C)]
#[derive(Clone, Copy)]
pub struct Waits {
    // stays a byte: what C is given (include/herbassolh.h)
    pub refusal: u8,
    pub waits: [bool; 34],
    pub furiten: bool,
}

// A refused call: the refusal, no wait and no furiten.
fn refused(refusal: Refusal) -> Waits
    ensures { result ≡ refused_with (number refusal) }
{
    Waits {
        refusal: u8::from(refusal),
        waits: [false; 34],
        furiten: false,
    }
}

// The tiles have a reading with m melds. Where `may` is false they are no pair and groups, and nothing is searched. Without melds, seven pairs and
// thirteen orphans are readings too.
// stays with its bound of m: it is a Held's, which is what C is given and has no invariant
#[tactic(auto, unfolding(crate::specs::search::Found::reads))]
fn reads(t: [u8; 34], m: u8, may: bool) -> bool
    requires { (m ≤ 4) × (may ≡ false → splits_into (suc (4 - m)) true t ≡ false) }
    ensures { result ≡ reads_of t m }
{
    let regular = may && reading_splits::splits(t, 4 - m);
    regular || (m == 0 && (reading_steps::is_seven_pairs(t) || reading_steps::is_orphans(t)))
}

// The kind k, of which n are held, is a wait of the concealed tiles t. Where `may` is false, t with it is no pair and groups.
// stays with its bound of m: as `reads`
fn is_wait(t: [u8; 34], n: u8, m: u8, k: u8, may: bool) -> bool
    requires { (m ≤ 4) × (get_or t k 0 ≤ 13) × (may ≡ false → splits_into (suc (4 - m)) true (more t k 1) ≡ false) }
    ensures { result ≡ (ltb n 4 && reads_of (more t k 1) m) }
{
    let free = n < 4;
    free && reads(tiles::add(t, k, 1), m, may)
}

// The suit of a kind, 0 to 2, or its honour, 3 to 9.
#[tactic(auto, unfolding(crate::specs::search::Over::sort_of))]
fn sort_of(k: usize) -> usize
    requires { k < 34 }
    ensures { (result ≡ sort_of k) × (result < 10) }
{
    if k < 27 { k / 9 } else { k - 24 }
}

// The tiles of kinds that lie together.
fn total(kinds: &[u8]) -> u8
    requires { total_of kinds.now < 256 }
    ensures { result ≡ total_of kinds.now }
{
    kinds.iter().sum()
}

// The tiles of a suit or an honour.
fn of_sort(t: &[u8; 34], c: usize) -> u8
    requires { (c < 10) × (length t.now ≡ 34) × ((k : ℕ) → get_or t.now k 0 ≤ 13) }
    ensures { result ≡ of_sort t.now c }
{
    if 3 <= c {
        return t[24 + c];
    }
    total(&t[9 * c..9 * c + 9])
}

// The suits and honours of which one tile more may make a pair and groups. They are those with tiles over threes; where over two have such, there is none.
fn open_sorts(t: &[u8; 34]) -> [bool; 10]
    requires { (length t.now ≡ 34) × ((k : ℕ) → get_or t.now k 0 ≤ 13) }
    ensures { (k n : ℕ) → k < 34 → get_or result (sort_of k) false ≡ false → splits_into (suc n) true (more t.now k 1) ≡ false }
{
    let mut over = [false; 10];
    for (c, o) in over.iter_mut().enumerate() {
        *o = of_sort(t, c) % 3 != 0;
    }
    let n = over.iter().filter(|&&o| o).count();
    let many = 2 < n;
    if many { [false; 10] } else { over }
}

// The set of waits, kind by kind.
// stays with its bound of m: as `reads`
fn wait_set(x: Held) -> [bool; 34]
    requires { x.m ≤ 4 }
    ensures { result ≡ wait_set x }
{
    let m = x.m;
    let t = hand::others_tally(x);
    let held = hand::held_tally(x);
    let may = open_sorts(&t);
    let mut w = [false; 34];
    for (k, wait) in w.iter_mut().enumerate() {
        *wait = is_wait(t, held[k], m, k as u8, may[sort_of(k)]);
    }
    w
}

// A discard is no kind.
fn has_over_33(discards: &[u8]) -> bool
    ensures { result ≡ list_any (ltb 33) discards.now }
{
    discards.iter().any(|&d| 33 < d)
}

// A discard is one of the waits.
fn in_furiten(waits: &[bool; 34], discards: &[u8]) -> bool
    requires { All (λ k. k < 34) discards.now }
    ensures { result ≡ list_any (λ k. get_or waits.now k false) discards.now }
{
    discards.iter().any(|&d| waits[usize::from(d)])
}

// The waits of an unfinished hand and whether it is in furiten by the player's own discards, or the first refusal of 1 to 4 and 15.
fn try_find(s: &[u8], discards: &[u8]) -> Result<Waits, Refusal>
    ensures { answer_in result ≡ found_of s.now discards.now }
{
    let held = unfinished::read(s)?;
    if has_over_33(discards) {
        return Err(Refusal::Discard);
    }
    let waits = wait_set(held);
    let furiten = in_furiten(&waits, discards);
    Ok(Waits {
        refusal: 0,
        waits,
        furiten,
    })
}

// The same as C is given it.
pub fn find(s: &[u8], discards: &[u8]) -> Waits
    ensures waits { IsWaits s.now discards.now result }
    ensures value { result ≡ waits_of s.now discards.now }
{
    match try_find(s, discards) {
        Ok(found) => found,
        Err(refusal) => refused(refusal),
    }
}
