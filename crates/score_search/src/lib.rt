// The best reading of a tally: every reading is searched, valued and held against the best so far, up to the first yakuman, which nothing beats; or
// the reading with a number, and how many there are.
#![tactic(auto)]

ghost use Rattle.std.specs.Prelude.{◌≡◌, false, List, [], ◌∷◌, ◌++◌, ℕ, ◌+◌, ◌<◌, ◌≤◌, length, get_or, take};
ghost use Rattle.reading.specs.search.Readings.{placed, shaped};
ghost use Rattle.reading.specs.search.Folded.{folded, ranged};
ghost use Rattle.reading.specs.search.Stored.{behind};
ghost use Rattle.score_best.specs.search.HandCommon.{worth_in, IsHandCommon};
ghost use Rattle.score_best.specs.search.Best.{keep_better, search_for};

use reading::Reading;
use score_best::{Best, HandCommon};
use std::marker::Model;

// Each place of a pair and groups, among the pair and the first `size` groups, that holds the winning kind.
fn places(h: HandCommon, r: Reading, size: u8, win: u8, best: Best) -> Best
    requires { IsHandCommon h × (size ≤ 4) × (best.done ≡ false) × (r.shape ≡ 0) }
    ensures { result ≡ folded (keep_better (worth_in h)) best (placed size win r.pair r.groups) }
{
    let k = score_best::common_of(h, r);
    let mut b = best;
    for place in 0..size + 1 {
        let r = Reading { place, ..r };
        if reading_steps::holds(r, win) {
            b = score_best::keep_better_at(h, k, b, r);
            if b.done {
                return b;
            }
        }
    }
    b
}

// The splittings of a tally into groups that are found, at most three.
#[derive(Drop)]
struct Splittings {
    found: [[u8; 4]; 3],
    count: usize,
}

impl Model for Splittings {
    ghost Value = { List (List ℕ) };

    ghost view = { λ s. take s.count s.found };

    ghost invariant = { λ s. s.count ≤ 3 };
}

impl Splittings {
    fn none() -> Self
        ensures { result ≡ [] }
    {
        Splittings {
            found: [[68; 4]; 3],
            count: 0,
        }
    }

    fn push(&mut self, groups: [u8; 4])
        requires { length self.old < 3 }
        ensures { self.new ≡ self.old ++ groups ∷ [] }
    {
        self.found[self.count] = groups;
        self.count += 1;
    }

    fn all(&self) -> &[[u8; 4]]
        ensures { result.now ≡ self.now }
    {
        &self.found[..self.count]
    }
}

// Finds each splitting of t into `left` groups with codes from `code` on, and puts it, behind the first groups of `prefix`, at the end of `out`.
fn split(t: [u8; 34], code: u8, left: usize, prefix: [u8; 4], size: usize, out: &mut Splittings)
    requires { (left ≤ size) × (size ≤ 4) × (length out.old + length (behind size prefix left code t) ≤ 3) }
    ensures { out.new ≡ out.old ++ behind size prefix left code t }
{
    if left == 0 {
        if reading_steps::is_empty(t) {
            out.push(prefix);
        }
        return;
    }
    let mut from = code;
    while let Some(c) = reading_steps::next_code(&t, from) {
        let taken = reading_steps::fits(t, c);
        if taken {
            let mut groups = prefix;
            groups[size - left] = c;
            split(reading_steps::without(t, c), c, left - 1, groups, size, out);
        }
        if !reading_steps::passes(t, c) {
            return;
        }
        from = c + 1;
    }
}

// Each place of a pair and the splittings that are found.
fn each(h: HandCommon, pair: u8, found: &[[u8; 4]], size: u8, win: u8, best: Best) -> Best
    requires { IsHandCommon h × (size ≤ 4) × (best.done ≡ false) }
    ensures { result ≡ ranged (keep_better (worth_in h)) (λ i. placed size win pair (get_or found.now i [])) (length found.now) 0 best }
{
    let mut b = best;
    for &groups in found {
        let r = Reading {
            shape: 0,
            pair,
            groups,
            place: 0,
        };
        b = places(h, r, size, win, b);
        if b.done {
            return b;
        }
    }
    b
}

// The shapes without groups.
fn shapes(h: HandCommon, t: [u8; 34], m: u8, best: Best) -> Best
    requires { IsHandCommon h × (best.done ≡ false) }
    ensures { result ≡ folded (keep_better (worth_in h)) best (shaped t m) }
{
    if m != 0 {
        return best;
    }
    let mut b = best;
    if reading_steps::is_seven_pairs(t) {
        b = score_best::keep_better(h, b, reading::of_shape(1));
        if b.done {
            return b;
        }
    }
    if reading_steps::is_orphans(t) {
        b = score_best::keep_better(h, b, reading::of_shape(2));
    }
    b
}

// The best reading of the tally t with m melds, won by the kind win, and what it is worth: every reading up to the first yakuman is held against the
// others. Where one is wanted by its number, from 1: that one and what it is worth, and how many there are.
pub fn search_for(h: HandCommon, t: [u8; 34], m: u8, win: u8, wanted: u32) -> Best
    requires { IsHandCommon h × (m ≤ 4) }
    ensures { result ≡ search_for (worth_in h) wanted t m win }
{
    let mut b = score_best::none(wanted);
    let size = 4 - m;
    for k in reading_steps::pairs_in(&t) {
        let held = 2 <= t[k as usize];
        if held {
            let mut found = Splittings::none();
            let rest = reading_steps::without_pair(t, k as usize);
            split(rest, 0, size as usize, [68; 4], size as usize, &mut found);
            b = each(h, k, found.all(), size, win, b);
            if b.done {
                return b;
            }
        }
    }
    shapes(h, t, m, b)
}
