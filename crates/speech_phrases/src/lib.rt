// The parts of what the handset says, added one after the other to clips with room for the work (SPEECH, Messages).
#![tactic(auto)]

ghost use Rattle.std.specs.Prelude.{◌≡◌, false, [], ◌∷◌, ◌++◌, ◌+◌, ◌≤◌, length, get_or};
ghost use Rattle.text.specs.Put.{Put};
ghost use Rattle.speech_told.specs.Phrases.{player as player_of, chosen, yaku_clips, limit_clips, worth_clips, amount_clips, pays_clips, payments_clips};
ghost use Rattle.speech_told.specs.Phrases.{counted_clips, score_clips, tile_clips};
ghost use Rattle.speech_told.specs.Phrases.{is_limit, limit_clip};

use text::Bytes;
use units::{Fu, Han};

// The clip of a player, by the seat's wind.
pub fn player(dealer: u8, seat: u8) -> u8
    requires { seat ≤ 3 }
    ensures { result ≡ player_of dealer seat }
{
    60 + (seat + 4 - dealer % 4) % 4
}

// A player, a verb, a number and points.
#[tactic(auto, unfolding(speech_told::specs::Phrases::amount_clips))]
pub fn add_amount<const N: usize>(clips: &mut Bytes<N>, language: u8, who: u8, verb: u8, n: u32)
    requires { length clips.old + 30 ≤ N }
    ensures added { clips.new ≡ clips.old ++ amount_clips language who verb n }
    ensures few { length clips.new ≤ length clips.old + 16 }
{
    clips.push(who);
    clips.push(verb);
    speech_numerals::add_number(clips, language, n);
    clips.push(68);
}

// What a seat pays, or nothing where it pays nothing.
#[tactic(auto, unfolding(speech_told::specs::Phrases::pays_clips))]
fn put_pays<const N: usize>(clips: &mut Bytes<N>, language: u8, dealer: u8, seat: u8, change: i32)
    requires { (length clips.old + 30 ≤ N) × (seat ≤ 3) }
    ensures added { clips.new ≡ clips.old ++ pays_clips language dealer seat change }
    ensures few { length clips.new ≤ length clips.old + 16 }
{
    if change < 0 {
        add_amount(
            clips,
            language,
            player(dealer, seat),
            66,
            change.unsigned_abs(),
        );
    }
}

// What seats 0 to 3 pay.
pub fn add_payments<const N: usize>(
    clips: &mut Bytes<N>,
    language: u8,
    dealer: u8,
    changes: [i32; 4],
)
    requires { length clips.old + 78 ≤ N }
    ensures added { clips.new ≡ clips.old ++ payments_clips language dealer changes }
    ensures few { length clips.new ≤ length clips.old + 64 }
{
    for (seat, &change) in changes.iter().enumerate() {
        put_pays(clips, language, dealer, seat as u8, change);
    }
}

// The clips of what a set holds, ascending: the first of them is that of its first place.
#[tactic(auto, unfolding(speech_told::specs::Phrases::chosen))]
fn put_set<const N: usize>(clips: &mut Bytes<N>, first: u8, set: &[bool])
    requires room { length clips.old + length set.now ≤ N }
    requires clip_fits { first + length set.now ≤ 256 }
    ensures added { clips.new ≡ clips.old ++ chosen first (λ k. get_or set.now k false) (length set.now) }
    ensures few { length clips.new ≤ length clips.old + length set.now }
{
    for (k, &held) in set.iter().enumerate() {
        if held {
            clips.push(first + k as u8);
        }
    }
}

// The yaku of a set, ascending.
#[tactic(auto, unfolding(speech_told::specs::Phrases::yaku_clips))]
pub fn add_yaku<const N: usize>(clips: &mut Bytes<N>, yaku: [bool; 37])
    requires { length clips.old + 36 ≤ N }
    ensures added { clips.new ≡ clips.old ++ yaku_clips yaku }
    ensures few { length clips.new ≤ length clips.old + 36 }
{
    put_set(clips, 141, &yaku[1..]);
}

// The tiles of a set of kinds, ascending.
#[tactic(auto, unfolding(speech_told::specs::Phrases::tile_clips))]
pub fn add_tiles<const N: usize>(clips: &mut Bytes<N>, kinds: [bool; 34])
    requires { length clips.old + 34 ≤ N }
    ensures added { clips.new ≡ clips.old ++ tile_clips kinds }
    ensures few { length clips.new ≤ length clips.old + 34 }
{
    put_set(clips, 100, &kinds);
}

// A limit is paid.
fn is_limit(h: Han, fu: Fu) -> bool
    ensures { result ≡ is_limit h.0 fu.0 }
{
    match h.0 {
        0 => false,
        1 => 250 < fu.0,
        2 => 125 < fu.0,
        3 => 62 < fu.0,
        4 => 31 < fu.0,
        _ => true,
    }
}

// The clip of a limit's name.
#[tactic(auto, unfolding(speech_told::specs::Phrases::limit_clip))]
fn limit_clip(h: Han) -> u8
    ensures { result ≡ limit_clip h.0 }
{
    match h.0 {
        0..=5 => 71,
        6..=7 => 72,
        8..=10 => 73,
        _ => 74,
    }
}

// With a yakuman its name; otherwise han and fu, and a limit's name where one is paid.
#[tactic(auto, unfolding(speech_told::specs::Phrases::worth_clips, speech_told::specs::Phrases::limit_clips))]
pub fn add_worth<const N: usize>(clips: &mut Bytes<N>, language: u8, yakuman: bool, h: Han, fu: Fu)
    requires { length clips.old + 43 ≤ N }
    ensures added { clips.new ≡ clips.old ++ worth_clips language yakuman h.0 fu.0 }
    ensures few { length clips.new ≤ length clips.old + 29 }
{
    if yakuman {
        clips.push(75);
        return;
    }
    speech_numerals::add_number(clips, language, u32::from(h.0));
    clips.push(69);
    speech_numerals::add_number(clips, language, u32::from(fu.0));
    clips.push(70);
    if is_limit(h, fu) {
        clips.push(limit_clip(h));
    }
}

// A clip and a number, or nothing where the number is 0.
#[tactic(auto, unfolding(speech_told::specs::Phrases::counted_clips))]
pub fn add_counted<const N: usize>(clips: &mut Bytes<N>, language: u8, clip: u8, n: u32)
    requires { length clips.old + 28 ≤ N }
    ensures added { clips.new ≡ clips.old ++ counted_clips language clip n }
    ensures few { length clips.new ≤ length clips.old + 14 }
{
    if 0 < n {
        clips.push(clip);
        speech_numerals::add_number(clips, language, n);
    }
}

// A player and a score, with minus where it is negative.
#[tactic(auto, unfolding(speech_told::specs::Phrases::score_clips))]
pub fn add_score<const N: usize>(
    clips: &mut Bytes<N>,
    language: u8,
    dealer: u8,
    seat: u8,
    score: i32,
)
    requires { (length clips.old + 30 ≤ N) × (seat ≤ 3) }
    ensures added { clips.new ≡ clips.old ++ score_clips language dealer seat score }
    ensures few { length clips.new ≤ length clips.old + 16 }
{
    clips.push(player(dealer, seat));
    if score < 0 {
        clips.push(76);
    }
    speech_numerals::add_number(clips, language, score.unsigned_abs());
    clips.push(68);
}

// ---- the same in a lent buffer

// `add_amount` in a lent buffer, from a place on.
// stays with a buffer and a place: as its callers have it
pub fn put_amount(buf: &mut [u8], at: usize, language: u8, who: u8, verb: u8, n: u32) -> usize
    requires { at + 30 ≤ length buf.old }
    ensures { Put buf.old at (amount_clips language who verb n) buf.new result × (result ≤ at + 16) }
{
    let mut amount: Bytes<30> = Bytes::new();
    add_amount(&mut amount, language, who, verb, n);
    text::put(amount.as_slice(), buf, at)
}

// `add_payments` in a lent buffer, from a place on.
// stays with a buffer and a place: as its callers have it
pub fn put_payments(buf: &mut [u8], at: usize, language: u8, dealer: u8, c: [i32; 4]) -> usize
    requires { at + 78 ≤ length buf.old }
    ensures { Put buf.old at (payments_clips language dealer c) buf.new result × (result ≤ at + 64) }
{
    let mut payments: Bytes<78> = Bytes::new();
    add_payments(&mut payments, language, dealer, c);
    text::put(payments.as_slice(), buf, at)
}

// `add_yaku` in a lent buffer, from a place on.
// stays with a buffer and a place: as its callers have it
pub fn put_yaku(buf: &mut [u8], at: usize, y: [bool; 37]) -> usize
    requires { at + 36 ≤ length buf.old }
    ensures { Put buf.old at (yaku_clips y) buf.new result × (result ≤ at + 36) }
{
    let mut yaku: Bytes<36> = Bytes::new();
    add_yaku(&mut yaku, y);
    text::put(yaku.as_slice(), buf, at)
}

// `add_worth` in a lent buffer, from a place on.
// stays with a buffer and a place: as its callers have it
pub fn put_worth(buf: &mut [u8], at: usize, language: u8, yakuman: bool, h: Han, fu: Fu) -> usize
    requires { at + 43 ≤ length buf.old }
    ensures { Put buf.old at (worth_clips language yakuman h.0 fu.0) buf.new result × (result ≤ at + 29) }
{
    let mut worth: Bytes<43> = Bytes::new();
    add_worth(&mut worth, language, yakuman, h, fu);
    text::put(worth.as_slice(), buf, at)
}

// `add_tiles` in a lent buffer, from a place on.
// stays with a buffer and a place: as its callers have it
pub fn put_tiles(buf: &mut [u8], at: usize, w: [bool; 34]) -> usize
    requires { at + 34 ≤ length buf.old }
    ensures { Put buf.old at (tile_clips w) buf.new result × (result ≤ at + 34) }
{
    let mut tiles: Bytes<34> = Bytes::new();
    add_tiles(&mut tiles, w);
    text::put(tiles.as_slice(), buf, at)
}
