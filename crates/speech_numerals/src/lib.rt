// Numbers as clips in four languages (SPEECH, Numbers): 1 Japanese, 2 English, 3 Korean, 4 Mandarin. A function that adds clips requires room for
// its work.
// stays a byte, the language: `add_number` and `number` take any, and C gives one (include/herbassolh.h)
#![tactic(auto)]

ghost use Rattle.std.specs.Prelude.{◌≡◌, cond, ◌&&◌, ◌++◌, ◌+◌, ◌*◌, ◌/◌, ◌%◌, ◌≤◌, ◌<◌, ltb, eqb, length};
ghost use Rattle.text.specs.Put.{Put};
ghost use Rattle.speech_numerals.specs.Numerals.{place_of, under_hundred, three_of, scaled_three, english_of, is_gap, thousands_of, hundreds_of, tens_of};
ghost use Rattle.speech_numerals.specs.Numerals.{ones_of, four_of, scaled_four, eastern_of, numeral};

use text::Bytes;

// A place of a number: nothing for a digit 0, otherwise its clip, behind a clip 0 where there is a gap.
#[tactic(auto, unfolding(crate::specs::Numerals::place_of))]
fn place<const N: usize>(clips: &mut Bytes<N>, gap: bool, clip: u8, d: u32)
    requires { length clips.old + 2 ≤ N }
    ensures added { clips.new ≡ clips.old ++ place_of gap clip d }
    ensures few { length clips.new ≤ length clips.old + 2 }
{
    if d == 0 {
        return;
    }
    if gap {
        clips.push(0);
    }
    clips.push(clip);
}

// English: what is left of a group under 100.
#[tactic(auto, unfolding(crate::specs::Numerals::under_hundred))]
fn under_hundred<const N: usize>(clips: &mut Bytes<N>, t: u32)
    requires { (length clips.old + 4 ≤ N) × (t < 100) }
    ensures added { clips.new ≡ clips.old ++ under_hundred t }
    ensures few { length clips.new ≤ length clips.old + 4 }
{
    match t {
        11..=19 => clips.push(31 + t as u8),
        _ => {
            place(clips, false, 9 + (t / 10) as u8, t / 10);
            place(clips, false, (t % 10) as u8, t % 10);
        }
    }
}

// English: a group of three digits.
#[tactic(auto, unfolding(crate::specs::Numerals::three_of))]
fn three<const N: usize>(clips: &mut Bytes<N>, g: u32)
    requires { (length clips.old + 6 ≤ N) × (g < 1000) }
    ensures added { clips.new ≡ clips.old ++ three_of g }
    ensures few { length clips.new ≤ length clips.old + 6 }
{
    place(clips, false, 18 + (g / 100) as u8, g / 100);
    under_hundred(clips, g % 100);
}

// English: a group with its scale, or nothing for a group of 0.
// stays beside scaled_four: a test for 0 and a push are all that they share, less than a closure for the group would take
#[tactic(auto, unfolding(crate::specs::Numerals::scaled_three))]
fn scaled_three<const N: usize>(clips: &mut Bytes<N>, scale: u8, g: u32)
    requires { (length clips.old + 7 ≤ N) × (g < 1000) }
    ensures added { clips.new ≡ clips.old ++ scaled_three scale g }
    ensures few { length clips.new ≤ length clips.old + 7 }
{
    if g == 0 {
        return;
    }
    three(clips, g);
    clips.push(scale);
}

// English: the groups, the highest first.
#[tactic(auto, unfolding(crate::specs::Numerals::english_of))]
fn english<const N: usize>(clips: &mut Bytes<N>, n: u32)
    requires { length clips.old + 27 ≤ N }
    ensures { clips.new ≡ clips.old ++ english_of n }
{
    scaled_three(clips, 53, n / 1_000_000_000);
    scaled_three(clips, 52, n / 1_000_000 % 1000);
    scaled_three(clips, 51, n / 1000 % 1000);
    three(clips, n % 1000);
}

// Mandarin: something is said above a digit, and the digit just above it is 0.
fn is_gap(language: u8, above: u32, none: bool) -> bool
    ensures { result ≡ is_gap language above none }
{
    language == 4 && 0 < above && none
}

// The thousands of the last four digits of x; in Japanese a group of 1,000 with a scale has a clip of its own.
#[tactic(auto, unfolding(crate::specs::Numerals::thousands_of))]
fn thousands<const N: usize>(clips: &mut Bytes<N>, language: u8, scaled: bool, x: u32)
    requires { length clips.old + 2 ≤ N }
    ensures added { clips.new ≡ clips.old ++ thousands_of language scaled x }
    ensures few { length clips.new ≤ length clips.old + 2 }
{
    let d = x / 1000 % 10;
    let gap = is_gap(language, x / 10_000, x / 10_000 % 10_000 == 0);
    let clip = if language == 1 && scaled && x % 10_000 == 1000 {
        39
    } else {
        27 + d as u8
    };
    place(clips, gap, clip, d);
}

// The last digit of x, behind a clip 0 where there is a gap above it.
fn last_digit<const N: usize>(clips: &mut Bytes<N>, language: u8, clip: u8, x: u32)
    requires { length clips.old + 2 ≤ N }
    ensures added { clips.new ≡ clips.old ++ place_of (is_gap language (x / 10) (eqb (x / 10 % 10) 0)) clip (x % 10) }
    ensures few { length clips.new ≤ length clips.old + 2 }
{
    let gap = is_gap(language, x / 10, x / 10 % 10 == 0);
    place(clips, gap, clip, x % 10);
}

// The clip of the tens of x; in Mandarin ten has a clip of its own inside a number.
fn tens_clip(language: u8, x: u32) -> u8
    ensures { result ≡ cond (eqb language 4 && (ltb 0 (x / 10) && eqb (x % 10) 1)) 40 (9 + x % 10) }
{
    if language == 4 && 0 < x / 10 && x % 10 == 1 {
        40
    } else {
        9 + (x % 10) as u8
    }
}

// The clip of the ones of x; in Mandarin a group of 2 with a scale has a clip of its own.
fn ones_clip(language: u8, scaled: bool, x: u32) -> u8
    ensures { result ≡ cond (eqb language 4 && (scaled && eqb (x % 10000) 2)) 41 (x % 10) }
{
    if language == 4 && scaled && x % 10_000 == 2 {
        41
    } else {
        (x % 10) as u8
    }
}

// The last four digits of x.
#[tactic(auto, unfolding(crate::specs::Numerals::four_of, crate::specs::Numerals::hundreds_of, crate::specs::Numerals::tens_of, crate::specs::Numerals::ones_of))]
fn four<const N: usize>(clips: &mut Bytes<N>, language: u8, scaled: bool, x: u32)
    requires { length clips.old + 8 ≤ N }
    ensures added { clips.new ≡ clips.old ++ four_of language scaled x }
    ensures few { length clips.new ≤ length clips.old + 8 }
{
    thousands(clips, language, scaled, x);
    last_digit(clips, language, 18 + (x / 100 % 10) as u8, x / 100);
    last_digit(clips, language, tens_clip(language, x / 10), x / 10);
    last_digit(clips, language, ones_clip(language, scaled, x), x);
}

// The last four digits of x with their scale, or nothing where they are 0; in Korean 만 alone where it begins
// the number.
#[tactic(auto, unfolding(crate::specs::Numerals::scaled_four))]
fn scaled_four<const N: usize>(clips: &mut Bytes<N>, language: u8, scale: u8, x: u32)
    requires { length clips.old + 9 ≤ N }
    ensures added { clips.new ≡ clips.old ++ scaled_four language scale x }
    ensures few { length clips.new ≤ length clips.old + 9 }
{
    if x % 10_000 == 0 {
        return;
    }
    let alone = language == 3 && scale == 37 && x == 1;
    if !alone {
        four(clips, language, true, x);
    }
    clips.push(scale);
}

// Japanese, Korean, Mandarin: the groups, the highest first.
#[tactic(auto, unfolding(crate::specs::Numerals::eastern_of))]
fn eastern<const N: usize>(clips: &mut Bytes<N>, language: u8, n: u32)
    requires { length clips.old + 26 ≤ N }
    ensures { clips.new ≡ clips.old ++ eastern_of language n }
{
    scaled_four(clips, language, 38, n / 100_000_000);
    scaled_four(clips, language, 37, n / 10_000);
    four(clips, language, false, n);
}

// Adds a number, where there are 27 bytes for the work; it takes 13 at most. For the messages of other crates.
#[tactic(auto, unfolding(crate::specs::Numerals::numeral))]
pub fn add_number<const N: usize>(clips: &mut Bytes<N>, language: u8, n: u32)
    requires { length clips.old + 27 ≤ N }
    ensures added { clips.new ≡ clips.old ++ numeral language n }
    ensures few { length clips.new ≤ length clips.old + 13 }
{
    match (n, language) {
        (0, _) => clips.push(0),
        (_, 2) => english(clips, n),
        _ => eastern(clips, language, n),
    }
}

// The same in a lent buffer, from a place on.
// stays with a buffer and a place: as its callers have it
pub fn number(buf: &mut [u8], at: usize, language: u8, n: u32) -> usize
    requires { at + 27 ≤ length buf.old }
    ensures { Put buf.old at (numeral language n) buf.new result × (result ≤ at + 13) }
{
    let mut clips: Bytes<27> = Bytes::new();
    add_number(&mut clips, language, n);
    text::put(clips.as_slice(), buf, at)
}
