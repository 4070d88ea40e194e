// What the handset says of a scored record and of a refusal (SPEECH, Messages and Calls): a list of clips at the start of a lent buffer. The public
// calls take all input.
#![tactic(auto)]

ghost use Rattle.std.specs.Prelude.{◌≡◌, cond, ◌∷◌, ◌≤◌, ltb, pos, nat_abs, length, get_or};
ghost use Rattle.score.specs.Score.{score_of};
ghost use Rattle.speech_score.specs.Said.{refused_with, given_of, buffer_of, is_known, Answers};
ghost use Rattle.speech_told.specs.Messages.{score_message, score_said, refusal_message};

use score::Scored;
use text::Bytes;

// What a call gives: 0 and how many clips, or the refusal and 0; two numbers of 16 bits, so that there is no padding.
#[repr(C)]
#[derive(Clone, Copy)]
pub struct Said {
    pub refusal: u16,
    pub len: u16,
}

// A refusal, and no clips.
// stays a number: those of Score, Waits and Ready are handed on as C is given them, and this struct is C's
pub fn refused(n: u8) -> Said
    ensures { result ≡ refused_with n }
{
    Said {
        refusal: u16::from(n),
        len: 0,
    }
}

// There is such a language.
pub fn is_known(language: u8) -> bool
    ensures { result ≡ is_known language }
{
    (1..=4).contains(&language)
}

// Clips at the start of a buffer, or a refusal where it is too short.
pub fn give(buf: &mut [u8], clips: &[u8]) -> Said
    requires { length clips.now ≤ 192 }
    ensures value { result ≡ given_of clips.now buf.old }
    ensures buf_after { buf.new ≡ buffer_of clips.now buf.old }
{
    let short = buf.len() < clips.len();
    if short {
        return refused(13);
    }
    let n = text::copy(clips, buf);
    Said {
        refusal: 0,
        len: n as u16,
    }
}

// The clip of the way of winning.
fn way(ron: bool) -> u8
    ensures { result ≡ cond ron 64 65 }
{
    if ron { 64 } else { 65 }
}

// What the winner gets.
fn gain_of(changes: [i32; 4], winner: u8) -> u32
    requires { winner ≤ 3 }
    ensures { result ≡ nat_abs (get_or changes winner (pos 0)) }
{
    changes[winner as usize].unsigned_abs()
}

// The message of a score.
#[tactic(auto, unfolding(speech_told::specs::Messages::score_message))]
fn message(language: u8, dealer: u8, winner: u8, ron: bool, a: Scored) -> Bytes<192>
    requires { winner ≤ 3 }
    ensures value { result ≡ score_message language dealer winner ron a }
    ensures few { length result ≤ 147 }
{
    let who = speech_phrases::player(dealer, winner);
    let gain = gain_of(a.changes, winner);
    let yakuman = yaku::is_yakuman(a.yaku);
    let mut clips = Bytes::new();
    clips.push(who);
    clips.push(way(ron));
    speech_phrases::add_yaku(&mut clips, a.yaku);
    speech_phrases::add_worth(&mut clips, language, yakuman, a.h, a.fu);
    speech_phrases::add_payments(&mut clips, language, dealer, a.changes);
    speech_phrases::add_amount(&mut clips, language, who, 67, gain);
    clips
}

// Score, said: the clips of what a record is worth and who pays what, in a language, or the refusal.
pub fn say_score(language: u8, s: &[u8], dealer: u8, wind: u8, buf: &mut [u8]) -> Said
    ensures { Answers language (score_of s.now dealer wind).refusal (score_said language s.now dealer wind) buf.old result buf.new }
{
    if !is_known(language) {
        return refused(8);
    }
    let a = score::score(s, dealer, wind);
    if 0 < a.refusal {
        return refused(a.refusal);
    }
    let f = hand_record::read_hand(s).hand.fields;
    let clips = message(language, dealer, f.winner, f.how == 1, a);
    give(buf, clips.as_slice())
}

// A refusal, said: the clip of its sentence; a number that is no refusal's is refused.
pub fn say_refusal(language: u8, number: u8, buf: &mut [u8]) -> Said
    ensures { Answers language (cond (ltb 22 number) 8 0) (refusal_message number) buf.old result buf.new }
{
    if !is_known(language) {
        return refused(8);
    }
    let unknown = 22 < number;
    if unknown {
        return refused(8);
    }
    give(buf, &[200 + number])
}
