// What the handset says of a game's scores, of waits and of readiness (SPEECH, Messages and Calls). The public calls take all input.
#![tactic(auto)]

ghost use Rattle.std.specs.Prelude.{◌≡◌, false, ◌++◌, ◌+◌, ◌≤◌, length, get_or};
ghost use Rattle.tiles.specs.Below.{any_below};
ghost use Rattle.waits.specs.Answer.{waits_of};
ghost use Rattle.speech_score.specs.Said.{Answers};
ghost use Rattle.speech_table.specs.Messages.{four_scores, scores_message, waits_message, ready_message, SaysReady, SaysScores};

use position::Position;
use speech_score::Said;
use text::Bytes;
use waits::Waits;

// The scores of the four seats.
fn put_four(clips: &mut Bytes<192>, language: u8, dealer: u8, scores: [i32; 4])
    requires { length clips.old + 78 ≤ 192 }
    ensures added { clips.new ≡ clips.old ++ four_scores language dealer scores }
    ensures few { length clips.new ≤ length clips.old + 64 }
{
    for (seat, &score) in scores.iter().enumerate() {
        speech_phrases::add_score(clips, language, dealer, seat as u8, score);
    }
}

// The message of a game's scores.
#[tactic(auto, unfolding(crate::specs::Messages::scores_message))]
fn scores_clips(language: u8, g: Position) -> Bytes<192>
    ensures value { result ≡ scores_message language g }
    ensures few { length result ≤ 92 }
{
    let mut clips = Bytes::new();
    put_four(&mut clips, language, g.dealer, g.scores);
    speech_phrases::add_counted(&mut clips, language, 77, g.sticks);
    speech_phrases::add_counted(&mut clips, language, 78, g.counter);
    clips
}

// A game's scores, said; any value of the game may be given.
pub fn say_scores(language: u8, g: Position, buf: &mut [u8]) -> Said
    ensures { SaysScores language g buf.old result buf.new }
{
    if !speech_score::is_known(language) {
        return speech_score::refused(8);
    }
    speech_score::give(buf, scores_clips(language, g).as_slice())
}

// There is a wait.
fn any_wait(waits: [bool; 34]) -> bool
    ensures { result ≡ any_below 34 (λ k. get_or waits k false) }
{
    waits.contains(&true)
}

// The message of waits.
#[tactic(auto, unfolding(crate::specs::Messages::waits_message))]
fn waits_clips(w: Waits) -> Bytes<192>
    ensures value { result ≡ waits_message w }
    ensures few { length result ≤ 36 }
{
    let mut clips = Bytes::new();
    if any_wait(w.waits) {
        clips.push(79);
        speech_phrases::add_tiles(&mut clips, w.waits);
    } else {
        clips.push(80);
    }
    if w.furiten {
        clips.push(81);
    }
    clips
}

// The waits of an unfinished hand, said, and furiten; or the refusal.
pub fn say_waits(language: u8, s: &[u8], discards: &[u8], buf: &mut [u8]) -> Said
    ensures { Answers language (waits_of s.now discards.now).refusal (waits_message (waits_of s.now discards.now)) buf.old result buf.new }
{
    if !speech_score::is_known(language) {
        return speech_score::refused(8);
    }
    let a = waits::find(s, discards);
    if 0 < a.refusal {
        return speech_score::refused(a.refusal);
    }
    speech_score::give(buf, waits_clips(a).as_slice())
}

// The message of readiness.
#[tactic(auto, unfolding(crate::specs::Messages::ready_message))]
fn ready_clips(language: u8, swaps: u8) -> Bytes<192>
    ensures value { result ≡ ready_message language swaps }
    ensures few { length result ≤ 14 }
{
    let mut clips = Bytes::new();
    let none = swaps == 0;
    if none {
        clips.push(82);
    } else {
        speech_numerals::add_number(&mut clips, language, u32::from(swaps));
        clips.push(83);
    }
    clips
}

// How far an unfinished hand is from ready, said; or the refusal.
pub fn say_ready(language: u8, s: &[u8], buf: &mut [u8]) -> Said
    ensures { SaysReady language s.now buf.old result buf.new }
{
    if !speech_score::is_known(language) {
        return speech_score::refused(8);
    }
    let a = ready::find(s);
    if 0 < a.refusal {
        return speech_score::refused(a.refusal);
    }
    speech_score::give(buf, ready_clips(language, a.swaps).as_slice())
}
