// What the handset says of the fu of a record (SPEECH, Messages and Calls). `say_fu` takes all input.
#![tactic(auto)]

ghost use Rattle.std.specs.Prelude.{◌≡◌, ◌++◌, ◌+◌, ◌≤◌, length};
ghost use Rattle.score.specs.Score.{score_of};
ghost use Rattle.speech_score.specs.Said.{Answers};
ghost use Rattle.speech_told.specs.Messages.{items_clips, fu_message};

use points_fu::Items;
use score::Scored;
use speech_score::Said;
use text::Bytes;

// The items of fu that are not 0, in document 02's order, the clip of the first being 84.
fn put_items(clips: &mut Bytes<192>, language: u8, x: Items)
    requires { length clips.old + 154 ≤ 192 }
    ensures added { clips.new ≡ clips.old ++ items_clips language x }
    ensures few { length clips.new ≤ length clips.old + 140 }
{
    let items = [
        x.base, x.ron, x.pair, x.group[0], x.group[1], x.group[2], x.group[3], x.wait, x.tsumo,
        x.rounding,
    ];
    for (k, item) in items.iter().enumerate() {
        speech_phrases::add_counted(clips, language, 84 + k as u8, u32::from(item.0));
    }
}

// The message of a score's fu.
#[tactic(auto, unfolding(speech_told::specs::Messages::fu_message))]
fn message(language: u8, a: Scored) -> Bytes<192>
    ensures value { result ≡ fu_message language a }
    ensures few { length result ≤ 155 }
{
    let mut clips = Bytes::new();
    if yaku::is_yakuman(a.yaku) {
        clips.push(75);
        return clips;
    }
    put_items(&mut clips, language, a.items);
    clips.push(94);
    speech_numerals::add_number(&mut clips, language, u32::from(a.fu.0));
    clips.push(70);
    clips
}

// The fu of a record, said: each item and the sum, or the refusal.
pub fn say_fu(language: u8, s: &[u8], dealer: u8, wind: u8, buf: &mut [u8]) -> Said
    ensures { Answers language (score_of s.now dealer wind).refusal (fu_message language (score_of s.now dealer wind)) buf.old result buf.new }
{
    if !speech_score::is_known(language) {
        return speech_score::refused(8);
    }
    let a = score::score(s, dealer, wind);
    if 0 < a.refusal {
        return speech_score::refused(a.refusal);
    }
    speech_score::give(buf, message(language, a).as_slice())
}
