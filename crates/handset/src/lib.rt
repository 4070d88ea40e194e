// The public calls as firmware knows them, with one prefix; crate `handset_c` exports them to C. They take all input. The bookings and the corrections are lent the game and update it
// there: each gives 0, or its refusal with the game as it was.
#![tactic(auto)]

ghost use Rattle.std.specs.Prelude.{◌≡◌, [], ◌++◌, ◌+◌, ◌≤◌, ◌<◌, length, take, drop, cond, ltb};
ghost use Rattle.std.specs.Result.{result_unwrap_or};
ghost use Rattle.refusals.specs.Refusal.{refusal_in};
ghost use Rattle.hand_record.specs.Record.{read_hand_of, written_of, buffer_of};
ghost use Rattle.score.specs.IsScore.{IsScore};
ghost use Rattle.score.specs.Score.{score_of};
ghost use Rattle.score_readings.specs.IsNth.{IsNth};
ghost use Rattle.score_readings.specs.NthOf.{nth_of};
ghost use Rattle.score_readings.specs.Count.{count_of};
ghost use Rattle.claim.specs.IsJudged.{IsJudged};
ghost use Rattle.claim.specs.Judge.{judged_of};
ghost use Rattle.claim_writer.specs.Writes.{Writes};
ghost use Rattle.claim_writer.specs.Write.{written_of as claim_written_of, buffer_of as claim_buffer_of};
ghost use Rattle.slip.specs.Slip.{slip_refusal, slip_page};
ghost use Rattle.waits.specs.Waits.{IsWaits};
ghost use Rattle.waits.specs.Answer.{waits_of};
ghost use Rattle.unfinished.specs.Unfinished.{refusal_of};
ghost use Rattle.unfinished_writer.specs.Write.{written_of as unfinished_written, buffer_of as unfinished_buffer, written_from, buffer_from};
ghost use Rattle.ready.specs.Ready.{IsAnswer};
ghost use Rattle.ready.specs.Answer.{fewest_swaps};
ghost use Rattle.card_writer.specs.Call.{answer_of, card_buffer};
ghost use Rattle.position.specs.Booking as Booking;
ghost use Rattle.game.specs.Game.{booking, correction, fresh_game};
ghost use Rattle.game.specs.Runs.{Books};
ghost use Rattle.log_walk.specs.Walk.{BooksEntry, started, text_left, lines_of};
ghost use Rattle.speech_score.specs.Said.{Answers};
ghost use Rattle.speech_told.specs.Messages.{score_said, fu_message, refusal_message};
ghost use Rattle.speech_table.specs.Messages.{waits_message, SaysReady, SaysScores};
ghost use Rattle.handset.specs.Interface.{next_entry_of, Lined};

use card_writer::Cards;
use claim::Judged;
use claim_writer::Claim;
use game::Game;
use hand::{Hand, Held};
use hand_record::{ReadHand, Written};
use log_walk::{Printed, Walk};
use position::Position;
use ready::Ready;
use refusals::Refusal;
use score::Scored;
use score_readings::{NthReading, ReadingCount};
use speech_score::Said;
use waits::Waits;

// What Next entry gives: an entry with its letter in `tally` and its length, header included; the log's end; or refusal 14. Else all zero.
// stays flat, with numbers: what C is given (include/herbassolh.h)
#[repr(C)]
#[derive(Clone, Copy, Default)]
pub struct NextEntry {
    pub refusal: u8,
    pub end: bool,
    pub kind: u8,
    pub argument: u8,
    // stays a number: what C is given
    pub letter: u8,
    pub length: usize,
}

// Read: the hand of a sound record, or the refusal.
pub fn hb_read(s: &[u8]) -> ReadHand
    ensures { result ≡ read_hand_of s.now }
{
    hand_record::read_hand(s)
}

// Write: a hand's record at the start of a buffer, and its length, or the refusal.
pub fn hb_write(h: Hand, buf: &mut [u8]) -> Written
    ensures value { result ≡ written_of h buf.old }
    ensures buf_after { buf.new ≡ buffer_of h buf.old }
{
    hand_writer::write(h, buf)
}

// Score: what a record is worth for a dealer and a round wind, or the refusal.
pub fn hb_score(s: &[u8], dealer: u8, wind: u8) -> Scored
    ensures score { IsScore s.now dealer wind result }
    ensures value { result ≡ score_of s.now dealer wind }
{
    score::score(s, dealer, wind)
}

// Reading: the n-th reading of a record's tiles, from 1, in document 01's order, with what it is worth; or the refusal.
pub fn hb_reading(s: &[u8], dealer: u8, wind: u8, n: u32) -> NthReading
    ensures nth { IsNth s.now dealer wind n result }
    ensures value { result ≡ nth_of s.now dealer wind n }
{
    score_readings::nth(s, dealer, wind, n)
}

// How many readings a record's tiles have; or the refusal.
pub fn hb_reading_count(s: &[u8], dealer: u8, wind: u8) -> ReadingCount
    ensures { result ≡ count_of s.now dealer wind }
{
    score_readings::count(s, dealer, wind)
}

// Slip: six lines of what Score gives for a record, a dealer and a round wind, 150 bytes at the start of a page; or the refusal, and the page as it was.
pub fn hb_slip(s: &[u8], dealer: u8, wind: u8, page: &mut [u8]) -> u8
    ensures value { result ≡ slip_refusal (score_of s.now dealer wind) page.old }
    ensures page_after { page.new ≡ slip_page (score_of s.now dealer wind) page.old }
{
    slip::slip(s, dealer, wind, page)
}

// Waits: the kinds that an unfinished hand waits for, and whether it is in furiten by a list of discards; or the refusal.
pub fn hb_waits(s: &[u8], discards: &[u8]) -> Waits
    ensures waits { IsWaits s.now discards.now result }
    ensures value { result ≡ waits_of s.now discards.now }
{
    waits::find(s, discards)
}

// Ready: the fewest tiles of an unfinished hand to swap until it is ready, and a ready hand that many swaps away; or the refusal.
pub fn hb_ready(s: &[u8]) -> Ready
    ensures refusal_value { (result.refusal ≡ refusal_of s.now) × (result.swaps ≡ fewest_swaps s.now) }
    ensures answer { IsAnswer s.now result }
{
    ready::find(s)
}

// Write, of an unfinished hand: the bytes of the tiles held at the start of a buffer, as Waits and Ready take them, and their length, or the refusal.
pub fn hb_write_unfinished(x: Held, buf: &mut [u8]) -> Written
    ensures value { result ≡ unfinished_written x buf.old }
    ensures buf_after { buf.new ≡ unfinished_buffer x buf.old }
{
    unfinished_writer::write(x, buf)
}

// The unfinished hand that a record is without its winning tile, at the start of a buffer, and its length, or the refusal.
pub fn hb_unfinished(s: &[u8], buf: &mut [u8]) -> Written
    ensures value { result ≡ written_from s.now buf.old }
    ensures buf_after { buf.new ≡ buffer_from s.now buf.old }
{
    unfinished_writer::from_record(s, buf)
}

// Cards: every practice card of a suit and a size, one byte a tile, at the start of a buffer, and how many they are; or refusal 19, and the buffer as it was.
pub fn hb_cards(suit: u8, size: u8, buf: &mut [u8]) -> Cards
    ensures value { result ≡ answer_of suit size (length buf.old) }
    ensures buf_after { buf.new ≡ card_buffer suit size buf.old }
{
    card_writer::write(suit, size, buf)
}

// Judge: whether a claim of a reading and the winner's gain for a record, a dealer and a round wind is accepted, or the first of the four conditions that
// is false; or the refusal.
pub fn hb_judge(s: &[u8], claim: &[u8], dealer: u8, wind: u8) -> Judged
    ensures judged { IsJudged s.now claim.now dealer wind result }
    ensures value { result ≡ judged_of s.now claim.now dealer wind }
{
    claim::judge(s, claim, dealer, wind)
}

// Write claim: the bytes of a claim at the start of a buffer, and their number, or the refusal.
pub fn hb_write_claim(claim: Claim, buf: &mut [u8]) -> Written
    ensures writes { Writes claim buf.old result buf.new }
    ensures value { result ≡ claim_written_of claim buf.old }
    ensures buf_after { buf.new ≡ claim_buffer_of claim buf.old }
{
    claim_writer::write(claim, buf)
}

// A game before its first booking.
pub fn hb_fresh_game() -> Game
    ensures { result ≡ fresh_game }
{
    game_bookings::fresh_game()
}

// Keeps what a booking gives: the game after it, and 0; or the game as it was, and the refusal.
fn keep(g: &mut Game, booked: Result<Game, Refusal>) -> u8
    ensures refusal { result ≡ refusal_in booked }
    ensures game { g.new ≡ result_unwrap_or booked g.old }
{
    match booked {
        Ok(after) => {
            *g = after;
            0
        }
        Err(r) => u8::from(r),
    }
}

// Riichi of a seat.
pub fn hb_riichi(g: &mut Game, seat: u8) -> u8
    ensures { Books g.old (booking (Booking.riichi seat)) result g.new }
{
    let booked = game_bookings::riichi(*g, seat);
    keep(g, booked)
}

// A win by a record.
pub fn hb_win(g: &mut Game, s: &[u8]) -> u8
    ensures { Books g.old (booking (Booking.result (Booking.win s.now))) result g.new }
{
    let booked = game_bookings::win(*g, s);
    keep(g, booked)
}

// A draw, by four bits of who is ready, seat 0 first.
pub fn hb_draw(g: &mut Game, bits: u8) -> u8
    ensures { Books g.old (booking (Booking.result (Booking.draw bits))) result g.new }
{
    let booked = game_bookings::draw(*g, bits);
    keep(g, booked)
}

// Chombo of a seat.
pub fn hb_chombo(g: &mut Game, seat: u8) -> u8
    ensures { Books g.old (booking (Booking.result (Booking.chombo seat))) result g.new }
{
    let booked = game_bookings::chombo(*g, seat);
    keep(g, booked)
}

// Multiple ron: one to three rons on one tile, their number, and the records end to end.
pub fn hb_multi_ron(g: &mut Game, number: u8, records: &[u8]) -> u8
    ensures { Books g.old (booking (Booking.result (Booking.multi_ron number records.now))) result g.new }
{
    let booked = game_bookings::multi_ron(*g, number, records);
    keep(g, booked)
}

// Pao: the feeder of a holder's yaku, 28 or 29, named for this hand.
pub fn hb_pao(g: &mut Game, holder: u8, feeder: u8, yaku: u8) -> u8
    ensures { Books g.old (booking (Booking.pao holder feeder yaku)) result g.new }
{
    let booked = game_bookings::pao(*g, holder, feeder, yaku);
    keep(g, booked)
}

// The correction of the last finished booking by a win, which is booked in the earlier position; 9 where the game is out of form, 20 where there is none
// to supersede.
pub fn hb_correct_win(g: &mut Game, s: &[u8]) -> u8
    ensures { Books g.old (correction (Booking.win s.now)) result g.new }
{
    let booked = game_bookings::correct_win(*g, s);
    keep(g, booked)
}

// The same by a draw.
pub fn hb_correct_draw(g: &mut Game, bits: u8) -> u8
    ensures { Books g.old (correction (Booking.draw bits)) result g.new }
{
    let booked = game_bookings::correct_draw(*g, bits);
    keep(g, booked)
}

// The same by a chombo of a seat.
pub fn hb_correct_chombo(g: &mut Game, seat: u8) -> u8
    ensures { Books g.old (correction (Booking.chombo seat)) result g.new }
{
    let booked = game_bookings::correct_chombo(*g, seat);
    keep(g, booked)
}

// The same by a multiple ron.
pub fn hb_correct_multi_ron(g: &mut Game, number: u8, records: &[u8]) -> u8
    ensures { Books g.old (correction (Booking.multi_ron number records.now)) result g.new }
{
    let booked = game_bookings::correct_multi_ron(*g, number, records);
    keep(g, booked)
}

// Next entry of a log from an offset: its kind, argument, letter and length, header included. Where there is none all is zero but the refusal, 14, or `end`.
pub fn hb_log_next(s: &[u8], at: usize) -> NextEntry
    ensures { result ≡ next_entry_of s.now at }
{
    match log_entry::next_entry(s, at) {
        Ok(Some(part)) => {
            let kind = log_entry::kind(part[0]);
            NextEntry {
                refusal: 0,
                end: false,
                kind,
                argument: log_entry::argument(part[0]),
                letter: log_entry::letter(kind),
                length: part.len(),
            }
        }
        Ok(None) => NextEntry {
            end: true,
            ..NextEntry::default()
        },
        Err(r) => NextEntry {
            refusal: u8::from(r),
            ..NextEntry::default()
        },
    }
}

// Books the entry that bytes start with, such as the part of a log that Next entry gave, in the lent game; 14 where they start with none.
pub fn hb_book_entry(g: &mut Game, s: &[u8]) -> u8
    ensures { BooksEntry g.old s.now result g.new }
{
    let booked = log_walk::book_entry(*g, s);
    keep(g, booked)
}

// A walk over a log before its first entry, with a fresh game.
pub fn hb_log_start() -> Walk
    ensures { result ≡ started }
{
    log_walk::start()
}

// Books entries of a log from where a walk stands and writes their lines into a buffer, as many whole lines as fit: how many bytes, and where the walk
// then stands.
pub fn hb_log_lines(w: Walk, s: &[u8], buf: &mut [u8]) -> Printed
    ensures value { result ≡ lines_of (length buf.old) w s.now }
    ensures buf_after { buf.new ≡ take result.written (text_left w s.now) ++ drop result.written buf.old }
    ensures s_value { 83 + result.written ≤ length buf.old → result.walk.entry < 4294967295 → text_left result.walk s.now ≡ [] }
{
    log_text::lines(w, s, buf)
}

// A line from a position by value.
// stays a number, its letter: what C is given
fn line_of(p: Position, entry: u32, letter: u8, refusal: u8, buf: &mut [u8]) -> usize
    ensures { Lined p entry letter refusal buf.old result buf.new }
{
    let scores = p.scores;
    text::line(buf, entry, letter, refusal, scores, p.sticks)
}

// A line of `tally` at the start of a buffer, or nothing where it does not fit: an entry's number, letter and refusal, and the lent position's scores and
// sticks.
// stays a number, its letter: what C is given
pub fn hb_log_line(p: &Position, entry: u32, letter: u8, refusal: u8, buf: &mut [u8]) -> usize
    ensures { Lined p.now entry letter refusal buf.old result buf.new }
{
    line_of(*p, entry, letter, refusal, buf)
}

// Score, said: the clips of what a record is worth and who pays what, in a language, at the start of a buffer, and how many they are; or the refusal, and the
// buffer as it was.
// stays a number, its language: what C is given
pub fn hb_say_score(language: u8, s: &[u8], dealer: u8, wind: u8, buf: &mut [u8]) -> Said
    ensures { Answers language (score_of s.now dealer wind).refusal (score_said language s.now dealer wind) buf.old result buf.new }
{
    speech_score::say_score(language, s, dealer, wind, buf)
}

// The fu of a record, said: each item and the sum; or the refusal.
// stays a number, its language: what C is given
pub fn hb_say_fu(language: u8, s: &[u8], dealer: u8, wind: u8, buf: &mut [u8]) -> Said
    ensures { Answers language (score_of s.now dealer wind).refusal (fu_message language (score_of s.now dealer wind)) buf.old result buf.new }
{
    speech_fu::say_fu(language, s, dealer, wind, buf)
}

// The scores of a lent position, said, with its sticks and counters; or the refusal.
// stays a number, its language: what C is given
pub fn hb_say_scores(language: u8, p: &Position, buf: &mut [u8]) -> Said
    ensures { SaysScores language p.now buf.old result buf.new }
{
    speech_table::say_scores(language, *p, buf)
}

// A refusal, said: the clip of its sentence, or that of 0, accepted; or the refusal of this call.
// stays a number, its language: what C is given
pub fn hb_say_refusal(language: u8, number: u8, buf: &mut [u8]) -> Said
    ensures { Answers language (cond (ltb 22 number) 8 0) (refusal_message number) buf.old result buf.new }
{
    speech_score::say_refusal(language, number, buf)
}

// The waits of an unfinished hand, said, and furiten by a list of discards; or the refusal.
// stays a number, its language: what C is given
pub fn hb_say_waits(language: u8, s: &[u8], discards: &[u8], buf: &mut [u8]) -> Said
    ensures { Answers language (waits_of s.now discards.now).refusal (waits_message (waits_of s.now discards.now)) buf.old result buf.new }
{
    speech_table::say_waits(language, s, discards, buf)
}

// How far an unfinished hand is from ready, said; or the refusal.
// stays a number, its language: what C is given
pub fn hb_say_ready(language: u8, s: &[u8], buf: &mut [u8]) -> Said
    ensures { SaysReady language s.now buf.old result buf.new }
{
    speech_table::say_ready(language, s, buf)
}
