// What a riichi, a draw, a chombo and a win give each of the four seats, or take (01, Ledger; 02, S-5, S-7 and S-8). No sum wraps.
#![tactic(auto)]

ghost use Rattle.std.specs.Prelude.{◌≡◌, false, ◌||◌, cond, Some, is_some, unwrap_or, ◌+◌, ◌-◌, ◌*◌, ◌/◌, ◌≤◌, eqb, pos, neg_ℤ, ◌+ℤ◌, get_or};
ghost use Rattle.std.specs.Option.{ForSome};
ghost use Rattle.tiles.specs.Below.{count, tabulate};
ghost use Rattle.score.specs.search.Parts.{Within};
ghost use Rattle.position.specs.Ledger.{last_hand, paid_by_others, whole_of, share_of, fine_of};
ghost use Rattle.position.specs.search.Amounts.{amount, most_change, most_sticks, most_gift, Small, Changes, Gifts};
ghost use Rattle.position.specs.search.Fines.{fined_by};
ghost use Rattle.position_payments.specs.search.Parts.{pao_pays, repeat_pays};

mod parties;

pub use parties::Parties;
use points::Seats;
use position_form::{count_true, each_seat};
use units::Points;

// Points that a seat gets.
fn more(p: Points) -> i32
    requires { p.0 ≤ amount }
    ensures { (result ≡ pos p.0) × Within result p.0 }
{
    p.0 as i32
}

// Points that a seat pays.
fn less(p: Points) -> i32
    requires { p.0 ≤ amount }
    ensures { (result ≡ neg_ℤ (pos p.0)) × Within result p.0 }
{
    -(p.0 as i32)
}

// What riichi gives a seat, which pays for the stick or does not.
fn stake(pays: bool) -> i32
    ensures { (result ≡ cond pays (neg_ℤ (pos 1000)) (pos 0)) × Within result amount }
{
    if pays { -1000 } else { 0 }
}

// What riichi gives each seat: the one that declares pays for its stick.
pub fn stakes(seat: u8) -> [i32; 4]
    ensures { (result ≡ tabulate 4 0 (λ i. cond (eqb i seat) (neg_ℤ (pos 1000)) (pos 0))) × Small result }
{
    each_seat(|i| stake(i == usize::from(seat)))
}

// What a draw with n seats ready gives a seat that is ready, or is not.
fn share(n: u32, ready: bool) -> i32
    requires { n ≤ 4 }
    ensures { (result ≡ share_of n ready) × Within result amount }
{
    if (n == 0) | (n == 4) {
        return 0;
    }
    if ready {
        more(Points(3000 / n))
    } else {
        less(Points(3000 / (4 - n)))
    }
}

// What a draw gives each seat, by which are ready.
pub fn shares(b: [bool; 4]) -> [i32; 4]
    ensures { (result ≡ tabulate 4 0 (λ i. share_of (count 4 (λ j. get_or b j false)) (get_or b i false))) × Small result }
{
    let n = count_true(b);
    each_seat(|i| share(n, b[i]))
}

// What a chombo of n seats gives a seat that is one of them, or is not.
fn fine(n: u32, pays: bool) -> i32
    requires { n ≤ 4 }
    ensures { (result ≡ fined_by n pays) × Within result most_change }
{
    if pays {
        less(Points(3000 * (4 - n)))
    } else {
        more(Points(3000 * n))
    }
}

// What a chombo gives back to a seat that has declared, or has not.
fn back(declared: bool) -> i32
    ensures { (result ≡ cond declared (pos 1000) (pos 0)) × Within result most_change }
{
    if declared { 1000 } else { 0 }
}

// What a chombo gives a seat: its fine, or its part of the others', and its stick.
fn penalty(n: u32, pays: bool, declared: bool) -> i32
    requires { n ≤ 4 }
    ensures { (result ≡ fined_by n pays +ℤ cond declared (pos 1000) (pos 0)) × Within result amount }
{
    fine(n, pays) + back(declared)
}

// What a chombo of the seats f gives each seat, by which have declared.
pub fn penalties(f: [bool; 4], d: [bool; 4]) -> [i32; 4]
    ensures { (result ≡ tabulate 4 0 (λ i. fine_of (λ j. get_or f j false) i +ℤ cond (get_or d i false) (pos 1000) (pos 0))) × Small result }
{
    let n = count_true(f);
    each_seat(|i| penalty(n, f[i], d[i]))
}

// The amount where the seat owes it, else none.
fn due(owes: bool, p: Points) -> Points
    ensures { (result.0 ≡ cond owes p.0 0) × (result.0 ≤ p.0) }
{
    if owes { p } else { Points(0) }
}

// What n repeat counters give a seat at a win: `wins` says that it is the winner, `alone` that one seat pays them all, `pays` that it is that seat.
fn addition(wins: bool, alone: bool, pays: bool, n: u32) -> i32
    requires { n ≤ last_hand }
    ensures { (result ≡ cond wins (pos (300 * n)) (neg_ℤ (pos (cond alone (cond pays (300 * n) 0) (100 * n))))) × Within result most_change }
{
    if wins {
        more(Points(300 * n))
    } else if alone {
        less(due(pays, Points(300 * n)))
    } else {
        less(Points(100 * n))
    }
}

// What n repeat counters give each seat at a win: the payer alone, or all others, pay more, and the winner gets it.
// stays numbers: what it pays goes by no other field of the parties
pub fn additions(winner: u8, payer: Option<u8>, n: u32) -> [i32; 4]
    requires { (winner ≤ 3) × ForSome payer (λ x. (x ≤ 3) × (winner ≡ x → ⊥)) × (n ≤ last_hand) }
    ensures { (result ≡ tabulate 4 0 (paid_by_others winner (repeat_pays (unwrap_or payer 0) (is_some payer) n))) × Changes result }
{
    let alone = payer.is_some();
    let payer = usize::from(payer.unwrap_or(0));
    each_seat(|i| addition(i == usize::from(winner), alone, i == payer, n))
}

// What a yakuman gives the winner, the dealer or a child.
fn whole_of(dealers: bool) -> Points
    ensures { (result.0 ≡ whole_of dealers) × (result.0 ≤ 48000) }
{
    if dealers {
        Points(48000)
    } else {
        Points(32000)
    }
}

// What a seat pays of the whole by article 67: `feeds` says that it is the feeder, `discards` that it is the discarder.
fn owed(ron: bool, feeds: bool, discards: bool, whole: Points) -> Points
    requires { whole.0 ≤ 48000 }
    ensures { (result.0 ≡ cond ron (cond feeds (whole.0 / 2) 0 + cond discards (whole.0 / 2) 0) (cond feeds whole.0 0)) × (result.0 ≤ whole.0) }
{
    let half = Points(whole.0 / 2);
    if ron {
        Points(due(feeds, half).0 + due(discards, half).0)
    } else {
        due(feeds, whole)
    }
}

// What article 67 gives a seat that wins, or does not.
fn pao_given(wins: bool, owes: Points, whole: Points) -> i32
    requires { (owes.0 ≤ 48000) × (whole.0 ≤ 48000) }
    ensures { (result ≡ cond wins (pos whole.0) (neg_ℤ (pos owes.0))) × Within result most_change }
{
    if wins { more(whole) } else { less(owes) }
}

// What article 67 gives each seat, by ron or not: feeder and discarder pay the winner the whole.
// stays a number: the feeder, taken out of the parties
fn pao_gives(p: Parties, feeder: u8) -> [i32; 4]
    requires { (feeder ≤ 3) × (p.seats.winner ≡ feeder → ⊥) }
    ensures { (result ≡ tabulate 4 0 (paid_by_others p.seats.winner (pao_pays p.seats.discarder feeder p.ron (whole_of (eqb p.seats.winner p.seats.dealer))))) × Changes result }
{
    let Seats {
        winner,
        dealer,
        discarder,
    } = p.seats;
    let whole = whole_of(winner == dealer);
    each_seat(|i| {
        let feeds = i == usize::from(feeder);
        let discards = i == usize::from(discarder);
        pao_given(
            i == usize::from(winner),
            owed(p.ron, feeds, discards, whole),
            whole,
        )
    })
}

// What each seat gets or pays of the winner's gain: the changes c, or by article 67 with pao.
pub fn won(p: Parties, c: [i32; 4]) -> [i32; 4]
    requires { Changes c }
    ensures { (result ≡ cond (is_some p.feeder) (tabulate 4 0 (paid_by_others p.seats.winner (pao_pays p.seats.discarder (unwrap_or p.feeder 0) p.ron (whole_of (eqb p.seats.winner p.seats.dealer))))) c) × Changes result }
{
    match p.feeder {
        Some(feeder) => pao_gives(p, feeder),
        None => c,
    }
}

// Who pays the counters, where one seat does: the discarder on ron, else the feeder.
fn payer_of(p: Parties) -> Option<u8>
    ensures { result ≡ cond p.ron (Some p.seats.discarder) p.feeder }
{
    if p.ron {
        Some(p.seats.discarder)
    } else {
        p.feeder
    }
}

// What n repeat counters give each seat at a win: all others pay them on tsumo, the discarder alone on ron, and the feeder alone on tsumo with pao.
pub fn added(p: Parties, n: u32) -> [i32; 4]
    requires { n ≤ last_hand }
    ensures { (result ≡ tabulate 4 0 (paid_by_others p.seats.winner (repeat_pays (cond p.ron p.seats.discarder (unwrap_or p.feeder 0)) (p.ron || is_some p.feeder) n))) × Changes result }
{
    additions(p.seats.winner, payer_of(p), n)
}

// What a win gives a seat: its change, what the counters add, and the sticks if it wins.
fn winning(change: i32, added: i32, wins: bool, sticks: u32) -> i32
    requires { Within change most_change × Within added most_change × (sticks ≤ most_sticks) }
    ensures { (result ≡ change +ℤ added +ℤ cond wins (pos (1000 * sticks)) (pos 0)) × Within result most_gift }
{
    let sum = change + added;
    if wins {
        sum + more(Points(1000 * sticks))
    } else {
        sum
    }
}

// What a win gives each seat: its change, what the counters add, and the winner the sticks.
pub fn winnings(c: [i32; 4], a: [i32; 4], winner: u8, sticks: u32) -> [i32; 4]
    requires { Changes c × Changes a × (sticks ≤ most_sticks) }
    ensures { (result ≡ tabulate 4 0 (λ i. get_or c i (pos 0) +ℤ get_or a i (pos 0) +ℤ cond (eqb i winner) (pos (1000 * sticks)) (pos 0))) × Gifts result }
{
    each_seat(|i| winning(c[i], a[i], i == usize::from(winner), sticks))
}
