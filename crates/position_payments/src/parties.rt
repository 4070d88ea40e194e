// Who pays at a win.
ghost use Rattle.std.specs.Prelude.{◌≡◌, true, ◌≤◌};
ghost use Rattle.std.specs.Option.{ForSome};

use points::Seats;

// The seats of a win, whether it is a ron, and the feeder who is liable for the yaku that is reported, where one is (02, S-8).
#[derive(Clone, Copy)]
pub struct Parties {
    pub seats: Seats,
    pub ron: bool,
    pub feeder: Option<u8>,
    pub ghost seated: { (seats.winner ≤ 3) × (seats.discarder ≤ 3) },
    pub ghost other_discarder: { ron ≡ true → seats.winner ≡ seats.discarder → ⊥ },
    pub ghost other_feeder: { ForSome feeder (λ x. (x ≤ 3) × (seats.winner ≡ x → ⊥)) },
}
