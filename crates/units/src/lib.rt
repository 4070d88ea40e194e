// "Han, fu and points are the rules' three units, and a figure in one is never passed where another belongs" (01, Fu and points).
#![tactic(auto)]

ghost use Rattle.std.specs.Prelude.{◌≡◌, ◌<◌};

// Han: of a yaku, of the dora, and their sum h.
#[repr(C)]
#[derive(Clone, Copy, Default, PartialEq, Eq, PartialOrd, Ord)]
pub struct Han(pub u16);

// Fu: of an item, and the sum of the items.
#[repr(C)]
#[derive(Clone, Copy, Default, PartialEq, Eq, PartialOrd, Ord)]
pub struct Fu(pub u8);

// Points: the basic points A, a payment, the winner's gain.
#[repr(C)]
#[derive(Clone, Copy, Default, PartialEq, Eq, PartialOrd, Ord)]
pub struct Points(pub u32);

// A count as han.
pub fn han_of(n: u8) -> Han
    ensures result_value { result.0 ≡ n }
    ensures result_bound { result.0 < 256 }
{
    Han(n as u16)
}
