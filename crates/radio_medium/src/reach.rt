//! The range of a packet, and its delay.

ghost use Rattle.std.specs.Prelude.{◌≡◌, ◌+◌, ◌/◌, ◌^◌, ◌<◌, ◌≤◌, nat_le, unsigned_abs};
ghost use Rattle.radio_medium.specs.Medium.{square, square_distance};

use crate::place::Place;

/// The range within which a packet is heard, its least delay `base`, and the number `per`: a packet needs one more
/// moment for each whole `per` in the square of the distance.
#[derive(Clone, Copy)]
pub(crate) struct Reach {
    pub(crate) range: u32,
    pub(crate) base: u32,
    pub(crate) per: u32,
}

impl Reach {
    /// Returns `true` if a packet is heard at a distance with this square.
    pub(crate) fn covers(self, square_distance: u64) -> bool
        ensures value { result ≡ nat_le square_distance (square self.range) }
    {
        square_distance <= u64::from(self.range) * u64::from(self.range)
    }

    /// Returns `true` if a packet is heard between two places.
    #[inline(always)]
    pub(crate) fn joins(self, a: Place, b: Place) -> bool
        requires a_x { unsigned_abs a.x ≤ 30000 }
        requires a_y { unsigned_abs a.y ≤ 30000 }
        requires b_x { unsigned_abs b.x ≤ 30000 }
        requires b_y { unsigned_abs b.y ≤ 30000 }
        ensures value { result ≡ nat_le (square_distance a b) (square self.range) }
    {
        a.is_within(u64::from(self.range) * u64::from(self.range), b)
    }

    /// The number of moments that a packet needs at a distance with this square.
    pub(crate) fn delay(self, square_distance: u64) -> u64
        requires distance { square_distance < 2 ^ 33 }
        requires per { 0 < self.per }
        ensures value { result ≡ self.base + square_distance / self.per }
        ensures bound { result < 2 ^ 34 }
    {
        u64::from(self.base) + square_distance / u64::from(self.per)
    }
}
