//! The places of motes.

ghost use Rattle.std.specs.Prelude.{◌≡◌, ◌≤◌, ◌<◌, ◌^◌, ◌-ℤ◌, nat_le, unsigned_abs};
ghost use Rattle.radio_medium.specs.Medium.{square_distance};

/// The place of a mote. Places, distances and ranges have the same unit.
#[derive(Clone, Copy, Debug, PartialEq, Eq)]
pub struct Place {
    pub x: i32,
    pub y: i32,
}

/// The difference of two numbers: |a - b|.
#[inline(always)]
pub(crate) fn gap(a: i32, b: i32) -> u64
    ensures value { result ≡ unsigned_abs (a -ℤ b) }
{
    (i64::from(a) - i64::from(b)).unsigned_abs()
}

impl Place {
    /// The square of the distance to another place.
    #[tactic(auto, unfolding(crate::specs::Medium::square_distance))]
    pub(crate) fn square_distance(self, other: Place) -> u64
        requires x { unsigned_abs self.x ≤ 30000 }
        requires y { unsigned_abs self.y ≤ 30000 }
        requires other_x { unsigned_abs other.x ≤ 30000 }
        requires other_y { unsigned_abs other.y ≤ 30000 }
        ensures value { result ≡ square_distance self other }
        ensures bound { result < 2 ^ 33 }
    {
        let dx = gap(self.x, other.x);
        let dy = gap(self.y, other.y);
        dx * dx + dy * dy
    }

    /// Returns `true` if the square of the distance to another place is at most `square`. Most places are already too
    /// far away along the x axis.
    #[tactic(auto, unfolding(crate::specs::Medium::square_distance))]
    #[inline(always)]
    pub(crate) fn is_within(self, square: u64, other: Place) -> bool
        requires x { unsigned_abs self.x ≤ 30000 }
        requires y { unsigned_abs self.y ≤ 30000 }
        requires other_x { unsigned_abs other.x ≤ 30000 }
        requires other_y { unsigned_abs other.y ≤ 30000 }
        ensures value { result ≡ nat_le (square_distance self other) square }
    {
        let dx = gap(self.x, other.x);
        if dx * dx > square {
            return false;
        }
        self.square_distance(other) <= square
    }
}
