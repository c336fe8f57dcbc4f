//! Groups of motes by number. If a whole group is too far away to hear a mote, none of its motes is tested.

ghost use Rattle.std.specs.Prelude.{◌≡◌, ◌*◌, ◌-◌, ◌-ℤ◌, ◌<◌, ◌≤◌, ℕ, false, nat_le, unsigned_abs, IfOk, length};
ghost use Rattle.radio_medium.specs.Groups.{AreGroups, HoldsMotes, HoldsPlace, IsBeyond};

use crate::place::{Place, gap};
use std::alloc::{AllocError, Global};

/// The number of motes in a group; the last one may have fewer.
pub(crate) const GROUP_SIZE: usize = 32;

/// A group: the place of its first mote (`centre`), and the greatest distance of the group's other motes from this
/// place, along each axis.
#[derive(Clone, Copy)]
pub(crate) struct Group {
    pub(crate) centre: Place,
    pub(crate) far_x: u64,
    pub(crate) far_y: u64,
}

impl Group {
    /// The group with one more mote.
    fn with(self, place: Place) -> Group
        ensures place { HoldsPlace result place }
        ensures others { (p : Place) → HoldsPlace self p → HoldsPlace result p }
    {
        Group {
            centre: self.centre,
            far_x: self.far_x.max(gap(self.centre.x, place.x)),
            far_y: self.far_y.max(gap(self.centre.y, place.y)),
        }
    }

    /// The group of the motes with these numbers.
    fn of(places: &[Place], first: usize, after: usize) -> Group
        requires not_empty { first < after }
        requires motes { after ≤ length places.now }
        ensures holds_motes { HoldsMotes places.now first after result }
    {
        let mut group = Group {
            centre: places[first],
            far_x: 0,
            far_y: 0,
        };
        for mote in first..after {
            group = group.with(places[mote]);
        }
        group
    }

    /// Returns `true` if a mote of the group may be within the range of a place. Most groups are too far on one axis.
    pub(crate) fn is_near(self, range: u32, from: Place) -> bool
        ensures is_beyond { result ≡ false → IsBeyond self range from }
    {
        reaches(range, from.x, self.centre.x, self.far_x)
            && reaches(range, from.y, self.centre.y, self.far_y)
    }
}

/// Returns `true` if |from - centre| <= range + farthest, on one axis.
fn reaches(range: u32, from: i32, centre: i32, farthest: u64) -> bool
    ensures value { result ≡ nat_le (unsigned_abs (from -ℤ centre) - range) farthest }
{
    gap(from, centre).saturating_sub(u64::from(range)) <= farthest
}

/// The number of groups for this many motes.
fn count_of(motes: usize) -> usize
    requires motes_bounded { motes ≤ 1000 }
    ensures enough { motes ≤ result * 32 }
    ensures filled { (i : ℕ) → i < result → i * 32 < motes }
{
    (motes + (GROUP_SIZE - 1)) / GROUP_SIZE
}

/// The groups of all motes, in the order of their numbers.
pub(crate) fn groups_of(alloc: Global, places: &[Place]) -> Result<Vec<Group>, AllocError>
    requires places_bounded { length places.now ≤ 1000 }
    ensures are_groups { IfOk result (λ groups. AreGroups places.now groups.items) }
{
    let count = count_of(places.len());
    let mut groups = Vec::with_capacity(alloc, count)?;
    for index in 0..count {
        let first = index * GROUP_SIZE;
        let after = places.len().min(first + GROUP_SIZE);
        groups.push(Group::of(places, first, after))?;
    }
    Ok(groups)
}
