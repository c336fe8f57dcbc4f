//! Nets: motes, each with a program and a queue, and the medium between them.
ghost use Rattle.std.specs.Prelude.{◌≡◌, ◌<◌, ◌≤◌, length, map, IsTrue, Some, option_map, slice_get};
ghost use Rattle.std.specs.List.{list_all};
ghost use Rattle.mote_net.specs.Limits.{latest_end, fewest_motes, most_motes, shortest_queue, longest_queue};
ghost use Rattle.mote_net.specs.Motes.{is_mote_of};

use crate::programs::NamedProgram;
use program_tree::Program;
use radio_medium::Medium;

/// The set-up of a mote before a run: the index of its program among the programs of the net, and the number of events
/// for which its queue has room.
#[derive(Clone, Copy, Debug)]
pub struct MoteSetup {
    pub program: usize,
    pub queue: u16,
}

/// A net: the last moment at which turns are taken, whether packets collide, the medium with the places of the motes,
/// and the motes. The motes are numbered from 0 in the order of the scenario.
pub struct Net {
    end: u32,
    collide: bool,
    medium: Medium,
    programs: Vec<NamedProgram>,
    motes: Vec<MoteSetup>,
    ghost early: { end ≤ latest_end },
    ghost some: { fewest_motes ≤ length motes.items },
    ghost few: { length motes.items ≤ most_motes },
    ghost placed: { length medium.places ≡ length motes.items },
    ghost fit: { IsTrue (list_all (is_mote_of (length programs.items)) motes.items) },
}

/// Implemented by hand: for the checker, each function that owns a net then drops it with a single call.
impl Drop for Net {
    fn drop(self) {
        let Net {
            end: _,
            collide: _,
            medium: _,
            programs: _,
            motes: _,
        } = self;
    }
}

impl Net {
    ghost use Rattle.program_tree.specs.Program.{tree_of};
    ghost use Rattle.mote_net.specs.Meaning.{net_of, setup_of};

    /// The net of these parts. `end` is its last moment. The medium has a place for each mote, and the program of each
    /// mote is one of `programs`.
    pub fn new(
        end: u32,
        collide: bool,
        medium: Medium,
        programs: Vec<NamedProgram>,
        motes: Vec<MoteSetup>,
    ) -> Net
        requires end_bounded { end ≤ latest_end }
        requires enough_motes { fewest_motes ≤ length motes.items }
        requires motes_bounded { length motes.items ≤ most_motes }
        requires placed { length medium.places ≡ length motes.items }
        requires fit { IsTrue (list_all (is_mote_of (length programs.items)) motes.items) }
        ensures net { net_of result ≡ record {
          end = end;
          collide = collide;
          radio = medium;
          motes = map (setup_of programs.items) motes.items;
        } }
    {
        Net {
            end,
            collide,
            medium,
            programs,
            motes,
        }
    }

    /// The last moment at which turns are taken.
    pub fn end(&self) -> u64
        ensures value { result ≡ (net_of self.now).end }
        ensures bounded { result ≤ latest_end }
    {
        u64::from(self.end)
    }

    /// Returns `true` if packets collide: copies that reach a mote at the same moment are all lost.
    pub fn collide(&self) -> bool
        ensures value { result ≡ (net_of self.now).collide }
    {
        self.collide
    }

    /// The medium. Each mote has its place in it.
    pub fn medium(&self) -> &Medium
        ensures value { result.now ≡ (net_of self.now).radio }
        ensures placed { length result.now.places ≡ length (net_of self.now).motes }
    {
        &self.medium
    }

    /// The number of motes.
    pub fn motes(&self) -> u16
        ensures value { result ≡ length (net_of self.now).motes }
        ensures lower_bound { fewest_motes ≤ result }
        ensures upper_bound { result ≤ most_motes }
    {
        self.motes.len() as u16
    }

    /// The program that a mote of the net runs.
    pub fn program(&self, mote: u16) -> &Program
        requires mote_exists { mote < length (net_of self.now).motes }
        ensures tree { option_map (λ m. m.tree) (slice_get (net_of self.now).motes mote) ≡ Some (tree_of result.now) }
    {
        let place = self.motes[usize::from(mote)].program;
        &self.programs[place].program
    }

    /// The name of the program that a mote of the net runs.
    pub fn program_name(&self, mote: u16) -> &str
        requires mote_exists { mote < length (net_of self.now).motes }
        ensures name { option_map (λ m. m.program) (slice_get (net_of self.now).motes mote) ≡ Some result.now }
    {
        let place = self.motes[usize::from(mote)].program;
        self.programs[place].name.as_str()
    }

    /// The number of events for which this mote's queue has room.
    pub fn queue(&self, mote: u16) -> u16
        requires mote_exists { mote < length (net_of self.now).motes }
        ensures value { option_map (λ m. m.queue) (slice_get (net_of self.now).motes mote) ≡ Some result }
        ensures shortest { shortest_queue ≤ result }
        ensures longest { result ≤ longest_queue }
    {
        self.motes[usize::from(mote)].queue
    }
}
