//! Laws of the run of a net. Each is a theorem, stated as the contract of a function. The function is empty, or only
//! asks for a length.

ghost use Rattle.serial_run.specs.Counted.{CopiesComeInTime, LateCopiesStay};
ghost use Rattle.serial_run.specs.FaultLaws.{LossTablesAgree, OrderMeansNothing, SomeAreUnsent, UnsentIsNothing};
ghost use Rattle.serial_run.specs.Laws.{AlwaysOneWake, BucketsHoldItems, NetsRunForward, NoFaultsOneLife, ReportIsOne};
ghost use Rattle.serial_run.specs.Laws.{ReportIsThere, TracesHandOn, WakesAlwaysDiffer, WindowsCommuteInNets};
ghost use Rattle.serial_run.specs.Stamps.{LogCountsUp, SendsAreStamped, TracesNeverGoBack};

use net_agenda::Agenda;

/// A net has at most one report.
pub fn report_is_one()
    ensures report_is_one { ReportIsOne }
{}

/// If a net's medium has no error and has a place for each mote, the net has a report, because its wakes and copies
/// are later than the turns that make them. Every `Net` has such a medium.
pub fn report_is_there()
    ensures forward { NetsRunForward }
    ensures report_is_there { ReportIsThere }
{}

/// Windows commute if the medium has no error and has a place for each mote, as in every `Net`. Divide the time from 0
/// to end + 1 into any windows, none of which is longer than the lookahead. Run each mote by itself through each
/// window, with the copies that earlier windows sent to it, in any order of the motes. Then the result is that of the
/// net's run: the lines of each mote, the medium's log sorted by moment, sender and number, and the number of copies
/// left.
pub fn windows_commute()
    ensures windows_commute_in_nets { WindowsCommuteInNets }
{}

/// In the lines of each life of a mote of a net, events are delivered in the order in which they were accepted, without gaps
/// (those left at the end aren't delivered), nothing follows a halt, and a process starts only if it isn't listed. A mote
/// has another life only where a fault lets it boot again.
pub fn traces_hand_on()
    ensures traces_hand_on { TracesHandOn }
    ensures one_life { NoFaultsOneLife }
{}

/// The buckets of an agenda have the same items as the net's list of pending events. Each packet occurs in the buckets
/// as often as in the list. The buckets have a wake of a mote at a moment if and only if the list has such a wake. So
/// if no mote has two wakes at one moment, the items of all buckets are a permutation of the list. The function asks
/// the map for its length because the contract of that call states that the keys rise: no two buckets have the same
/// moment.
pub fn buckets_hold_items(agenda: &Agenda)
    ensures buckets_hold_items { BucketsHoldItems agenda.now.buckets }
{
    let _length = agenda.buckets.len();
}

/// Before each turn of a net's run, and at its end, each mote has at most one wake. So no mote has two wakes at one
/// moment.
pub fn at_most_one_wake()
    ensures one { AlwaysOneWake }
    ensures differ { WakesAlwaysDiffer }
{}

/// At the end the agenda has exactly the copies of the log's packets that arrive after the end, in the order of the
/// log. So a copy that the medium didn't lose arrives at or before the end, or is on its way when the run ends.
pub fn late_copies_stay()
    ensures late_copies_stay { LateCopiesStay }
{}

/// The copies that a turn gets are for its mote, and arrive at its moment.
pub fn copies_come_in_time()
    ensures copies_come_in_time { CopiesComeInTime }
{}

/// In a net the moments of each mote's lines never go back, and in the medium's log the packets of each mote are
/// numbered from 0 on, in order.
pub fn moments_and_numbers_rise()
    ensures traces { TracesNeverGoBack }
    ensures log { LogCountsUp }
{}

/// The packets that a mote sends in a turn of a net's run already have the turn's moment and the mote's number:
/// stamping them changes nothing.
pub fn sends_are_stamped()
    ensures sends_are_stamped { SendsAreStamped }
{}

/// With broken links and silent motes, a net has the report of the net whose medium loses every packet on the broken links
/// (as if the scenario had these losses), and otherwise the same packets.
pub fn loss_tables_agree()
    ensures loss_tables_agree { LossTablesAgree }
{}

/// The order of faults means nothing.
pub fn order_means_nothing()
    ensures order_means_nothing { OrderMeansNothing }
{}

/// A fault that keeps no mote off and boots none, and names no copy in a report but those that are lost anyway, may be added: the report
/// stays the same.
pub fn unsent_is_nothing()
    ensures unsent_is_nothing { UnsentIsNothing }
{}

/// In a small report, faults of the copy that is lost, of motes that send nothing and of packets that aren't sent name no
/// copy. Each fault of the copy that arrives does.
pub fn some_are_unsent()
    ensures some_are_unsent { SomeAreUnsent }
{}
