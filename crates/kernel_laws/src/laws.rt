//! Laws of the traces of a kernel. Each is a theorem, stated as the contract of an empty function.

ghost use Rattle.kernel_laws.specs.Polled.{PacketsAreHanded, DueTimersArePosted};
ghost use Rattle.kernel_laws.specs.Due.{CallsForgetNone, BootForgetsNone, RunForgetsNone, RunTellsDue};
ghost use Rattle.kernel_laws.specs.Due.{BootKeepsOwners};
ghost use Rattle.kernel_laws.specs.Due.{RunKeepsOwners};
ghost use Rattle.kernel_laws.specs.Printed.{PrintsAreTheReading, PrintsSoFarAreTheReading};
ghost use Rattle.kernel_laws.specs.Telling.{TellingIsOfLives, TellingIsOfLivesSoFar, NoLinesTellFirst, BootTells};
ghost use Rattle.kernel_laws.specs.Telling.{RunTells, PollTells, PacketTells, NoteTells};
ghost use Rattle.kernel_laws.specs.Ring.{CallsTellPackets, BootTellsPackets, RunTellsPackets, RunEmptiesRing};
ghost use Rattle.kernel_laws.specs.Laws.{KernelsHandOn, GoingIsInOrder, NoLinesGoFirst, BootAddsItsLines};
ghost use Rattle.kernel_laws.specs.Laws.{RunAddsItsLines, PollKeeps, PacketKeeps, NoteKeeps, OnlyTheRunningAreCalled};
ghost use Rattle.kernel_laws.specs.Laws.{CallsKeepStep, ListedAreRunning, CallsStamp, BootStamps, RunStamps};

/// In the lines of a kernel, joined, events are delivered in the order in which they were accepted, without gaps (those
/// left at the end aren't delivered); nothing follows a halt; and a process starts only if it isn't listed. This is
/// true for any program and for any calls after the boot.
pub fn kernels_hand_on()
    ensures kernels_hand_on { KernelsHandOn }
{}

/// Lines that agree with a mote are in order. The empty list of lines agrees with a mote that was not booted. The lines
/// still agree with the mote after its first boot, after a run of a booted mote, after a request of a poll, after a
/// packet for the ring and, unless the mote has halted, after a line about an arriving packet.
pub fn each_call_keeps_order()
    ensures in_order { GoingIsInOrder }
    ensures first { NoLinesGoFirst }
    ensures boot { BootAddsItsLines }
    ensures run { RunAddsItsLines }
    ensures poll { PollKeeps }
    ensures packet { PacketKeeps }
    ensures note { NoteKeeps }
{}

/// A process is called only while it is on the process list and running: calling a process that isn't running has no
/// effect. Unless the mote halts, the states of the processes stay in step with the list in each call. Between the
/// calls of a kernel that has not halted, exactly the listed processes are running.
pub fn the_listed_are_running()
    ensures called { OnlyTheRunningAreCalled }
    ensures within { CallsKeepStep }
    ensures between { ListedAreRunning }
{}

/// Unless the mote halts, the polls of the system processes handle each waiting packet and each timer that is due. A
/// poll of the radio process posts each packet in the receive ring to the receiver, in order, or nobody hears the
/// packet; the ring is empty afterwards. At a poll of etimer, TIMER is posted to the owner of each timer that is due
/// at that moment. If the queue was full, a line states this.
pub fn what_waits_is_traced()
    ensures packets { PacketsAreHanded }
    ensures timers { DueTimersArePosted }
{}

/// Each line that is written in a boot or a kernel run is stamped with its moment, however calls nest, and even if the
/// mote halts. Each packet that is sent is stamped with the moment and the mote. The numbers of packets continue from
/// the number of packets sent before.
pub fn what_is_written_bears_its_moment()
    ensures within { CallsStamp }
    ensures boot { BootStamps }
    ensures run { RunStamps }
{}

/// No packet leaves the receive ring without its line, and packets leave in the order in which they arrived. This is
/// true within calls, however they nest, and in boots and kernel runs, which write no line about an arriving packet.
/// If a mote is at rest, and the ring is empty or a poll of the radio process waits, a kernel run leaves the ring
/// empty, unless the mote halts. If the mote halts, the packets that are left have no line.
pub fn the_ring_is_traced()
    ensures within { CallsTellPackets }
    ensures boot { BootTellsPackets }
    ensures run { RunTellsPackets }
    ensures emptied { RunEmptiesRing }
{}

/// No timer is forgotten, unless the mote halts. After a boot no timer is due, or a poll of etimer waits. If this is
/// true before a call while etimer can be polled, it is also true after it, unless the event is EXIT for a system
/// process. If it is true at the moment of a kernel run of a mote at rest, it is also true after the run. If a poll of
/// etimer waits then, the run polls etimer, after the processes that precede etimer on the process list. For each
/// timer that is due at that point, a line states that TIMER was posted to its owner, or that the queue was full. If
/// each timer on the list has an owner before a boot or a kernel run, the same is true after it, even if the mote
/// halts.
pub fn no_timer_is_forgotten()
    ensures within { CallsForgetNone }
    ensures boot { BootForgetsNone }
    ensures run { RunForgetsNone }
    ensures due { RunTellsDue }
    ensures boot_owners { BootKeepsOwners }
    ensures run_owners { RunKeepsOwners }
{}

/// Let a process be quiet apart from its body: its blocks at POLL and EXIT and those of its callback timers print
/// nothing, set no variable and spawn no thread. From each of its starts on, the process prints the lines of a reading
/// of its body. A reading follows the structure of the body; at each step it gets a sight of the mote: an event, an
/// answer and a view. This is true whatever other processes do meanwhile, and whatever calls of the kernel follow the
/// boot. INIT comes first, each call has one event and one moment, and each line is at the moment of its sight. The
/// rest of a sight (later events, timers, processes, semaphores) isn't in the lines. Each life of the process, from a
/// start to the exit, begins with the variables that the previous life left. If the mote halts, this is
/// true of the lines up to the halt, and the last life may be cut short, even right after its start.
pub fn prints_are_the_reading()
    ensures prints_are_the_reading { PrintsAreTheReading }
    ensures so_far { PrintsSoFarAreTheReading }
{}

/// The lines so far of a kernel are about the lives of a process that is quiet apart from its body, up to the
/// process's current position. This is true of a mote that was not booted and the empty list of lines, and each call
/// of the mote's kernel keeps this relation, whatever was written before the call.
pub fn each_call_tells_lives()
    ensures lives { TellingIsOfLives }
    ensures lives_so_far { TellingIsOfLivesSoFar }
    ensures first { NoLinesTellFirst }
    ensures boot { BootTells }
    ensures run { RunTells }
    ensures poll { PollTells }
    ensures packet { PacketTells }
    ensures note { NoteTells }
{}
