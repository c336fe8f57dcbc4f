//! Laws of kernels. Each is a theorem, stated as the contract of an empty function.

ghost use Rattle.process_kernel.specs.Laws.{TellsLeft, PendingIsLeft, StaysHalted};
ghost use Rattle.process_kernel.specs.KernelModel.{boot_given, run_given};

/// A boot or a run returns how much work the mote has left, and a kernel is pending if and only if this amount is not
/// 0.
pub fn left_is_pending()
    ensures boot { TellsLeft boot_given }
    ensures run { TellsLeft run_given }
    ensures pending { PendingIsLeft }
{}

/// A mote that has halted never changes, and writes nothing more.
pub fn halted_for_good()
    ensures boot { StaysHalted boot_given }
    ensures run { StaysHalted run_given }
{}
