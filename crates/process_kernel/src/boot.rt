//! The boot of a mote.

ghost use Rattle.std.specs.Prelude.{map};
ghost use Rattle.process_kernel.specs.Process.{autostart_start, boot_of};
ghost use Rattle.process_kernel.specs.Views.{Follows};

use crate::machine::{Machine, Stop};
use program_tree::{Proc, Program};

impl Machine {
    fn start_each(&mut self, program: &Program, processes: &[u8]) -> Result<(), Stop>
        ensures follows { Follows program.now self.old result self.new
            (λ calls. autostart_start calls (map Proc.Own processes.now)) }
    {
        for process in processes {
            self.start(program, Proc::Own(*process))?;
        }
        Ok(())
    }

    /// Starts the system processes and then the processes that the program names. Returns how much work is left.
    ///
    /// # Errors
    /// `Halted` if the mote halts meanwhile; `Memory` if an allocation fails.
    #[tactic(auto, unfolding(crate::specs::Process::boot_of))]
    pub fn boot(&mut self, program: &Program) -> Result<u16, Stop>
        ensures follows { Follows program.now self.old result self.new boot_of }
    {
        self.start(program, Proc::Etimer)?;
        self.start(program, Proc::Ctimer)?;
        self.start(program, Proc::Radio)?;
        self.start_each(program, program.autostart())?;
        Ok(self.left())
    }
}
