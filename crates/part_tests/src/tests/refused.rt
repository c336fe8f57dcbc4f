//! The results of kernels and motes once an allocation has failed. `tools/dev/refuse_memory` runs this test many
//! times, and makes another allocation fail in each run. The test passes if each call returns the right result. It
//! ends with the error "out of memory" if no kernel or no mote can be made.

use mote_node::{Mote, MoteError};
use mote_program::read;
use process_kernel::{Kernel, KernelError, Line, Out, What};
use program_tree::Program;
use std::alloc::Global;
use std::test::Fail;

/// A process that prints and sends in each run.
const BUSY: &str =
    "process a; autostart a; code a { var i = 0; body { while 1 { print i; send i; i = (i + 1); poll a; yield; } } }";

/// A process that starts other processes in each run. They leave again.
const STARTER: &str =
    "process a, b, c; autostart a; code a { body { while 1 { start b; kill b; start c; poll a; yield; } } } \
     code b { body { yield; } } code c { body { } }";

/// A line that was written before the lines of the kernel.
const BEFORE: Line = Line {
    at: 9,
    what: What::Lost(1, 2),
};

/// The number of lines that the starter may write without an allocation.
const LINES: usize = 1000;

/// Calls a kernel: boots it at moment 0. Later calls alternate between a single run and several runs in a row.
fn call(program: &Program, kernel: &mut Kernel, out: &mut Out, now: u16) -> Option<KernelError> {
    let moment = u64::from(now);
    if now == 0 {
        kernel.boot(program, moment, out).err()
    } else if now % 2 == 0 {
        kernel.run(program, moment, out).err()
    } else {
        kernel.run_all(program, moment, 4, out).err()
    }
}

/// The first error of a boot and 50 calls.
fn first_error(program: &Program, kernel: &mut Kernel, out: &mut Out) -> Option<KernelError> {
    for now in 0..=50u16 {
        if let Some(error) = call(program, kernel, out, now) {
            return Some(error);
        }
    }
    None
}

/// Tests whether each call reports that the kernel has failed, and writes no more lines.
fn has_failed(program: &Program, kernel: &mut Kernel, out: &mut Out) -> bool {
    let lines = out.lines.len();
    let mut all = true;
    for now in [0, 60, 61] {
        all &= call(program, kernel, out, now) == Some(KernelError::Failed);
    }
    all && out.lines.len() == lines
}

/// Tests whether a kernel that is out of memory fails for good, and keeps the lines written before. A kernel with room
/// for all its lines allocates only a thread at the first call of a process, and a copy of its first process list.
fn kernel_fails_for_good(program: &Program, kernel: &mut Kernel, out: &mut Out) -> bool {
    let has_room = out.lines.capacity() >= LINES;
    let fails = match first_error(program, kernel, out) {
        Some(KernelError::Memory) => has_failed(program, kernel, out),
        Some(KernelError::Failed) => false,
        None => !has_room || out.lines.len() > LINES / 2,
    };
    fails && out.lines.first().copied() == Some(BEFORE)
}

/// Makes the same test with a new kernel, and with room for this many lines, one of which is already written.
fn new_kernel_fails(alloc: Global, program: &Program, room: usize) -> Result<bool, Fail> {
    let mut out = Out {
        lines: Vec::with_capacity(alloc, room)?,
        sends: Vec::new(alloc),
    };
    out.lines.push(BEFORE)?;
    let mut kernel = Kernel::new(alloc, program, 7, 32)?;
    Ok(kernel_fails_for_good(program, &mut kernel, &mut out))
}

/// The first error of 20 turns.
fn first_error_of_turns(program: &Program, mote: &mut Mote) -> Option<MoteError> {
    for moment in 0..20u64 {
        if let Err(error) = mote.turn(program, moment, &[]) {
            return Some(error);
        }
    }
    None
}

/// Tests whether a mote that is out of memory fails for good, and then asks for no more turns.
fn mote_fails_for_good(program: &Program, mote: &mut Mote) -> bool {
    match first_error_of_turns(program, mote) {
        Some(MoteError::Memory) => {
            mote.turn(program, 100, &[]).err() == Some(MoteError::Failed) && mote.wake().is_none()
        }
        Some(MoteError::Failed | MoteError::Past) => false,
        None => mote.wake() == Some(20),
    }
}

/// Tests whether kernels and motes of these programs fail for good.
fn all_fail_for_good(alloc: Global, busy: &Program, starter: &Program) -> Result<bool, Fail> {
    let mut mote = Mote::new(alloc, 7, busy, 32)?;
    Ok(
        mote_fails_for_good(busy, &mut mote)
            && new_kernel_fails(alloc, busy, 1)?
            && new_kernel_fails(alloc, starter, LINES)?,
    )
}

#[test]
fn once_out_of_memory(rt: HostRuntime) -> Result<(), Fail> {
    let busy = read(rt.alloc(), BUSY)?;
    let starter = read(rt.alloc(), STARTER)?;
    assert!(rt; all_fail_for_good(rt.alloc(), &busy, &starter)?);
    Ok(())
}
