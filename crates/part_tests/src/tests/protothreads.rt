//! Whole protothreads, tested only with `advance`.

ghost use Rattle.std.specs.Prelude.{[], ◌∷◌};

use mote_program::read;
use program_tree::{Event, ProcessText};
use protothread::{Fuel, Look, Part, PtState, Semaphore, Thread, Vars};
use std::alloc::Global;
use std::test::Fail;
use test_helpers::same_text;

/// A fixed state of a mote: one expired timer, one process that is running, and one semaphore.
#[derive(Clone, Copy)]
struct Fixed {
    moment: u64,
    mote: u16,
    timer: u16,
    process: u8,
    count: u16,
}

const FIXED: Fixed = Fixed {
    moment: 65_541,
    mote: 9,
    timer: 6,
    process: 2,
    count: 4,
};

impl Look for Fixed {
    ghost looks = { λ f. record {
      moment = f.moment;
      mote = f.mote;
      expired = f.timer ∷ [];
      running = f.process ∷ [];
      counts = f.count ∷ [];
    } };

    fn now(&self) -> u16 {
        (self.moment % 65_536) as u16
    }

    fn mote(&self) -> u16 {
        self.mote
    }

    fn expired(&self, timer: u16) -> bool {
        timer == self.timer
    }

    fn running(&self, process: u8) -> bool {
        process == self.process
    }

    fn count(&self, semaphore: u8) -> u16 {
        if semaphore == 0 { self.count } else { 0 }
    }
}

/// A call of a thread of a program's first process.
#[derive(Clone, Copy)]
enum Act {
    /// Advances the thread with an event of this number and word, which mote 3 sent.
    Event(u8, u16),
    /// Hands the thread the result of the operation that it asked for.
    Answer(u16),
    /// Replaces the thread by a new thread of this part, at its beginning.
    Begin(Part),
    /// Sets the number of units that are left.
    Units(u32),
}

/// INIT of `process.h`.
const INIT: Act = Act::Event(0x81, 0);

/// MSG of `process.h`, with the word 0.
const MSG_0: Act = Act::Event(0x86, 0);

/// MSG of `process.h`, with the word 1.
const MSG_1: Act = Act::Event(0x86, 1);

/// A thread with its variables and units.
#[derive(Drop)]
struct Bench {
    thread: Thread,
    vars: Vars,
    fuel: Fuel,
}

impl Bench {
    /// Makes the call. If it advances the thread, writes down the step and the number of units that are left.
    fn write_act(&mut self, text: &mut String, code: &ProcessText, act: Act) {
        match act {
            Act::Event(number, word) => {
                let event = Event {
                    number,
                    word,
                    sender: 3,
                };
                let step = self
                    .thread
                    .advance(code, &event, &mut self.vars, &FIXED, &mut self.fuel);
                let left = self.fuel.left();
                let _ = write!(text, "{step:?} {left}|");
            }
            Act::Answer(answer) => self.thread.answer(&mut self.vars, answer),
            Act::Begin(part) => self.thread = Thread::fresh(part),
            Act::Units(units) => self.fuel = Fuel::new(units),
        }
    }
}

/// Makes all these calls with a thread of the body, and writes down its steps.
fn write_acts(text: &mut String, code: &ProcessText, units: u32, acts: &[Act]) {
    let mut bench = Bench {
        thread: Thread::fresh(Part::Body),
        vars: Vars::new(code),
        fuel: Fuel::new(units),
    };
    for act in acts {
        bench.write_act(text, code, *act);
    }
}

/// Fails unless `want` is the text that is written about these calls of a thread of the program's first process.
fn tells(alloc: Global, program: &str, units: u32, acts: &[Act], want: &str) -> Result<(), Fail> {
    let program = read(alloc, program)?;
    let mut text = String::new(alloc);
    if program.processes() > 0 {
        write_acts(&mut text, program.process(0), units, acts);
    }
    same_text(text.as_str(), want)
}

/// CONTINUE of `process.h`, with a word.
const GO_ON: Act = Act::Event(0x85, 3);

/// Programs with their units, the calls of their threads, and the text that is written about these calls.
static CASES: [(&str, u32, &[Act], &str); 14] = [
    // The thread continues from one wait to the next.
    (
        "process a; code a { body { print 1; yield; print 2; } }",
        100,
        &[INIT; 5],
        "Op(Print(1)) 99|Done(Yielded) 98|Op(Print(2)) 96|Done(Ended) 96|Op(Print(1)) 95|",
    ),
    // The first event already has the word 0, but the thread yields all the same.
    (
        "process a; code a { body { yield_until (data == 0); print 1; } }",
        100,
        &[MSG_0, MSG_1, MSG_0, MSG_0],
        "Done(Yielded) 99|Done(Yielded) 98|Op(Print(1)) 96|Done(Ended) 96|",
    ),
    // An endless loop runs away, and is still a runaway with more units. `onexit` prints the value of the variable
    // `x`.
    (
        "process a; code a { var x = 0; onexit { print x; } body { while 1 { x = (x + 1); } } }",
        9_996,
        &[INIT, Act::Units(100), INIT, Act::Begin(Part::OnExit), INIT],
        "Runaway 0|Runaway 100|Op(Print(4998)) 99|",
    ),
    // A loop ends within its units. Of 10,000 units, 9,996 are left for the first call at boot, because the three
    // system processes and the process itself were called before.
    (
        "process a; code a { var i = 0; body { while (i < 4996) { i = (i + 1); } print i; yield; } }",
        9_996,
        &[INIT; 2],
        "Op(Print(4996)) 2|Done(Yielded) 1|",
    ),
    // With one more iteration of the loop, no unit is left for the `yield`.
    (
        "process a; code a { var i = 0; body { while (i < 4997) { i = (i + 1); } print i; yield; } }",
        9_996,
        &[INIT; 2],
        "Op(Print(4997)) 0|Runaway 0|",
    ),
    // An `if` runs one branch or the other.
    (
        "process a; code a { body { if 0 { print 1; } else { print 2; } if 7 { print 3; } else { \
         print 4; } if 0 { print 5; } print 6; } }",
        10,
        &[INIT; 4],
        "Op(Print(2)) 8|Op(Print(3)) 6|Op(Print(6)) 4|Done(Ended) 4|",
    ),
    // A variable begins with its first value, and keeps its value when the body ends.
    (
        "process a; code a { var n = 5; body { n = (n + 1); yield; print n; } }",
        10,
        &[INIT; 5],
        "Done(Yielded) 8|Op(Print(6)) 6|Done(Ended) 6|Done(Yielded) 4|Op(Print(7)) 2|",
    ),
    // The thread continues at its wait, which is three levels deep: in a loop, in an `if` of another loop.
    (
        "process a; code a { var i = 0; body { while (i < 2) { i = (i + 1); if (i == 2) { print 8; } else { while \
         data { yield; print i; } } print 9; } } }",
        100,
        &[MSG_1, MSG_1, MSG_1, MSG_0, MSG_0, MSG_0, MSG_0, MSG_0],
        "Done(Yielded) 95|Op(Print(1)) 93|Done(Yielded) 91|Op(Print(1)) 89|Op(Print(9)) 87|\
         Op(Print(8)) 83|Op(Print(9)) 82|Done(Ended) 81|",
    ),
    // The three calls of the body return 0, 0 and 3. Each later call also pays for the two `spawn`s that it passes.
    (
        "process a; autostart a; code a { var n = 0; thread c { n = (n + 1); if (n == 1) { poll a; yield; poll a; \
         restart; } print n; exit; print 8; } thread d { spawn c; print 7; } body { spawn d; print 6; } }",
        100,
        &[INIT; 8],
        "Op(Poll(Own(0))) 95|Done(Waiting) 94|Op(Poll(Own(0))) 90|Done(Waiting) 89|Op(Print(2)) 84|\
         Op(Print(7)) 82|Op(Print(6)) 81|Done(Ended) 81|",
    ),
    // The thread doesn't use the result of the post that a pause makes. Any CONTINUE ends the wait.
    (
        "process a; code a { var v = 7; body { pause; print v; exit; print 9; } }",
        10,
        &[INIT, Act::Answer(1), INIT, INIT, GO_ON, GO_ON],
        "Op(Post(One(Own(0)), 133, 0)) 9|Done(Yielded) 9|Done(Yielded) 8|Op(Print(7)) 6|Done(Exited) 5|",
    ),
    // A result is stored only in the variable after `into`.
    (
        "event e; process a, b; code a { var v = 7; body { post b e 5 into v; print v; broadcast msg 6; \
         print v; synch b exit 2; } } code b { body { } }",
        10,
        &[INIT, Act::Answer(1), INIT, INIT, Act::Answer(0), INIT, INIT],
        "Op(Post(One(Own(1)), 139, 5)) 9|Op(Print(1)) 8|Op(Post(All, 134, 6)) 7|\
         Op(Print(1)) 6|Op(Synch(Own(1), 131, 2)) 5|",
    ),
    // In the mote's fixed state, semaphore 0 has a count of 4, and any other semaphore a count of 0.
    (
        "semaphore s = 4; semaphore t = 0; process a; code a { body { acquire s; signal t; acquire t; } }",
        10,
        &[INIT; 4],
        "Op(Take(0)) 9|Op(Signal(1)) 8|Done(Waiting) 7|Done(Waiting) 6|",
    ),
    // A part that the text of the program lacks is an empty block.
    (
        "process a; code a { ctimer c { print 5; } onexit { print 6; } body { print 7; } }",
        10,
        &[
            Act::Begin(Part::OnPoll),
            INIT,
            Act::Begin(Part::Callback(1)),
            INIT,
            Act::Begin(Part::Callback(0)),
            INIT,
            Act::Begin(Part::OnExit),
            INIT,
            Act::Begin(Part::Body),
            INIT,
        ],
        "Done(Ended) 10|Done(Ended) 10|Op(Print(5)) 9|Op(Print(6)) 8|Op(Print(7)) 7|",
    ),
    // Values have 16 bits, and each expression costs one unit.
    (
        "process a; code a { body { print (65535 + 2); print (1 - 2); print (257 * 256); print (7 / 2); print (7 / \
         0); print (7 % 4); print (7 % 0); print (2 == 2); print (2 != 2); print (2 < 3); print (3 <= 2); print (3 \
         > 3); print (3 >= 3); print (2 && 4); print (2 && 0); print (0 || 4); print (0 || 0); print !0; print !5; \
         print data; print from; print now; print self; } }",
        23,
        &[Act::Event(0x86, 258); 23],
        "Op(Print(1)) 22|Op(Print(65535)) 21|Op(Print(256)) 20|Op(Print(3)) 19|Op(Print(0)) 18|Op(Print(3)) 17|\
         Op(Print(0)) 16|Op(Print(1)) 15|Op(Print(0)) 14|Op(Print(1)) 13|Op(Print(0)) 12|Op(Print(0)) 11|\
         Op(Print(1)) 10|Op(Print(1)) 9|Op(Print(0)) 8|Op(Print(1)) 7|Op(Print(0)) 6|Op(Print(1)) 5|Op(Print(0)) 4|\
         Op(Print(258)) 3|Op(Print(3)) 2|Op(Print(5)) 1|Op(Print(9)) 0|",
    ),
];

/// The steps of threads, call by call.
#[test]
fn steps_of_threads(rt: HostRuntime) -> Result<(), Fail> {
    for (program, units, acts, want) in CASES.as_slice() {
        tells(rt.alloc(), program, *units, acts, want)?;
    }
    Ok(())
}

#[test]
fn states_have_their_numbers(rt: HostRuntime) {
    for (state, number, scheduled) in [
        (PtState::Waiting, 0, true),
        (PtState::Yielded, 1, true),
        (PtState::Exited, 2, false),
        (PtState::Ended, 3, false),
    ] {
        assert!(rt; state.number() == number && state.scheduled() == scheduled);
    }
}

#[test]
fn a_semaphore_wraps(rt: HostRuntime) {
    let mut semaphore = Semaphore::new(0);
    let refused = !semaphore.take() && semaphore.count() == 0;
    for _ in 0..65_536u32 {
        semaphore.signal();
    }
    let wrapped = semaphore.count() == 0;
    semaphore.signal();
    assert!(rt; refused && wrapped && semaphore.take() && !semaphore.take());
}
