//! Two workers in threads of their own: worker 2, which receives windows, and worker 1, which fails.

ghost use Rattle.std.specs.Prelude.{◌≡◌, true, IfSome, IsTrue};
ghost use Rattle.copy_exchange.specs.Marks.{AreTakersCounts};

use super::windows::{Receiver, Scene};
use copy_exchange::WindowPosition;
use copy_inbox::{Inbox, Sender};
use fork_join::{Watch, Work, WorkerError, fork_join};
use std::alloc::Global;
use std::sync::atomic::AtomicU64;
use std::sync::atomic::Ordering::SeqCst;
use std::sync::ledger::Ledger;
use std::sync::{Mutex, Wait};
use std::thread;
use std::thread::Threads;
use std::time::{Clock, Duration};
use test_helpers::write_copies;

/// The worker of each mote.
const OF: [u16; 3] = [0, 1, 2];

/// Writes down the copies of a window, or the error if there are none. Returns `true` if the marks of the window
/// arrived.
fn write_window<R: Wait, L: Ledger>(
    rt: &R,
    alloc: Global,
    text: &mut String,
    inbox: &Inbox,
    worker_2: &mut Receiver,
    watch: &mut Watch<'_, L>,
    from: u64,
    window: u64,
) -> bool
    requires of_inbox { worker_2.old.taker.inbox ≡ inbox.now }
    requires counts { AreTakersCounts worker_2.old.marks.counts.items worker_2.old.taker.state }
    ensures of_inbox { IsTrue result → worker_2.new.taker.inbox ≡ inbox.now }
    ensures counts { IsTrue result → AreTakersCounts worker_2.new.marks.counts.items worker_2.new.taker.state }
{
    let window_position = WindowPosition {
        worker: 2,
        owners: &OF,
        from,
    };
    let Receiver { taker, marks } = worker_2;
    match marks.take_window(rt, alloc, inbox, taker, watch, &window_position, window) {
        Ok(copies) => {
            let _ = write_copies(text, copies.as_slice());
            let _ = text.push_str("marks|");
            true
        }
        Err(error) => {
            let _ = write!(text, "{error:?}|");
            false
        }
    }
}

/// The data of a worker: what worker 2 receives with, or the sender of worker 1.
#[derive(Drop)]
struct Member {
    worker_2: Option<Receiver>,
    second: Option<Sender>,
}

/// The team of workers 1 and 2.
struct Team<'a, R> {
    rt: &'a R,
    alloc: Global,
    inbox: &'a Inbox,
    scene: Scene,
    /// The number of windows for which worker 2 has begun to wait; `u64::MAX` once worker 2 doesn't wait any more.
    begun: AtomicU64,
    /// The text that worker 2 writes.
    text: &'a Mutex<String>,
}

impl<R> Drop for Team<'_, R> {
    fn drop(self) {
        let Team {
            rt: _,
            alloc: _,
            inbox: _,
            scene: _,
            begun: _,
            text: _,
        } = self;
    }
}

impl<R: Wait + Clock> Team<'_, R> {
    /// Receives the windows of the scene as worker 2, until a window doesn't arrive. If worker 1 fails at once, worker
    /// 2 begins only after the flag is set.
    fn take<L: Ledger>(&self, mut worker_2: Receiver, watch: &mut Watch<'_, L>)
        requires of_inbox { worker_2.taker.inbox ≡ self.now.inbox.now }
        requires counts { AreTakersCounts worker_2.marks.counts.items worker_2.taker.state }
    {
        let mut text = String::new(self.alloc);
        if matches!(self.scene, Scene::Windows | Scene::Stopped) {
            wait_for_flag(self.rt, watch);
        }
        for (from, window) in self.scene.windows() {
            self.begun.fetch_add(1, SeqCst);
            if !write_window(
                self.rt,
                self.alloc,
                &mut text,
                self.inbox,
                &mut worker_2,
                watch,
                *from,
                *window,
            ) {
                break;
            }
        }
        // From now on worker 1 doesn't wait for worker 2.
        self.begun.store(u64::MAX, SeqCst);
        let _ = self.text.lock(self.rt).push_str(text.as_str());
    }

    /// Waits until worker 2 has begun to wait for this many windows, and then 30 ms longer, so that worker 2 is
    /// asleep.
    fn wait_until_begun<L: Ledger>(&self, watch: &mut Watch<'_, L>, begun: u64) {
        for _ in self.rt.forever() {
            if self.begun.load(SeqCst) >= begun || watch.is_set(self.rt) {
                break;
            }
            thread::yield_now();
        }
        thread::sleep(self.rt, Duration::from_millis(30));
    }

    /// Waits for worker 2 as worker 1, unless worker 1 fails at once, and pushes the late mark if the scene has one.
    fn push_late<L: Ledger>(&self, mut second: Sender, watch: &mut Watch<'_, L>)
        requires of_inbox { second.inbox ≡ self.now.inbox.now }
        requires marked { second.state.marked ≡ true }
    {
        match self.scene {
            Scene::Windows | Scene::Stopped => {}
            Scene::Woken => self.wait_until_begun(watch, 1),
            Scene::Late => {
                self.wait_until_begun(watch, 2);
                if self.inbox.push_mark(self.rt, &mut second, 1002).is_ok() {
                    self.wait_until_begun(watch, 3);
                }
            }
        }
    }
}

impl<R: Wait + Clock> Work<Member> for Team<'_, R> {
    ghost ready = { λ team member. IfSome member.worker_2 (λ worker_2. (worker_2.taker.inbox ≡ team.inbox.now)
        × AreTakersCounts worker_2.marks.counts.items worker_2.taker.state)
        × IfSome member.second (λ second. (second.inbox ≡ team.inbox.now) × (second.state.marked ≡ true)) };

    ghost makes = { λ _ _ _. Unit {0} };

    fn work<L: Ledger>(
        &self,
        member: Member,
        watch: &mut Watch<'_, L>,
    ) -> Result<Member, WorkerError> {
        let Member { worker_2, second } = member;
        if let Some(worker_2) = worker_2 {
            self.take(worker_2, watch);
        }
        if let Some(second) = second {
            self.push_late(second, watch);
            return Err(WorkerError::Thread);
        }
        Ok(Member {
            worker_2: None,
            second: None,
        })
    }

    fn may_start(&self, _member: &Member) -> bool {
        true
    }
}

/// Waits until the flag is set.
fn wait_for_flag<R: Wait, L: Ledger>(rt: &R, watch: &mut Watch<'_, L>) {
    for _ in rt.forever() {
        if watch.is_set(rt) {
            return;
        }
        thread::yield_now();
    }
}

/// Runs both workers, and writes down the result of the team and the text of worker 2.
pub(crate) fn write_team<R: Threads + Wait + Clock + Sync>(
    rt: &R,
    alloc: Global,
    text: &mut String,
    scene: Scene,
    inbox: &Inbox,
    worker_2: Receiver,
    second: Sender,
)
    requires taker { worker_2.taker.inbox ≡ inbox.now }
    requires counts { AreTakersCounts worker_2.marks.counts.items worker_2.taker.state }
    requires sender { (second.inbox ≡ inbox.now) × (second.state.marked ≡ true) }
{
    let taken = Mutex::new(String::new(alloc));
    let team = Team {
        rt,
        alloc,
        inbox,
        scene,
        begun: AtomicU64::new(0),
        text: &taken,
    };
    let members = Vec::from_array(
        alloc,
        [
            Member {
                worker_2: Some(worker_2),
                second: None,
            },
            Member {
                worker_2: None,
                second: Some(second),
            },
        ],
    );
    if let Ok(members) = members {
        let done = fork_join(rt, alloc, members, &team).map(|_members| ());
        let _ = write!(text, "{done:?} {}", taken.lock(rt).as_str());
    }
}
