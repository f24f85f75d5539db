//! The stage on which the threads of a phase play.
use crate::{CallQueue, RunWatcher};
use actors::{Cluster, Gate};
use book::Name;
use lockscript::PlayError;
use std::sync::atomic::{AtomicU64, Ordering};
use std::sync::{Mutex, Wait};
use std::thread;
use std::thread::{Scope, Threads};
use std::time::{Clock, Duration};

// The longest pause between two looks, in milliseconds.
const LONGEST_PAUSE: u64 = 64;

/// The parts of a phase, the cluster on which threads play them, and the number of threads that do.
#[derive(Drop)]
pub(crate) struct Stage<'s, 'a, J: Name, G: Gate, R> {
    pub(crate) rt: &'s R,
    pub(crate) cluster: &'s Cluster<'a, J, G>,
    pub(crate) parts: &'s [Mutex<CallQueue<'a, J, G>>],
    pub(crate) playing: &'s AtomicU64,
}

impl<'s, 'a: 's, J: Name + Send + Sync, G: Gate + Sync, R: Threads + Wait + Clock + Sync> Stage<
    's,
    'a,
    J,
    G,
    R,
> {
    /// Starts a thread for each part that has calls to make and has no thread.
    pub(crate) fn start<E>(&self, scope: &Scope<'s, E>) -> Result<(), PlayError> {
        let (rt, cluster, playing) = (self.rt, self.cluster, self.playing);
        for part in self.parts {
            if !part.lock(rt).begin() {
                continue;
            }
            playing.fetch_add(1, Ordering::SeqCst);
            let started = scope.spawn(move || play(rt, cluster, part, playing));
            if started.is_err() {
                return Err(PlayError::NoMemory);
            }
        }
        Ok(())
    }

    /// Waits until each call is answered; or, if it may stop, until the open calls can't be answered any more, where
    /// the token servers of these files are declared failed. It looks again and again, at growing distances, and
    /// tells the watcher. Answers whether calls are still open.
    pub(crate) fn wait<V: RunWatcher>(
        &self,
        may_stop: bool,
        failed: &[u16],
        watcher: &mut V,
    ) -> bool {
        let mut looks: u64 = 0;
        for _ in self.rt.forever() {
            let processes = self.playing.load(Ordering::SeqCst);
            if processes == 0 {
                break;
            }
            if may_stop && self.cluster.is_stuck(self.rt, processes as usize, failed) {
                return true;
            }
            self.tell(processes, watcher);
            let pause = (looks / 16).min(LONGEST_PAUSE);
            thread::sleep(self.rt, Duration::from_millis(pause));
            looks = looks.saturating_add(1);
        }
        false
    }

    // Tells the watcher, if anybody looks, how far the run is. That many processes have an open call.
    fn tell<V: RunWatcher>(&self, processes: u64, watcher: &mut V) {
        if watcher.is_watched() {
            watcher.tell(processes, u64::from(self.cluster.len(self.rt)));
        }
    }
}

// Plays a part: makes its calls in order, each after the reply to the one before, until none is left or one stays open
// because the run was ended. Where an error ended the calls, the cluster ends.
fn play<J: Name, G: Gate, R: Wait>(
    rt: &R,
    cluster: &Cluster<'_, J, G>,
    part: &Mutex<CallQueue<'_, J, G>>,
    playing: &AtomicU64,
) {
    for _ in rt.forever() {
        let next = part.lock(rt).next();
        let Some((index, op, client)) = next else {
            break;
        };
        let mut client = client;
        let made = client.call(rt, op);
        part.lock(rt).end_call(client, index, made);
    }
    if part.lock(rt).is_stopped() {
        cluster.stop();
    }
    playing.fetch_sub(1, Ordering::SeqCst);
}
