//! Clusters on threads under weathers of tests.
use crate::clusters::{Lent, begin, holds_all, in_time, lock, runs_right};
use actors::{Fate, OpenGate, Weather};
use book::{Confirms, Receipt};
use messages::Message;
use model::{Mode, Reply};
use std::mem;
use std::sync::Wait;
use std::sync::atomic::{AtomicU64, Ordering};
use std::test::Fail;
use std::thread::Threads;
use std::time::{Clock, Duration};

// Loses the first eight messages of its actor, and tells where one of them comes too early behind the one before.
#[derive(Drop)]
struct LosesEight<'a, R: Clock> {
    rt: &'a R,
    lost: u8,
    last: Duration,
    early: &'a AtomicU64,
}

impl<'a, R: Clock> LosesEight<'a, R> {
    fn new(rt: &'a R, early: &'a AtomicU64) -> LosesEight<'a, R> {
        LosesEight {
            rt,
            lost: 0,
            last: Duration::ZERO,
            early,
        }
    }
}

impl<R: Clock> Weather for LosesEight<'_, R> {
    fn fate(&mut self, _message: &Message) -> Fate {
        if self.lost >= 8 {
            return Fate::Pass;
        }
        let now = self.rt.monotonic().unwrap_or(Duration::ZERO);
        if now.saturating_sub(self.last) < least_pause(self.lost) {
            self.early.store(1, Ordering::SeqCst);
        }
        self.last = now;
        self.lost += 1;
        Fate::Drop
    }
}

// How much time passes at least before a message is sent again, of which so many were lost: a millisecond for each of 16, 32, 64, 128 and
// 256 ticks but the first, which may come at once.
fn least_pause(lost: u8) -> Duration {
    let millis = match lost {
        0 => 0,
        1 => 15,
        2 => 31,
        3 => 63,
        4 => 127,
        _ => 255,
    };
    Duration::from_millis(millis)
}

// Both nodes read ten bytes, and node 2 asks to write them: the receipts of its two locks.
fn read_and_write<R: Wait>(rt: &R, cluster: &Lent<'_>) -> Option<[Receipt; 2]> {
    let mut one = cluster.client(rt, 1, 1).ok()?;
    let mut two = cluster.client(rt, 2, 1).ok()?;
    let held = begin(rt, &mut one, lock(Mode::Read, 0, 10))?;
    two.told(&held);
    let also = begin(rt, &mut two, lock(Mode::Read, 0, 10))?;
    Some([also, two.call(rt, lock(Mode::Write, 0, 10)).ok()?])
}

// Whether the first is done, and the other denied for a lock of node 1.
fn is_denied(receipts: &[Receipt; 2]) -> bool {
    let [done, denied] = receipts;
    done.reply() == Reply::Done && matches!(denied.reply(), Reply::Again(_))
}

#[test]
fn a_call_is_denied_where_the_first_eight_messages_of_each_are_lost(
    rt: HostRuntime,
) -> Result<(), Fail> {
    let early = AtomicU64::new(0);
    let (one, two) = (LosesEight::new(&rt, &early), LosesEight::new(&rt, &early));
    let weathers = vec![in rt.alloc(); one, two, LosesEight::new(&rt, &early)]?;
    let is_right = runs_right(
        &rt,
        rt.alloc(),
        &OpenGate,
        weathers,
        |cluster| in_time(&rt, cluster, || read_and_write(&rt, cluster)),
        |receipts, journal| is_denied(&receipts) && holds_all(journal, &receipts),
    )?;
    assert!(rt; is_right && early.load(Ordering::SeqCst) == 0);
    Ok(())
}

// Holds the first message of its actor back for four ticks, and loses all others, also where the first is sent again.
#[derive(Drop)]
struct HoldsFirst {
    is_first: bool,
}

impl Weather for HoldsFirst {
    fn fate(&mut self, _message: &Message) -> Fate {
        if mem::replace(&mut self.is_first, false) {
            Fate::Hold(4)
        } else {
            Fate::Drop
        }
    }
}

const HOLDS_FIRST: HoldsFirst = HoldsFirst { is_first: true };

// Node 1 asks for a lock, which takes a request and its grant: the receipt, if both were held back for as long as four ticks last, of which
// the first may come at once.
fn ask_once<R: Wait + Clock>(rt: &R, cluster: &Lent<'_>) -> Option<Receipt> {
    let mut client = cluster.client(rt, 1, 1).ok()?;
    let begun = rt.monotonic().ok()?;
    let receipt = begin(rt, &mut client, lock(Mode::Write, 0, 10))?;
    let passed = rt.monotonic().ok()?.saturating_sub(begun);
    (passed >= Duration::from_millis(6)).then_some(receipt)
}

#[test]
fn messages_that_are_held_back_come_in_time(rt: HostRuntime) -> Result<(), Fail> {
    let weathers = vec![in rt.alloc(); HOLDS_FIRST, HOLDS_FIRST, HOLDS_FIRST]?;
    let is_right = runs_right(
        &rt,
        rt.alloc(),
        &OpenGate,
        weathers,
        |cluster| in_time(&rt, cluster, || ask_once(&rt, cluster)),
        |receipt, journal| receipt.reply() == Reply::Done && journal.holds(&receipt),
    )?;
    assert!(rt; is_right);
    Ok(())
}
