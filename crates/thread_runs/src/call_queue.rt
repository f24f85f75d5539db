//! The calls that a process makes in a phase, in order.
use crate::line_outcome::LineOutcome;
use actors::{CallError, Client, Gate};
use book::{Name, Receipt};
use lockscript::PlayError;
use model::Op;
use std::alloc::{AllocError, Global};
use std::collections::VecDeque;

/// A call that is to be made: the index of its line in the script, its operation, and the client for this call and
/// later ones, if it is another client than before.
#[derive(Drop)]
pub(crate) struct NextCall<'a, J: Name, G: Gate> {
    pub(crate) index: usize,
    pub(crate) op: Op,
    pub(crate) client: Option<Client<'a, J, G>>,
}

/// The part of a process of the node in a phase: the calls that it has still to make, in order, and its client while
/// no call is open. It also knows whether the next call that is added needs a new client, whether a thread makes the
/// calls, the outcomes so far, and why no more calls are made, if an error ended them.
#[derive(Drop)]
pub(crate) struct CallQueue<'a, J: Name, G: Gate> {
    node: u8,
    calls: VecDeque<NextCall<'a, J, G>>,
    client: Option<Client<'a, J, G>>,
    pub(crate) needs_client: bool,
    has_thread: bool,
    outcomes: Vec<(usize, LineOutcome)>,
    stopped: Option<PlayError>,
}

impl<'a, J: Name, G: Gate> CallQueue<'a, J, G> {
    /// The part of a process of the node, without calls and without a client.
    pub(crate) fn new(alloc: Global, node: u8) -> CallQueue<'a, J, G> {
        CallQueue {
            node,
            calls: VecDeque::new(alloc),
            client: None,
            needs_client: true,
            has_thread: false,
            outcomes: Vec::new(alloc),
            stopped: None,
        }
    }

    /// Notes that the node has begun again. If it is the process's node, the client is dropped for calls that are
    /// added later.
    pub(crate) fn learn_restart(&mut self, node: u8) {
        self.needs_client = self.needs_client || self.node == node;
    }

    /// Adds a call, with a new client if it needs one.
    pub(crate) fn add(&mut self, call: NextCall<'a, J, G>) -> Result<(), AllocError> {
        self.calls.push_back(call)?;
        self.needs_client = false;
        Ok(())
    }

    /// Whether a thread has to be started for the calls. From then on the queue has a thread.
    pub(crate) fn begin(&mut self) -> bool {
        let begins = !self.has_thread && !self.calls.is_empty();
        self.has_thread = self.has_thread || begins;
        begins
    }

    /// The next call for the thread: the index of its line, its operation, and the client that makes it. With `None`
    /// the thread has ended.
    pub(crate) fn next(&mut self) -> Option<(usize, Op, Client<'a, J, G>)> {
        let next = self.take_next();
        self.has_thread = next.is_some();
        next
    }

    // Takes out the next call, and the client that makes it.
    fn take_next(&mut self) -> Option<(usize, Op, Client<'a, J, G>)> {
        let NextCall { index, op, client } = self.calls.pop_front()?;
        let client = match client {
            Some(client) => client,
            None => self.client.take()?,
        };
        Some((index, op, client))
    }

    /// Takes the client back, and notes the outcome of its call. The other calls are dropped where the outcome ends
    /// the run, or the call stays open because the run was ended.
    pub(crate) fn end_call(
        &mut self,
        client: Client<'a, J, G>,
        index: usize,
        made: Result<Receipt, CallError>,
    ) {
        self.client = Some(client);
        match self.keep(index, made) {
            Ok(goes_on) if goes_on => {}
            Ok(_) => self.calls.clear(),
            Err(why) => {
                self.calls.clear();
                self.stopped = Some(why);
            }
        }
    }

    // Notes the outcome of the call of the line at the index, unless it ends the run. Answers whether the next call
    // may be made.
    fn keep(&mut self, index: usize, made: Result<Receipt, CallError>) -> Result<bool, PlayError> {
        let outcome = match made {
            Ok(receipt) => LineOutcome::Answered(receipt),
            Err(CallError::NoMemory) => return Err(PlayError::NoMemory),
            Err(CallError::JournalFull) => return Err(PlayError::JournalFull),
            Err(CallError::Unanswered { call_at }) => LineOutcome::Open(call_at),
            Err(why) => LineOutcome::Denied(why),
        };
        match self.outcomes.push((index, outcome)) {
            Ok(()) => Ok(!outcome.is_open()),
            Err(_) => Err(PlayError::NoMemory),
        }
    }

    /// Whether an error ended the calls.
    pub(crate) fn is_stopped(&self) -> bool {
        self.stopped.is_some()
    }

    /// The outcomes of the calls, each with the index of its line, and the client for later calls, if there is one.
    pub(crate) fn into_outcomes(
        self,
    ) -> Result<(Vec<(usize, LineOutcome)>, Option<Client<'a, J, G>>), PlayError> {
        let CallQueue {
            client,
            needs_client,
            outcomes,
            stopped,
            ..
        } = self;
        match stopped {
            Some(why) => Err(why),
            None if needs_client => Ok((outcomes, None)),
            None => Ok((outcomes, client)),
        }
    }
}
