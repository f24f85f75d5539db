//! The messages of an actor on their way, through its weather.
use crate::{Cluster, Fate, Weather};
use book::{Name, Stamp};
use messages::SharedMessage;
use std::alloc::AllocError;
use std::sync::Wait;

// A message, and the number of ticks after which it goes.
#[derive(Drop)]
struct DelayedMessage {
    ticks: u32,
    message: SharedMessage,
}

/// The messages of an actor on their way: its weather, and the messages that the weather holds back, in the order in
/// which they were sent.
#[derive(Drop)]
pub(crate) struct Outgoing<'s, 'b, J: Name, G, R, W: Weather> {
    rt: &'s R,
    cluster: &'s Cluster<'b, J, G>,
    weather: W,
    held: Vec<DelayedMessage>,
}

impl<'s, 'b, J: Name, G, R: Wait, W: Weather> Outgoing<'s, 'b, J, G, R, W> {
    /// No messages on their way.
    pub(crate) fn new(rt: &'s R, cluster: &'s Cluster<'b, J, G>, weather: W) -> Self {
        Outgoing {
            rt,
            cluster,
            weather,
            held: Vec::new(cluster.begun.alloc),
        }
    }

    /// Whether no message is held back.
    pub(crate) fn is_empty(&self) -> bool {
        self.held.is_empty()
    }

    /// Sends the messages of a step, each as the weather decides.
    pub(crate) fn send_all(&mut self, stamp: &Stamp) {
        for message in stamp.outcome().sends.as_slice() {
            self.send(message);
        }
    }

    // Sends a message as the weather decides. A message for which there is no memory is lost.
    fn send(&mut self, message: &SharedMessage) {
        match self.weather.fate(message.get()) {
            Fate::Pass | Fate::Hold(0) => self.cluster.send(self.rt, message),
            Fate::Drop => {}
            Fate::Twice => {
                self.cluster.send(self.rt, message);
                self.cluster.send(self.rt, message);
            }
            Fate::Hold(ticks) => {
                let _ = self.hold(ticks, message);
            }
        }
    }

    // Holds the message, shared, back for that many ticks.
    fn hold(&mut self, ticks: u32, message: &SharedMessage) -> Result<(), AllocError> {
        let message = message.share()?;
        self.held.push(DelayedMessage { ticks, message })?;
        Ok(())
    }

    /// Counts a tick, and sends the held messages whose ticks have passed.
    pub(crate) fn pass_tick(&mut self) {
        for held in self.held.iter_mut() {
            held.ticks = held.ticks.saturating_sub(1);
        }
        for _ in 0..self.held.len() {
            let Some(index) = self.held.iter().position(|held| held.ticks == 0) else {
                break;
            };
            let DelayedMessage { message, .. } = self.held.remove(index);
            self.cluster.deliver(self.rt, message);
        }
    }
}
