//! The office of the token server.
use crate::letter::{Letter, message_in};
use messages::{Event, Pace, Sends, ServerInput, SharedMessage};
use std::alloc::{AllocError, Global};
use std::collections::VecDeque;
use token_server::{Server, ServerEvent};

// The one file of the cluster.
pub const FILE: u16 = 1;

/// The token server with its inbox.
#[derive(Drop)]
pub struct Office {
    server: Box<Server>,
    inbox: VecDeque<Letter<ServerInput>>,
    pace: Pace,
}

impl Office {
    /// The server opens, with nothing to read.
    pub fn of(alloc: Global, server: Box<Server>) -> Office {
        Office {
            server,
            inbox: VecDeque::new(alloc),
            pace: Pace::at_rest(),
        }
    }

    /// The letter comes last in the inbox.
    pub fn put(&mut self, letter: Letter<ServerInput>) -> Result<(), AllocError> {
        self.inbox.push_back(letter)?;
        Ok(())
    }

    /// The server reads its first letter, if it has one. What it sends.
    pub fn read(&mut self, rt: &HostRuntime) -> anyhow::Result<Option<Sends>> {
        match self.inbox.pop_front() {
            Some(letter) => Ok(Some(self.take(rt, letter)?)),
            None => Ok(None),
        }
    }

    // The server takes a letter. What it sends.
    fn take(&mut self, rt: &HostRuntime, letter: Letter<ServerInput>) -> anyhow::Result<Sends> {
        match letter {
            Letter::Input(news) => {
                self.pace = self.pace.noted(&Event::AtServer(FILE, news));
                let change = self.server.plan(rt.alloc(), &ServerEvent::Input(news))?;
                Ok(self.server.apply(change).sends)
            }
            Letter::Line(line) => self.deliver(rt.alloc(), &line),
            Letter::Tick => self.tick(rt),
        }
    }

    // The message of the line comes. What the server sends. A line of no message is lost.
    fn deliver(&mut self, alloc: Global, line: &str) -> anyhow::Result<Sends> {
        let Some(message) = message_in(alloc, line)? else {
            return Ok(Sends::nothing());
        };
        let message = SharedMessage::new(alloc, message)?;
        self.pace = self.pace.noted(&Event::Deliver(message.share()?));
        let change = self.server.plan_delivery(alloc, message.get())?;
        Ok(self.server.apply(change).sends)
    }

    // A tick goes by: when it is time the server sends again what has no answer. If there is nothing, it rests.
    fn tick(&mut self, rt: &HostRuntime) -> anyhow::Result<Sends> {
        let is_due = self.pace.is_due();
        self.pace = self.pace.passed();
        if !is_due {
            return Ok(Sends::nothing());
        }
        let resend = ServerEvent::Input(ServerInput::Resend);
        let change = self.server.plan(rt.alloc(), &resend)?;
        if change.outcome.sends.is_empty() {
            self.pace = Pace::at_rest();
            return Ok(Sends::nothing());
        }
        println!(rt; "the server sends again")?;
        Ok(self.server.apply(change).sends)
    }
}
