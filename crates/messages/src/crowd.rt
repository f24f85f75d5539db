//! Actors of one kind, numbered from 1, that fail and begin again.
ghost use Rattle.std.specs.Prelude.{◌≡◌, ◌≤◌, true, Some, None, IfSome, IfOk, IfErr, OnErr, length, ◌-◌, slice_index_or};
ghost use Rattle.messages.specs.rule.Messages.{is_within};
ghost use Rattle.model.specs.rule.Limits.{IsNumber};
ghost use Rattle.messages.specs.rule.Members.{most_incarnations, first_members, live_incarnation, was_declared, with_restarted, declared_failed, restarted, members_state};

use crate::refusal::Refused;
use std::alloc::{AllocError, Global};
use std::marker::Model;

/// The greatest number of incarnations of an actor; they are numbered from 1.
pub const MOST_INCARNATIONS: u16 = 65_535;

// Whether an actor is alive, and the last incarnation that it began.
#[derive(Clone, Copy)]
struct Member {
    alive: bool,
    last: u16,
}

impl Model for Member {
    ghost use Rattle.messages.specs.rule.Members.{MemberParts, IsMember};

    ghost Value = { MemberParts };

    ghost view = { λ m. record { alive = m.alive; last = m.last } };

    ghost invariant = { λ m. IsMember (record { alive = m.alive; last = m.last }) };

    ghost inverse = { λ m. record { alive = m.alive; last = m.last } };
}

/// The actors of one kind (the nodes, or the token servers), numbered from 1: which of them are
/// alive, and in which incarnation. An actor that is declared failed is in its next incarnation at
/// once, and isn't alive until it restarts.
#[derive(Drop)]
pub struct Crowd {
    nodes: Vec<Member>,
}

impl Model for Crowd {
    ghost use Rattle.std.specs.Prelude.{List};
    ghost use Rattle.messages.specs.rule.Members.{MemberParts};

    ghost Value = { List MemberParts };

    ghost view = { λ m. m.nodes.items };
}

impl Crowd {
    /// The actors of a cluster that begins: `count` of them, all alive in their first incarnation.
    ///
    /// # Errors
    /// `AllocError` where a request for memory was refused.
    pub fn new(alloc: Global, count: u16) -> Result<Crowd, AllocError>
        ensures { IfOk result (λ members. members_state members ≡ first_members count) }
    {
        let mut nodes = Vec::new(alloc);
        for index in 0..count {
            nodes.push(Member {
                alive: true,
                last: 1,
            })?;
        }
        Ok(Crowd { nodes })
    }

    // Whether the cluster has an actor with this number.
    fn has(&self, node: u16) -> bool
        ensures { result ≡ is_within (members_state self.now).nodes node }
    {
        1 <= node && node as usize <= self.nodes.len()
    }

    /// The incarnation of the actor, if it is alive.
    pub fn alive(&self, node: u16) -> Option<u16>
        ensures value { result ≡ live_incarnation (members_state self.now) node }
        ensures within { IfSome result (λ incarnation. IsNumber most_incarnations incarnation) }
    {
        if !self.has(node) {
            return None;
        }
        let member = self.nodes[node as usize - 1];
        if member.alive {
            Some(member.last)
        } else {
            None
        }
    }

    /// Whether this incarnation of the actor was declared failed.
    pub fn declared(&self, node: u16, incarnation: u16) -> bool
        ensures { result ≡ was_declared (members_state self.now) node incarnation }
    {
        if !self.has(node) {
            return false;
        }
        let member = self.nodes[node as usize - 1];
        if member.alive {
            1 <= incarnation && incarnation < member.last
        } else {
            1 <= incarnation && incarnation <= member.last
        }
    }

    /// The greatest incarnation of the actor that was declared failed; 0 where none was.
    pub fn dead(&self, node: u16) -> u16
        ensures { result ≡ (members_state self.now).incarnation node - 1 }
    {
        if !self.has(node) {
            return 0;
        }
        let member = self.nodes[node as usize - 1];
        if member.alive {
            member.last - 1
        } else {
            member.last
        }
    }

    /// Declares the actor failed, and gives the incarnation that was alive.
    ///
    /// # Errors
    /// `Stranger` where the cluster has no such actor, `NotAlive` where it isn't alive. Nothing
    /// changes then.
    pub fn declare(&mut self, node: u16) -> Result<u16, Refused>
        ensures ok { IfOk result (λ incarnation. declared_failed (members_state self.old) node ≡ Ok (members_state self.new, incarnation)) }
        ensures within { IfOk result (λ incarnation. IsNumber most_incarnations incarnation) }
        ensures err { IfErr result (λ e. declared_failed (members_state self.old) node ≡ Err e) }
        ensures unchanged { OnErr result (self.new ≡ self.old) }
    {
        if !self.has(node) {
            return Err(Refused::Stranger);
        }
        let member = self.nodes[node as usize - 1];
        if !member.alive {
            return Err(Refused::NotAlive);
        }
        self.nodes[node as usize - 1] = Member {
            alive: false,
            last: member.last,
        };
        Ok(member.last)
    }

    /// The incarnation in which the actor would restart now, from 2.
    ///
    /// # Errors
    /// Where `restart` errs, the same error.
    pub fn next(&self, node: u16) -> Result<u16, Refused>
        ensures ok { IfOk result (λ incarnation. restarted (members_state self.now) node ≡ Ok (with_restarted (members_state self.now) node, incarnation)) }
        ensures later { IfOk result (λ incarnation. 2 ≤ incarnation) }
        ensures within { IfOk result (λ incarnation. IsNumber most_incarnations incarnation) }
        ensures err { IfErr result (λ e. restarted (members_state self.now) node ≡ Err e) }
    {
        if !self.has(node) {
            return Err(Refused::Stranger);
        }
        let member = self.nodes[node as usize - 1];
        if member.alive {
            return Err(Refused::NotDead);
        }
        if member.last == MOST_INCARNATIONS {
            return Err(Refused::TooManyRestarts);
        }
        Ok(member.last + 1)
    }

    /// Restarts the actor, and gives the incarnation in which it begins.
    ///
    /// # Errors
    /// `Stranger` where the cluster has no such actor, `NotDead` where it is alive,
    /// `TooManyRestarts` where it had 65,535 incarnations. Nothing changes then.
    pub fn restart(&mut self, node: u16) -> Result<u16, Refused>
        ensures ok { IfOk result (λ incarnation. restarted (members_state self.old) node ≡ Ok (members_state self.new, incarnation)) }
        ensures within { IfOk result (λ incarnation. IsNumber most_incarnations incarnation) }
        ensures err { IfErr result (λ e. restarted (members_state self.old) node ≡ Err e) }
        ensures unchanged { OnErr result (self.new ≡ self.old) }
    {
        let incarnation = self.next(node)?;
        self.nodes[node as usize - 1] = Member {
            alive: true,
            last: incarnation,
        };
        Ok(incarnation)
    }
}
