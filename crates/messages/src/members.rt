//! The members of a cluster: its nodes and its token servers.
ghost use Rattle.std.specs.Prelude.{◌≡◌, ◌-◌, ◌≤◌, IfSome, IfOk, IfErr, OnErr, Ok, Err};
ghost use Rattle.model.specs.rule.Limits.{IsNumber};
ghost use Rattle.messages.specs.rule.Members.{most_incarnations, first_members, live_incarnation, was_declared, with_restarted, declared_failed, restarted, members_state};

use crate::crowd::Crowd;
use crate::refusal::Refused;
use crate::shape::Shape;
use std::alloc::{AllocError, Global};
use std::marker::Model;

/// The nodes and token servers of a cluster: which of them are alive, and in which incarnation, or
/// epoch. A member that is declared failed is in its next incarnation or epoch at once, and isn't
/// alive until it begins again.
#[derive(Drop)]
pub struct Members {
    nodes: Crowd,
    servers: Crowd,
}

impl Model for Members {
    ghost use Rattle.messages.specs.rule.Members.{MembersParts};

    ghost Value = { MembersParts };

    ghost view = { λ m. record { nodes = m.nodes; servers = m.servers } };
}

impl Members {
    /// The members of a cluster that begins: all are alive, in their first incarnation or epoch.
    ///
    /// # Errors
    /// `AllocError` where a request for memory was refused.
    pub fn new(alloc: Global, shape: Shape) -> Result<Members, AllocError>
        ensures nodes { IfOk result (λ members. members_state members.nodes ≡ first_members shape.nodes) }
        ensures servers { IfOk result (λ members. members_state members.servers ≡ first_members shape.files) }
    {
        Ok(Members {
            nodes: Crowd::new(alloc, shape.nodes() as u16)?,
            servers: Crowd::new(alloc, shape.files())?,
        })
    }

    /// The incarnation of the node, if it is alive.
    pub fn alive(&self, node: u8) -> Option<u16>
        ensures value { result ≡ live_incarnation (members_state self.now.nodes) node }
        ensures within { IfSome result (λ incarnation. IsNumber most_incarnations incarnation) }
    {
        self.nodes.alive(node as u16)
    }

    /// Whether this incarnation of the node was declared failed.
    pub fn declared(&self, node: u8, incarnation: u16) -> bool
        ensures { result ≡ was_declared (members_state self.now.nodes) node incarnation }
    {
        self.nodes.declared(node as u16, incarnation)
    }

    /// The greatest incarnation of the node that was declared failed; 0 where none was.
    pub fn dead(&self, node: u8) -> u16
        ensures { result ≡ (members_state self.now.nodes).incarnation node - 1 }
    {
        self.nodes.dead(node as u16)
    }

    /// Declares the node failed, and gives the incarnation that was alive.
    ///
    /// # Errors
    /// `Stranger` where the cluster has no such node, `NotAlive` where it isn't alive. Nothing
    /// changes then.
    pub fn declare(&mut self, node: u8) -> Result<u16, Refused>
        ensures ok { IfOk result (λ incarnation. declared_failed (members_state self.old.nodes) node ≡ Ok (members_state self.new.nodes, incarnation)) }
        ensures within { IfOk result (λ incarnation. IsNumber most_incarnations incarnation) }
        ensures err { IfErr result (λ e. declared_failed (members_state self.old.nodes) node ≡ Err e) }
        ensures others { self.new.servers ≡ self.old.servers }
        ensures unchanged { OnErr result (self.new ≡ self.old) }
    {
        self.nodes.declare(node as u16)
    }

    /// The incarnation in which the node would restart now.
    ///
    /// # Errors
    /// Where `restart` errs, the same error.
    pub fn next(&self, node: u8) -> Result<u16, Refused>
        ensures ok { IfOk result (λ incarnation. restarted (members_state self.now.nodes) node ≡ Ok (with_restarted (members_state self.now.nodes) node, incarnation)) }
        ensures within { IfOk result (λ incarnation. IsNumber most_incarnations incarnation) }
        ensures err { IfErr result (λ e. restarted (members_state self.now.nodes) node ≡ Err e) }
    {
        self.nodes.next(node as u16)
    }

    /// Restarts the node, and gives the incarnation in which it begins.
    ///
    /// # Errors
    /// `Stranger` where the cluster has no such node, `NotDead` where it is alive,
    /// `TooManyRestarts` where it had 65,535 incarnations. Nothing changes then.
    pub fn restart(&mut self, node: u8) -> Result<u16, Refused>
        ensures ok { IfOk result (λ incarnation. restarted (members_state self.old.nodes) node ≡ Ok (members_state self.new.nodes, incarnation)) }
        ensures within { IfOk result (λ incarnation. IsNumber most_incarnations incarnation) }
        ensures err { IfErr result (λ e. restarted (members_state self.old.nodes) node ≡ Err e) }
        ensures others { self.new.servers ≡ self.old.servers }
        ensures unchanged { OnErr result (self.new ≡ self.old) }
    {
        self.nodes.restart(node as u16)
    }

    /// The epoch of the file's token server; `None` where the server was declared failed, or where
    /// the cluster has no such file.
    pub fn epoch(&self, file: u16) -> Option<u16>
        ensures value { result ≡ live_incarnation (members_state self.now.servers) file }
        ensures within { IfSome result (λ epoch. IsNumber most_incarnations epoch) }
    {
        self.servers.alive(file)
    }

    /// Whether this epoch of the file's token server was declared failed.
    pub fn failed(&self, file: u16, epoch: u16) -> bool
        ensures { result ≡ was_declared (members_state self.now.servers) file epoch }
    {
        self.servers.declared(file, epoch)
    }

    /// Declares the file's token server failed, and gives the epoch that was alive.
    ///
    /// # Errors
    /// `Stranger` where the cluster has no such file, `NotAlive` where its server isn't alive.
    /// Nothing changes then.
    pub fn fail_server(&mut self, file: u16) -> Result<u16, Refused>
        ensures ok { IfOk result (λ epoch. declared_failed (members_state self.old.servers) file ≡ Ok (members_state self.new.servers, epoch)) }
        ensures within { IfOk result (λ epoch. IsNumber most_incarnations epoch) }
        ensures err { IfErr result (λ e. declared_failed (members_state self.old.servers) file ≡ Err e) }
        ensures others { self.new.nodes ≡ self.old.nodes }
        ensures unchanged { OnErr result (self.new ≡ self.old) }
    {
        self.servers.declare(file)
    }

    /// The epoch in which the file's token server would be rebuilt now, from 2.
    ///
    /// # Errors
    /// Where `start_server` errs, the same error.
    pub fn next_epoch(&self, file: u16) -> Result<u16, Refused>
        ensures ok { IfOk result (λ epoch. restarted (members_state self.now.servers) file ≡ Ok (with_restarted (members_state self.now.servers) file, epoch)) }
        ensures later { IfOk result (λ epoch. 2 ≤ epoch) }
        ensures within { IfOk result (λ epoch. IsNumber most_incarnations epoch) }
        ensures err { IfErr result (λ e. restarted (members_state self.now.servers) file ≡ Err e) }
    {
        self.servers.next(file)
    }

    /// Rebuilds the file's token server in its next epoch, and gives that epoch.
    ///
    /// # Errors
    /// `Stranger` where the cluster has no such file, `NotDead` where its server is alive,
    /// `TooManyRestarts` where it had 65,535 epochs. Nothing changes then.
    pub fn start_server(&mut self, file: u16) -> Result<u16, Refused>
        ensures ok { IfOk result (λ epoch. restarted (members_state self.old.servers) file ≡ Ok (members_state self.new.servers, epoch)) }
        ensures within { IfOk result (λ epoch. IsNumber most_incarnations epoch) }
        ensures err { IfErr result (λ e. restarted (members_state self.old.servers) file ≡ Err e) }
        ensures others { self.new.nodes ≡ self.old.nodes }
        ensures unchanged { OnErr result (self.new ≡ self.old) }
    {
        self.servers.restart(file)
    }
}
