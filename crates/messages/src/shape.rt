//! The shape of a cluster: its version, its size and its policy.
ghost use Rattle.std.specs.Prelude.{◌≡◌, ◌↔◌, IfOk, IsOk};
ghost use Rattle.model.specs.rule.Limits.{IsNumber, most_nodes};
ghost use Rattle.messages.specs.rule.Shapes.{most_regions, most_files, IsServed};

use crate::version::Version;
use model::{MOST_NODES, Policy};
use std::marker::Model;
use thiserror::Error;

/// The greatest number of files in a cluster; they are numbered from 1.
pub const MOST_FILES: u16 = 256;

/// The shape of a cluster: the version, the number of nodes (1 to 64), the number of files (1 to
/// 256), and the policy, which says how many bytes nodes request beyond those that a call needs.
#[derive(Clone, Copy, PartialEq, Eq)]
pub struct Shape {
    version: Version,
    nodes: u8,
    files: u16,
    policy: Policy,
}

impl Model for Shape {
    ghost use Rattle.messages.specs.rule.Shapes.{ShapeFields, IsShape};

    ghost Value = { ShapeFields };

    ghost view = { λ s. record { version = s.version; nodes = s.nodes; files = s.files; policy = s.policy } };

    ghost invariant = { λ s. IsShape (record { version = s.version; nodes = s.nodes; files = s.files; policy = s.policy }) };

    ghost inverse = { λ s. record { version = s.version; nodes = s.nodes; files = s.files; policy = s.policy } };
}

/// No cluster can have that many nodes or files.
#[derive(Clone, Copy, Debug, PartialEq, Eq, Error)]
#[error("no cluster has so many nodes or files")]
pub struct BadShape;

impl BadShape {
    /// The number of the refusal in listings, 22.
    pub fn number(self) -> u16
        ensures { result ≡ 22 }
    {
        22
    }
}

impl Shape {
    /// The shape of a cluster of the second version with `nodes` nodes (1 to 64) and `files` files
    /// (1 to 256).
    ///
    /// # Errors
    /// `BadShape` where one of the two numbers is out of range.
    pub fn new(nodes: u8, files: u16, policy: Policy) -> Result<Shape, BadShape>
        ensures ok { IfOk result (λ shape. shape ≡ record { version = Version.Second; nodes = nodes; files = files; policy = policy }) }
        ensures served { IsOk result ↔ IsServed nodes files }
    {
        Shape::of(Version::Second, nodes, files, policy)
    }

    /// The shape of a cluster of the first version with `nodes` nodes (1 to 64) and `files` files
    /// (1 to 256).
    ///
    /// # Errors
    /// `BadShape` where one of the two numbers is out of range.
    pub fn version1(nodes: u8, files: u16, policy: Policy) -> Result<Shape, BadShape>
        ensures ok { IfOk result (λ shape. shape ≡ record { version = Version.First; nodes = nodes; files = files; policy = policy }) }
        ensures served { IsOk result ↔ IsServed nodes files }
    {
        Shape::of(Version::First, nodes, files, policy)
    }

    /// The shape of a cluster of the given version with `nodes` nodes (1 to 64) and `files` files
    /// (1 to 256).
    ///
    /// # Errors
    /// `BadShape` where one of the two numbers is out of range.
    pub fn of(version: Version, nodes: u8, files: u16, policy: Policy) -> Result<Shape, BadShape>
        ensures ok { IfOk result (λ shape. shape ≡ record { version = version; nodes = nodes; files = files; policy = policy }) }
        ensures served { IsOk result ↔ IsServed nodes files }
    {
        if nodes < 1 || nodes > MOST_NODES {
            return Err(BadShape);
        }
        if files < 1 || files > MOST_FILES {
            return Err(BadShape);
        }
        Ok(Shape {
            version,
            nodes,
            files,
            policy,
        })
    }

    /// The version of the cluster.
    pub fn version(&self) -> Version
        ensures { result ≡ self.now.version }
    {
        self.version
    }

    /// The greatest number of regions that an owner may have in a file.
    pub fn most_regions(&self) -> usize
        ensures { result ≡ most_regions self.now.version }
    {
        self.version.most_regions()
    }

    /// The number of nodes in the cluster; they are numbered from 1.
    pub fn nodes(&self) -> u8
        ensures value { result ≡ self.now.nodes }
        ensures within { IsNumber most_nodes result }
    {
        self.nodes
    }

    /// The number of files in the cluster; they are numbered from 1.
    pub fn files(&self) -> u16
        ensures value { result ≡ self.now.files }
        ensures within { IsNumber most_files result }
    {
        self.files
    }

    pub fn policy(&self) -> Policy
        ensures { result ≡ self.now.policy }
    {
        self.policy
    }
}
