//! Histories as values: items whose positions rise.
ghost use Rattle.std.specs.Prelude.{◌≡◌, ◌↔◌, IfOk, IsOk, IsTrue};
ghost use Rattle.cluster_core.specs.rule.Histories.{position_of, Rising};

use cluster_core::Item;
use messages::Version;
use std::marker::Model;
use thiserror::Error;

/// A history: the version of its cluster, and its items in order. The positions rise strictly.
#[derive(Drop)]
pub struct History {
    version: Version,
    items: Vec<Item>,
}

impl Model for History {
    ghost use Rattle.cluster_core.specs.rule.Histories.{Rising};
    ghost use Rattle.placement.specs.rule.Histories.{HistoryParts};

    ghost Value = { HistoryParts };

    ghost view = { λ h. record { version = h.version; items = h.items.items } };

    ghost invariant = { λ h. Rising h.items.items };
}

/// The reason why a list of items is no history.
#[derive(Clone, Copy, Debug, PartialEq, Eq, Error)]
pub enum HistoryError {
    /// An item's position is not greater than that of the item before it.
    #[error("the positions don't rise")]
    NotRising,
}

impl History {
    /// The history of these items, of a cluster of the version.
    ///
    /// # Errors
    /// `NotRising` where an item's position is not greater than that of the item before it. The items are dropped.
    pub fn new(version: Version, items: Vec<Item>) -> Result<History, HistoryError>
        ensures history { IfOk result (λ history. history ≡ record { version = version; items = items.items }) }
        ensures rising { IsOk result ↔ Rising items.items }
    {
        if !is_rising(&items) {
            return Err(HistoryError::NotRising);
        }
        Ok(History { version, items })
    }

    // The history of items whose positions rise.
    pub(crate) fn of_rising(version: Version, items: Vec<Item>) -> History
        requires { Rising items.items }
        ensures { result ≡ record { version = version; items = items.items } }
    {
        History { version, items }
    }

    /// The version of the cluster.
    pub fn version(&self) -> Version
        ensures { result ≡ self.now.version }
    {
        self.version
    }

    /// The items, in order of their positions.
    pub fn items(&self) -> &[Item]
        ensures value { result.now ≡ self.now.items }
        ensures rising { Rising self.now.items }
    {
        self.items.as_slice()
    }
}

// The position of the item.
fn position(item: &Item) -> u32
    ensures { result ≡ position_of item.now }
{
    match item {
        Item::Answered { position, .. } => *position,
        Item::Gone { position, .. } => *position,
    }
}

// Whether each item's position is greater than that of the item before it.
fn is_rising(items: &[Item]) -> bool
    ensures { IsTrue result ↔ Rising items.now }
{
    for index in 1..items.len() {
        if position(&items[index - 1]) >= position(&items[index]) {
            return false;
        }
    }
    true
}
