//! The ways in which a script is run on threads.

/// The way in which a script is run on threads. `no_join`: lines of failures and starts are made while calls are
/// open; `may_stop`: the run is ended where it is stuck.
#[derive(Clone, Copy, Debug, PartialEq, Eq)]
pub struct Manner {
    pub no_join: bool,
    pub may_stop: bool,
}
