//! The greatest numbers of nodes, processes, descriptors and descriptions.

/// The greatest number of nodes in a cluster. Nodes are numbered from 1.
pub const MOST_NODES: u8 = 64;

/// The greatest number of processes on a node. Processes are numbered from 1.
pub const MOST_PROCESSES: u16 = 256;

/// The greatest number of descriptors in a process (POSIX.1-2017 `open()`, OPEN_MAX). Descriptors
/// are numbered from 0.
pub const MOST_DESCRIPTORS: u8 = 64;

/// The greatest number of open file descriptions on a node: all descriptors of all its processes.
/// Descriptions are numbered from 1.
pub const MOST_DESCRIPTIONS: u16 = 16_384;
