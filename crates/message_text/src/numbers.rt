//! The numbers in the texts of messages, scripts and journals, with their limits.
use intervals::span::GREATEST;
use messages::{MOST_EPOCHS, MOST_FILES};
use model::{MOST_DESCRIPTIONS, MOST_NODES, MOST_PROCESSES};
use texts::number::Within;

/// The greatest number of a node.
const GREATEST_NODE: u64 = MOST_NODES as u64;

/// The greatest number of a file.
const GREATEST_FILE: u64 = MOST_FILES as u64;

/// The greatest number of a process.
const GREATEST_PID: u64 = MOST_PROCESSES as u64;

/// The greatest number of an open file description.
const GREATEST_DESCRIPTION: u64 = MOST_DESCRIPTIONS as u64;

/// The greatest incarnation of a node.
const GREATEST_INCARNATION: u64 = 65_535;

/// The greatest epoch of a server.
const GREATEST_EPOCH: u64 = MOST_EPOCHS as u64;

/// The greatest number of a call, a command, a message or an entry.
const GREATEST_NUMBER: u64 = 4_294_967_295;

/// The number of a node, from 1.
pub type NodeField = Within<u8, 1, GREATEST_NODE>;

/// The number of a file, from 1.
pub type FileField = Within<u16, 1, GREATEST_FILE>;

/// The number of a process on its node, from 1.
pub type PidField = Within<u16, 1, GREATEST_PID>;

/// The number of a descriptor, open or not: 0 to 255.
pub type DescriptorField = Within<u8, 0, 255>;

/// The number of an open file description on its node, from 1.
pub(crate) type DescriptionField = Within<u16, 1, GREATEST_DESCRIPTION>;

/// The number of an incarnation, from 1.
pub type IncarnationField = Within<u16, 1, GREATEST_INCARNATION>;

/// The epoch of a server, from 1.
pub type EpochField = Within<u16, 1, GREATEST_EPOCH>;

/// The epoch of a rebuilt server, from 2.
pub(crate) type RebuiltField = Within<u16, 2, GREATEST_EPOCH>;

/// The number of a call, a command, a message or an entry, from 1.
pub type Counted = Within<u32, 1, GREATEST_NUMBER>;

/// The number of entries, from 0.
pub type CountField = Within<u32, 0, GREATEST_NUMBER>;

/// The offset of a byte.
pub(crate) type Offset = Within<u64, 0, GREATEST>;
