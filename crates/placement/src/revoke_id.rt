//! The name of a revoke.
use messages::{CommandNumber, FileNumber};
use model::Host;

/// The name of a revoke: its file, its number among the commands of that file's token server to the holder (from 1),
/// and the holder, the node whose token it takes back.
#[derive(Clone, Copy, Debug, PartialEq, Eq, Hash)]
pub(crate) struct RevokeId {
    pub(crate) file: FileNumber,
    pub(crate) holder: Host,
    pub(crate) number: CommandNumber,
}

const _: () = prove!(size_of::<RevokeId>() == 16);
