//! The versions of clusters, and how they differ.
ghost use Rattle.std.specs.Prelude.{◌≡◌};
ghost use Rattle.messages.specs.rule.Shapes.{most_regions, may_rebuild};

/// The version of a cluster: how many regions an owner may have in a file, whether its token servers
/// may fail and be rebuilt, and how its journals are written.
#[derive(Clone, Copy, PartialEq, Eq)]
pub enum Version {
    /// An owner may have 1,024 regions in a file, and a failed token server is never rebuilt.
    First,
    /// An owner may have 16,384 regions in a file, and a failed token server can be rebuilt.
    Second,
}

impl Version {
    /// The greatest number of regions that an owner may have in a file.
    pub fn most_regions(self) -> usize
        ensures { result ≡ most_regions self }
    {
        match self {
            Version::First => 1024,
            Version::Second => 16_384,
        }
    }

    /// Whether token servers may fail and be rebuilt.
    pub fn may_rebuild(self) -> bool
        ensures { result ≡ may_rebuild self }
    {
        match self {
            Version::First => false,
            Version::Second => true,
        }
    }
}
