//! The two versions of texts, as types.
ghost use Rattle.std.specs.Prelude.{◌≡◌};
ghost use Rattle.messages.specs.declared.version.Version.{Version};
ghost use Rattle.messages.specs.declared.version.Version.TheVariants.{First, Second};

use messages::Version;

/// A version of texts, by a type.
pub trait Edition {
    ghost version: { Version };

    /// The version that the type stands for.
    fn version() -> Version
        ensures { result ≡ version };
}

/// Version 1: no epoch is written, and no server is rebuilt.
pub struct FirstEdition;

impl Edition for FirstEdition {
    ghost version = { First };

    fn version() -> Version {
        Version::First
    }
}

/// Version 2: the epochs of servers are written.
pub struct SecondEdition;

impl Edition for SecondEdition {
    ghost version = { Second };

    fn version() -> Version {
        Version::Second
    }
}
