//! The unsigned number types of each width.
ghost use Rattle.std.specs.Prelude.{◌≡◌, ℕ, ◌<◌, ◌≤◌, MatchOption};

/// A type of unsigned numbers of some width.
pub trait Unsigned: Copy + Drop {
    /// The number that a value is.
    ghost number: { Self → ℕ };

    /// The greatest number of the type.
    ghost greatest: { ℕ };

    /// The value that is this number, if the type has it.
    fn of(natural: u64) -> Option<Self>
        ensures { MatchOption result (greatest < natural) (λ value. (number value ≡ natural) × (natural ≤ greatest)) };

    /// The number that the value is.
    fn number(self) -> u64
        ensures { result ≡ number self };
}

impl Unsigned for u8 {
    ghost number = { λ n. n };

    ghost greatest = { 255 };

    fn of(natural: u64) -> Option<u8> {
        u8::try_from(natural).ok()
    }

    fn number(self) -> u64 {
        u64::from(self)
    }
}

impl Unsigned for u16 {
    ghost number = { λ n. n };

    ghost greatest = { 65535 };

    fn of(natural: u64) -> Option<u16> {
        u16::try_from(natural).ok()
    }

    fn number(self) -> u64 {
        u64::from(self)
    }
}

impl Unsigned for u32 {
    ghost number = { λ n. n };

    ghost greatest = { 4294967295 };

    fn of(natural: u64) -> Option<u32> {
        u32::try_from(natural).ok()
    }

    fn number(self) -> u64 {
        u64::from(self)
    }
}

impl Unsigned for u64 {
    ghost number = { λ n. n };

    ghost greatest = { 18446744073709551615 };

    fn of(natural: u64) -> Option<u64> {
        Some(natural)
    }

    fn number(self) -> u64 {
        self
    }
}
