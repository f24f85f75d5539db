//! Weathers, which decide what becomes of messages on their way.
ghost use Rattle.std.specs.Prelude.{◌≡◌};
ghost use Rattle.actors.specs.declared.weather.Fate.TheVariants.{Pass};

use messages::Message;

/// The fate of a message that an actor sends.
#[derive(Clone, Copy, Debug, PartialEq, Eq)]
pub enum Fate {
    /// The message goes at once.
    Pass,
    /// The message is lost.
    Drop,
    /// The message goes at once, twice.
    Twice,
    /// The message goes after that many ticks of its sender; with 0, at once.
    Hold(u32),
}

/// The trait of a weather: it decides the fate of each message that one actor sends, in the order of sending.
pub trait Weather: Drop {
    fn fate(&mut self, message: &Message) -> Fate;
}

/// The weather in which each message goes at once.
#[derive(Clone, Copy, Debug, Default, PartialEq, Eq)]
pub struct Fair;

impl Weather for Fair {
    fn fate(&mut self, _message: &Message) -> Fate
        ensures { result ≡ Pass }
    {
        Fate::Pass
    }
}
