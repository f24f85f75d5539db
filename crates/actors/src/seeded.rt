//! The weather that a seed gives: messages are lost, doubled and held back by chance.
ghost use Rattle.std.specs.Prelude.{◌≡◌};
ghost use Rattle.rand_pcg.specs.Pcg.{pcg32};
ghost use Rattle.actors.specs.rule.Clients.{fate_of, weather_of};

use crate::weather::{Fate, Weather};
use messages::Message;
use rand_core::SeedableRng;
use rand_core::utils::NextWord;
use rand_pcg::Lcg64Xsh32;
use std::marker::Model;

/// A weather that loses, doubles and holds back messages by chance, always the same ones for the same seed. Of
/// sixteen words of a generator one loses a message, one sends it twice, and two hold it back for four ticks.
#[derive(Drop)]
pub struct Seeded {
    words: Lcg64Xsh32,
}

impl Model for Seeded {
    ghost use Rattle.rand_pcg.specs.Lcg.{Lcg};

    ghost Value = { Lcg };

    ghost view = { λ s. s.words };
}

impl Seeded {
    /// The weather of an actor, by its index from 1, nodes first and then token servers.
    pub fn new(seed: u32, actor: u32) -> Seeded
        ensures { result ≡ weather_of seed actor }
    {
        Seeded {
            words: Lcg64Xsh32::seed_from_u64(u64::from(seed) + u64::from(actor)),
        }
    }
}

impl Weather for Seeded {
    fn fate(&mut self, _message: &Message) -> Fate
        ensures fate { result ≡ fate_of (pcg32 self.old).0 }
        ensures next { self.new ≡ (pcg32 self.old).1 }
    {
        match self.words.next_word() % 16 {
            0 => Fate::Drop,
            1 => Fate::Twice,
            2 | 3 => Fate::Hold(4),
            _ => Fate::Pass,
        }
    }
}
