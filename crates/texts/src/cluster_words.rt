//! The words for policies and for levels of tokens.
ghost use Rattle.std.specs.Prelude.{true};
ghost use Rattle.texts.specs.rule.Words.{level_text, policy_text};

use crate::words::{Named, value_of, word_of};
use model::{Level, Policy};

/// A policy is written as `wide` or `exact`.
impl Named for Policy {
    ghost word_of = { policy_text };

    fn of_word(word: &str) -> Option<Policy> {
        value_of!(word, Policy::Wide, Policy::Exact)
    }

    fn word(self) -> &'static str {
        word_of!(self, Policy::Wide => "wide", Policy::Exact => "exact")
    }

    fn are_words() {}
}

/// A level is written as `shared` or `exclusive`.
impl Named for Level {
    ghost word_of = { level_text };

    fn of_word(word: &str) -> Option<Level> {
        value_of!(word, Level::Shared, Level::Exclusive)
    }

    fn word(self) -> &'static str {
        word_of!(self, Level::Shared => "shared", Level::Exclusive => "exclusive")
    }

    fn are_words() {}
}
