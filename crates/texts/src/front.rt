//! Values that are written behind a fixed text.
ghost use Rattle.std.specs.Prelude.{◌≡◌, ℕ, List};
ghost use Rattle.texts.specs.rule.Reads.{after_text};

use crate::text::{Text, after};
use std::alloc::AllocError;
use std::marker::PhantomData;

/// A fixed text that stands in front of values, by a type.
pub trait Front {
    ghost front: { List ℕ };

    fn front_text() -> &'static str
        ensures { result.now ≡ front };
}

/// The values of `B`, written behind the fixed text of `F`.
pub struct After<F, B> {
    of: PhantomData<(F, B)>,
}

impl<F: Front, B: Text> Text for After<F, B> {
    type Value = B::Value;

    ghost text_of = { after_text F.front B.text_of };

    ghost is_served = { B.is_served };

    fn read(text: &str) -> Option<B::Value> {
        match after(text, F::front_text()) {
            Some(rest) => B::read(rest),
            None => None,
        }
    }

    fn write(value: &B::Value, out: &mut String) -> Result<(), AllocError> {
        out.push_str(F::front_text())?;
        B::write(value, out)
    }
}
