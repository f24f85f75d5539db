//! Sets of 256 flags, as bits of four words.
ghost use Rattle.std.specs.Prelude.{◌≡◌, ℕ, ◌<◌, ◌≤◌, ◌/◌, IsTrue, ◌↔◌};
ghost use Rattle.std.specs.Int.{bit_at};
ghost use Rattle.lock_table.specs.code.Rows.{HasFlag};

// The number of flags in a word.
const WORD: usize = 64;

// The place of the lowest set bit of the word, from the given place on; 64 if there is none.
#[inline]
fn lowest_bit(word: u64, from: usize) -> usize
    requires { from < 64 }
    ensures none_below { (i : ℕ) → from ≤ i → i < result → bit_at word i ≡ 0 }
    ensures within { result ≤ 64 }
{
    let left = word >> from;
    if left == 0 {
        return WORD;
    }
    (from + left.trailing_zeros() as usize).min(WORD)
}

/// A set of flags, which are numbered from 0 to 255.
#[derive(Clone, Copy)]
pub struct FlagSet {
    words: [u64; 4],
}

impl FlagSet {
    /// The set without flags.
    pub(crate) fn none() -> Self
        ensures { (k : ℕ) → HasFlag result k → ⊥ }
    {
        FlagSet { words: [0; 4] }
    }

    /// The set of all flags.
    pub(crate) fn all() -> Self
        ensures { (k : ℕ) → k < 256 → HasFlag result k }
    {
        FlagSet {
            words: [u64::MAX; 4],
        }
    }

    /// Whether the set has the flag, 0 to 255.
    pub(crate) fn has(&self, flag: usize) -> bool
        requires { flag < 256 }
        ensures { IsTrue result ↔ HasFlag self.now flag }
    {
        (self.words[flag / WORD] >> (flag % WORD)) & 1 == 1
    }

    /// Whether the set has at least one of the 64 flags of the word, 0 to 3.
    pub(crate) fn has_some(&self, word: usize) -> bool
        requires { word < 4 }
        ensures { (k : ℕ) → k / 64 ≡ word → HasFlag self.now k → IsTrue result }
    {
        self.words[word] != 0
    }

    /// The lowest flag of the set from this one, 0 to 255, on; 256 if there is none.
    pub(crate) fn next(&self, flag: usize) -> usize
        requires { flag < 256 }
        ensures none_below { (k : ℕ) → flag ≤ k → k < result → HasFlag self.now k → ⊥ }
        ensures within { result ≤ 256 }
    {
        let first = flag / WORD;
        let low = lowest_bit(self.words[first], flag % WORD);
        if low < WORD {
            return first * WORD + low;
        }
        for word in first + 1..4 {
            let low = lowest_bit(self.words[word], 0);
            if low < WORD {
                return word * WORD + low;
            }
        }
        4 * WORD
    }

    /// Adds a flag, 0 to 255.
    pub(crate) fn add(&mut self, flag: usize)
        requires { flag < 256 }
        ensures kept { (k : ℕ) → HasFlag self.old k → HasFlag self.new k }
        ensures added { HasFlag self.new flag }
    {
        self.words[flag / WORD] |= 1 << (flag % WORD);
    }

    /// Adds the flags of another set.
    pub(crate) fn join(&mut self, other: &FlagSet)
        ensures kept { (k : ℕ) → HasFlag self.old k → HasFlag self.new k }
        ensures joined { (k : ℕ) → k < 256 → HasFlag other.now k → HasFlag self.new k }
    {
        for i in 0..self.words.len() {
            self.words[i] |= other.words[i];
        }
    }
}
