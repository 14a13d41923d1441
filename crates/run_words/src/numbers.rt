//! Numbers in words.

ghost use Rattle.std.specs.Prelude.{ℕ, MatchOption};
ghost use Rattle.run_words.specs.Jobs.{IsNumberText};

use itoa::Buffer;

// The number from the least to the most that a word is: decimal digits without a sign and without leading zeros.
pub(crate) fn number(word: &str, least: u32, most: u32) -> Option<u32>
    ensures { MatchOption result ((n : ℕ) → IsNumberText least most word.now n → ⊥)
        (λ n. IsNumberText least most word.now n) }
{
    let Ok(n) = word.parse::<u32>() else {
        return None;
    };
    if n < least || n > most {
        return None;
    }
    let mut buffer = Buffer::new();
    if buffer.format(n) == word {
        Some(n)
    } else {
        None
    }
}
