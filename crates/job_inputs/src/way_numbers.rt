//! Labels that end in `#` and the number of a way.

ghost use Rattle.std.specs.Prelude.{◌≡◌, ◌+◌, ◌<◌, ◌^◌, ◌++◌, ◌∷◌, ℕ, false, decimal, length, IfSome, IfNone, MatchOption};
ghost use Rattle.ar_base.specs.Lists.{Stands};
ghost use Rattle.job_inputs.specs.Reads.{has_mark};

use ar_base::WayId;
use itoa::Buffer;
use std::str::from_utf8;

/// What stands before the last `#` of a label, and what stands behind it.
pub(crate) fn marked(label: &[u8]) -> Option<(&[u8], &[u8])>
    ensures found { IfSome result (λ r. label.now ≡ r.0.now ++ (35 ∷ r.1.now)) }
    ensures last { IfSome result (λ r. has_mark r.1.now ≡ false) }
    ensures none { IfNone result (has_mark label.now ≡ false) }
{
    let mut n = label.len();
    while n > 0 {
        if label[n - 1] == b'#' {
            return Some((&label[..n - 1], &label[n..]));
        }
        n -= 1;
    }
    None
}

/// The way of the number, from 1, that these digits write without a leading zero.
pub(crate) fn way_of(ways: &[WayId], digits: &[u8]) -> Option<WayId>
    requires { length ways.now < 2 ^ 64 }
    ensures { MatchOption result
        ((i : ℕ) → digits.now ≡ decimal (i + 1) → i < length ways.now → ⊥)
        (λ way. (i : ℕ) × (digits.now ≡ decimal (i + 1)) × Stands ways.now i way) }
{
    let count = ways.len();
    let k = number_of(digits)?;
    if k == 0 || k > count {
        return None;
    }
    Some(ways[k - 1])
}

// The number that these digits write without a leading zero.
fn number_of(digits: &[u8]) -> Option<usize>
    ensures found { IfSome result (λ k. digits.now ≡ decimal k) }
    ensures small { IfSome result (λ k. k < 2 ^ 64) }
    ensures none { IfNone result ((k : ℕ) → k < 2 ^ 64 → digits.now ≡ decimal k → ⊥) }
{
    let Ok(text) = from_utf8(digits) else {
        return None;
    };
    let Ok(k) = text.parse::<usize>() else {
        return None;
    };
    let mut buffer = Buffer::new();
    let written = buffer.format(k);
    if written.as_bytes() == digits {
        Some(k)
    } else {
        None
    }
}
