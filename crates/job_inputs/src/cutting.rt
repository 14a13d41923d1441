//! The pieces of a text between marks.

ghost use Rattle.std.specs.Prelude.{◌≡◌, ◌<◌, ◌≤◌, [], ◌∷◌, length, not, MatchOption};
ghost use Rattle.std.specs.List.{prefix_len};
ghost use Rattle.job_inputs.specs.Lines.{is_mark, pieces};

/// The piece before the first mark, and what stands behind the mark, if there is one. Takes no memory.
pub fn first_piece(bytes: &[u8], mark: u8) -> (&[u8], Option<&[u8]>)
    ensures { MatchOption result.1 (pieces (is_mark mark) bytes.now ≡ result.0.now ∷ [])
        (λ rest. (pieces (is_mark mark) bytes.now ≡ result.0.now ∷ pieces (is_mark mark) rest.now)
        × (length rest.now < length bytes.now)) }
{
    let len = piece_len(bytes, mark);
    if len < bytes.len() {
        (&bytes[..len], Some(&bytes[len + 1..]))
    } else {
        (bytes, None)
    }
}

// How many bytes stand before the first mark.
fn piece_len(bytes: &[u8], mark: u8) -> usize
    ensures value { result ≡ prefix_len (λ b. not (is_mark mark b)) bytes.now }
    ensures within { result ≤ length bytes.now }
{
    let mut n = 0;
    while n < bytes.len() && bytes[n] != mark {
        n += 1;
    }
    n
}
