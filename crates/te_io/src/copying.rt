ghost use Rattle.std.specs.Prelude.{◌≡◌, length, take, min};

/// Copies the first bytes of `from` to the front of `into`, as many as fit and at most `most`, and
/// answers how many.
pub fn copy_first(from: &[u8], into: &mut [u8], most: usize) -> usize
    ensures count { result ≡ min most (min (length into.old) (length from.now)) }
    ensures copied { take result into.new ≡ take result from.now }
{
    let count = most.min(into.len().min(from.len()));
    into[..count].copy_from_slice(&from[..count]);
    count
}
