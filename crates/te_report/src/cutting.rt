// A text is read in parts that single bytes separate.

ghost use Rattle.std.specs.Prelude.{◌≡◌, ◌≢◌, ◌<◌, ◌≤◌, ◌+◌, ◌==◌, ◌++◌, ℕ, List, not, length, take, drop, IfSome, IfNone};
ghost use Rattle.std.specs.List.{prefix_len};
ghost use Rattle.te_report.specs.Sayings.{up_to, cut_behind};

// How many bytes stand before the first `at`.
fn run(bytes: &[u8], at: u8) -> usize
    ensures { result ≡ prefix_len (λ b. not (b == at)) bytes.now }
{
    bytes.iter().take_while(|b| **b != at).count()
}

// The first so many bytes.
fn first(bytes: &[u8], len: usize) -> &[u8]
    requires { len ≤ length bytes.now }
    ensures { result.now ≡ take len bytes.now }
{
    &bytes[..len]
}

// The bytes behind the first so many.
fn past(bytes: &[u8], len: usize) -> &[u8]
    requires { len ≤ length bytes.now }
    ensures { result.now ≡ drop len bytes.now }
{
    &bytes[len..]
}

/// What stands before the first byte `at`, or the whole where there is none; and what stands behind it, or nothing.
pub(crate) fn cut(bytes: &[u8], at: u8) -> (&[u8], &[u8])
    ensures front { result.0.now ≡ up_to at bytes.now }
    ensures back { result.1.now ≡ cut_behind at bytes.now }
    ensures within { (length result.0.now ≤ length bytes.now) × (length result.1.now ≤ length bytes.now) }
    ensures shorter { 0 < length bytes.now → length result.1.now < length bytes.now }
{
    let len = run(bytes, at);
    if len < bytes.len() {
        (first(bytes, len), past(bytes, len + 1))
    } else {
        let none: &[u8] = b"";
        (bytes, none)
    }
}

/// What stands before the first byte `at`, or the whole where there is none.
pub(crate) fn up_to(bytes: &[u8], at: u8) -> &[u8]
    ensures value { result.now ≡ up_to at bytes.now }
    ensures within { length result.now ≤ length bytes.now }
{
    cut(bytes, at).0
}

/// What stands behind the first byte `at`, or nothing.
pub(crate) fn behind(bytes: &[u8], at: u8) -> &[u8]
    ensures value { result.now ≡ cut_behind at bytes.now }
    ensures within { length result.now ≤ length bytes.now }
{
    cut(bytes, at).1
}

/// What stands behind a prefix, where the bytes begin with it.
pub(crate) fn behind_prefix<'a>(bytes: &'a [u8], prefix: &[u8]) -> Option<&'a [u8]>
    ensures some { IfSome result (λ rest. bytes.now ≡ prefix.now ++ rest.now) }
    ensures none { IfNone result ((rest : List ℕ) → bytes.now ≢ prefix.now ++ rest) }
{
    bytes.strip_prefix(prefix)
}
