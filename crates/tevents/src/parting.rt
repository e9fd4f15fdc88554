// The two parts of a checker's input.

ghost use Rattle.std.specs.Prelude.{◌≡◌, ◌≤◌, ◌<◌, ◌↔◌, IsTrue, IfSome, None, List, ℕ, length, take, drop};
ghost use Rattle.tevents.specs.Parts.{AreParts, IsRuled};

/// What stands before the first line that is exactly three dashes, and what stands behind it; where there is none, the
/// whole text and nothing.
pub(crate) fn part(text: &[u8]) -> (&[u8], &[u8])
    ensures { AreParts text.now result.0.now result.1.now }
{
    let mut starts = true;
    'bytes: for i in 0..text.len() {
        if starts {
            if let Some(rest) = behind_rule(behind(text, i)) {
                return (&text[..i], rest);
            }
        }
        starts = text[i] == b'\n';
    }
    (text, &[])
}

fn behind(text: &[u8], place: usize) -> &[u8]
    requires { place ≤ length text.now }
    ensures { result.now ≡ drop place text.now }
{
    &text[place..]
}

// What stands behind a rule, where the text begins with one.
fn behind_rule(text: &[u8]) -> Option<&[u8]>
    ensures some { IfSome result (λ rest. IsRuled text.now rest.now) }
    ensures none { result ≡ None → (rest : List ℕ) → ¬ IsRuled text.now rest }
{
    match text {
        [b'-', b'-', b'-'] => Some(&text[3..]),
        [b'-', b'-', b'-', b'\n', rest @ ..] => Some(rest),
        _ => None,
    }
}
