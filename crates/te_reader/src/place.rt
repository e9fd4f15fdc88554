ghost use Rattle.std.specs.Prelude.{◌≡◌, ◌≤◌, length, take};
ghost use Rattle.te_reader.specs.Places.{place_behind};

/// A place in a text: the line, and the byte in it, both counted from 1. The place of the end is that of the
/// byte behind the last.
#[derive(Clone, Copy, Debug, PartialEq, Eq)]
pub struct Place {
    /// One and the number of line feeds before the place.
    pub line: u32,
    /// One and the number of bytes since the last line feed.
    pub column: u32,
}

/// The place behind the first bytes of a text.
pub fn place_behind(text: &[u8], len: usize) -> Place
    requires within { len ≤ length text.now }
    requires few { len ≤ 1048576 }
    ensures { result ≡ place_behind (take len text.now) }
{
    let before = &text[..len];
    let mut line = 1;
    let mut column = 1;
    for b in before {
        if *b == b'\n' {
            line += 1;
            column = 1;
        } else {
            column += 1;
        }
    }
    Place { line, column }
}
