ghost use Rattle.std.specs.Prelude.{◌≡◌};

use std::marker::Model;

/// A name where it stands in a text. It is seen as its bytes.
#[derive(Drop)]
pub struct Label<'a> {
    bytes: &'a [u8],
}

impl<'a> Model for Label<'a> {
    ghost use Rattle.std.specs.Prelude.{List, ℕ};

    ghost Value = { List ℕ };

    ghost view = { λ l. l.bytes.now };
}

impl<'a> Label<'a> {
    /// The name of these bytes.
    pub fn new(bytes: &'a [u8]) -> Label<'a>
        ensures { result ≡ bytes.now }
    {
        Label { bytes }
    }

    /// Its bytes.
    pub fn bytes(&self) -> &'a [u8]
        ensures { result.now ≡ self.now }
    {
        self.bytes
    }
}
