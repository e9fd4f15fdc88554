ghost use Rattle.std.specs.Prelude.{◌≡◌, ◌∷◌};
ghost use Rattle.te_reader.specs.Spots.{begins_with_dot, spots};
ghost use Rattle.te_reader.specs.Finding.{lexeme_head, first_head, LooksAt, GoesBehind};

use crate::lexing::{behind_gap, lexeme_at};
use crate::token::{Lexeme, Sign};
use std::marker::Model;

/// A place in a text: what stands there, how many bytes are left from there on, and the bytes behind it. It is
/// seen as the spots of the text from there on.
#[derive(Drop)]
pub struct Scanner<'a> {
    head: Lexeme<'a>,
    left: usize,
    rest: &'a [u8],
}

impl<'a> Model for Scanner<'a> {
    ghost use Rattle.std.specs.Prelude.{List};
    ghost use Rattle.te_reader.specs.Spots.{Spot, spots};
    ghost use Rattle.te_reader.specs.Finding.{headed_spots};

    ghost Value = { List Spot };

    ghost view = { λ s. headed_spots s.head s.left (spots s.rest.now) };
}

/// What stands at a place, whether a `.` is behind it, and how many bytes are left from there on.
#[derive(Clone, Copy)]
pub struct Look<'a> {
    pub lexeme: Lexeme<'a>,
    pub dotted: bool,
    pub left: usize,
}

// Whether the first token of a text is a `.`.
fn begins_with_dot(text: &[u8]) -> bool
    ensures { result ≡ begins_with_dot (spots text.now) }
{
    match lexeme_at(behind_gap(text)).0 {
        Lexeme::Sign(Sign::Dot) => true,
        _ => false,
    }
}

impl<'a> Scanner<'a> {
    /// At the front of a text.
    pub fn new(text: &'a [u8]) -> Scanner<'a>
        ensures { result ≡ spots text.now }
    {
        let text = behind_gap(text);
        let (head, rest) = lexeme_at(text);
        Scanner {
            head,
            left: text.len(),
            rest,
        }
    }

    /// What stands here.
    pub fn look(&self) -> Look<'a>
        ensures { LooksAt (lexeme_head result.lexeme) result.dotted result.left self.now }
    {
        let dotted = begins_with_dot(self.rest);
        let left = self.left;
        match self.head {
            Lexeme::Word(w) => Look {
                lexeme: Lexeme::Word(w),
                dotted,
                left,
            },
            Lexeme::Name(n) => Look {
                lexeme: Lexeme::Name(n),
                dotted,
                left,
            },
            Lexeme::Inner(n) => Look {
                lexeme: Lexeme::Inner(n),
                dotted,
                left,
            },
            Lexeme::Integer(n) => Look {
                lexeme: Lexeme::Integer(n),
                dotted,
                left,
            },
            Lexeme::Sign(g) => Look {
                lexeme: Lexeme::Sign(g),
                dotted,
                left,
            },
            Lexeme::End => Look {
                lexeme: Lexeme::End,
                dotted: false,
                left: 0,
            },
            Lexeme::Other(b) => Look {
                lexeme: Lexeme::Other(b),
                dotted: false,
                left,
            },
        }
    }

    /// Goes on behind the token that stands here.
    pub fn advance(&mut self)
        ensures { GoesBehind (first_head self.old) self.old self.new }
    {
        *self = Scanner::new(self.rest);
    }
}
