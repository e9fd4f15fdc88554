ghost use Rattle.std.specs.Prelude.{◌≡◌, ◌↔◌, ◌<◌, true, length, drop, IsTrue, IfSome};
ghost use Rattle.te_reader.specs.Heads.{word_first, sign_first, name_first, inner_first, bound_first, integer_first, Takes, TakesBytes, IsEndOfText};
ghost use Rattle.te_reader.specs.Lexed.{lexed};
ghost use Rattle.te_reader.specs.Tokens.{AreTokens};
ghost use Rattle.te_script.specs.Names.{IsIdentifier};

use crate::lexing::lexeme;
use crate::token::{Lexeme, Sign, Word, is_same_sign, is_same_word};
use std::marker::Model;

/// A place in a text: what stands there, and the bytes behind it. It is seen as the tokens from there on.
#[derive(Drop)]
pub struct Cursor<'a> {
    head: Lexeme<'a>,
    rest: &'a [u8],
}

impl<'a> Model for Cursor<'a> {
    ghost use Rattle.te_reader.specs.Lexed.{Stream, lexed, stream_headed, HasByte};
    ghost use Rattle.te_reader.specs.Tokens.{AreTokens};

    ghost Value = { Stream };

    ghost view = { λ c. stream_headed c.head (lexed c.rest.now) };

    ghost invariant = { λ c. HasByte c.head × AreTokens (stream_headed c.head (lexed c.rest.now)).tokens };
}

impl<'a> Cursor<'a> {
    /// At the front of a text.
    pub fn new(text: &'a [u8]) -> Cursor<'a>
        ensures { result ≡ lexed text.now }
    {
        let (head, rest) = lexeme(text);
        Cursor { head, rest }
    }

    // Goes on behind the token that stands here.
    #[inline(never)]
    fn advance(&mut self)
        requires { 0 < length self.old.tokens }
        ensures { self.new ≡ record self.old { tokens = drop 1 self.old.tokens } }
    {
        let (head, rest) = lexeme(self.rest);
        self.head = head;
        self.rest = rest;
    }

    /// A second cursor at the same place.
    pub fn copy(&self) -> Cursor<'a>
        ensures { result ≡ self.now }
    {
        Cursor {
            head: self.head,
            rest: self.rest,
        }
    }

    /// Whether the text's end stands here.
    pub fn is_at_end(&self) -> bool
        ensures { IsTrue result ↔ IsEndOfText self.now }
    {
        match self.head {
            Lexeme::End => true,
            _ => false,
        }
    }

    /// Takes a reserved word, where it stands here.
    #[tactic(auto, unfolding(crate::specs::Heads::word_first))]
    pub fn take_word(&mut self, word: Word) -> bool
        ensures { Takes result self.old self.new (word_first word self.old.tokens) }
    {
        match self.head {
            Lexeme::Word(found) if is_same_word(word, found) => {
                self.advance();
                true
            }
            _ => false,
        }
    }

    /// Takes a sign, where it stands here.
    #[tactic(auto, unfolding(crate::specs::Heads::sign_first))]
    pub fn take_sign(&mut self, sign: Sign) -> bool
        ensures { Takes result self.old self.new (sign_first sign self.old.tokens) }
    {
        match self.head {
            Lexeme::Sign(found) if is_same_sign(sign, found) => {
                self.advance();
                true
            }
            _ => false,
        }
    }

    /// Takes a name, where one stands here.
    #[tactic(auto, unfolding(crate::specs::Heads::name_first))]
    pub fn take_name(&mut self) -> Option<&'a [u8]>
        ensures name { TakesBytes result self.old self.new (name_first self.old.tokens) }
        ensures some { IfSome result (λ n. 0 < length n.now) }
        ensures identifier { IfSome result (λ n. IsIdentifier n.now) }
        ensures behind { AreTokens self.new.tokens }
    {
        match self.head {
            Lexeme::Name(spelling) => {
                self.advance();
                Some(spelling)
            }
            _ => None,
        }
    }

    /// Takes an inner name that begins with `_`, where one stands here.
    #[tactic(auto, unfolding(crate::specs::Heads::inner_first))]
    pub fn take_inner(&mut self) -> Option<&'a [u8]>
        ensures { TakesBytes result self.old self.new (inner_first self.old.tokens) }
    {
        match self.head {
            Lexeme::Inner(spelling) => {
                self.advance();
                Some(spelling)
            }
            _ => None,
        }
    }

    /// Takes a name that a part of an event may bind, where one stands here.
    #[tactic(auto, unfolding(crate::specs::Heads::bound_first))]
    pub fn take_bound(&mut self) -> Option<&'a [u8]>
        ensures name { TakesBytes result self.old self.new (bound_first self.old.tokens) }
        ensures some { IfSome result (λ n. 0 < length n.now) }
    {
        match self.head {
            Lexeme::Name(spelling) | Lexeme::Inner(spelling) => {
                self.advance();
                Some(spelling)
            }
            _ => None,
        }
    }

    /// Takes an integer, where one stands here.
    #[tactic(auto, unfolding(crate::specs::Heads::integer_first))]
    pub fn take_integer(&mut self) -> Option<&'a [u8]>
        ensures { TakesBytes result self.old self.new (integer_first self.old.tokens) }
    {
        match self.head {
            Lexeme::Integer(spelling) => {
                self.advance();
                Some(spelling)
            }
            _ => None,
        }
    }
}
