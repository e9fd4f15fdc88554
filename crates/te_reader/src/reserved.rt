ghost use Rattle.std.specs.Prelude.{◌≡◌, ◌∷◌, []};
ghost use Rattle.std.specs.Str.{bytes_eq};
ghost use Rattle.te_reader.specs.Lexed.{word_among, reserved_as};

use crate::token::Word;

/// The reserved word of this spelling, if it is one.
#[inline(always)]
#[tactic(auto, unfolding(crate::specs::Lexed::reserved_as))]
pub fn reserved_word(bytes: &[u8]) -> Option<Word>
    ensures { result ≡ reserved_as bytes.now }
{
    match bytes.len() {
        4 => of_four(bytes),
        6 => of_six(bytes),
        5 => of_five(bytes),
        2 => of_two(bytes),
        3 if is_same(bytes, b"try") => Some(Word::Try),
        8 if is_same(bytes, b"channels") => Some(Word::Channels),
        _ => None,
    }
}

#[inline(always)]
fn of_two(bytes: &[u8]) -> Option<Word>
    ensures { result ≡ word_among (Word.Do ∷ Word.If ∷ []) bytes.now }
{
    if is_same(bytes, b"do") {
        Some(Word::Do)
    } else if is_same(bytes, b"if") {
        Some(Word::If)
    } else {
        None
    }
}

#[inline(always)]
fn of_four(bytes: &[u8]) -> Option<Word>
    ensures { result ≡ word_among (Word.Sync ∷ Word.Send ∷ Word.Recv ∷ Word.Emit ∷ Word.Else ∷ []) bytes.now }
{
    if is_same(bytes, b"sync") {
        Some(Word::Sync)
    } else if is_same(bytes, b"send") {
        Some(Word::Send)
    } else if is_same(bytes, b"recv") {
        Some(Word::Recv)
    } else if is_same(bytes, b"emit") {
        Some(Word::Emit)
    } else if is_same(bytes, b"else") {
        Some(Word::Else)
    } else {
        None
    }
}

#[inline(always)]
fn of_five(bytes: &[u8]) -> Option<Word>
    ensures { result ≡ word_among (Word.Never ∷ Word.Throw ∷ Word.Catch ∷ Word.Fresh ∷ []) bytes.now }
{
    if is_same(bytes, b"never") {
        Some(Word::Never)
    } else if is_same(bytes, b"throw") {
        Some(Word::Throw)
    } else if is_same(bytes, b"catch") {
        Some(Word::Catch)
    } else if is_same(bytes, b"fresh") {
        Some(Word::Fresh)
    } else {
        None
    }
}

#[inline(always)]
fn of_six(bytes: &[u8]) -> Option<Word>
    ensures { result ≡ word_among (Word.Thread ∷ Word.Always ∷ Word.Choose ∷ Word.Repeat ∷ []) bytes.now }
{
    if is_same(bytes, b"thread") {
        Some(Word::Thread)
    } else if is_same(bytes, b"always") {
        Some(Word::Always)
    } else if is_same(bytes, b"choose") {
        Some(Word::Choose)
    } else if is_same(bytes, b"repeat") {
        Some(Word::Repeat)
    } else {
        None
    }
}

// Byte by byte: for a word that is known the compiler makes a few tests of it, and no call.
#[inline(always)]
fn is_same(bytes: &[u8], word: &[u8]) -> bool
    ensures { result ≡ bytes_eq bytes.now word.now }
{
    if bytes.len() != word.len() {
        return false;
    }
    'bytes: for i in 0..bytes.len() {
        if bytes[i] != word[i] {
            return false;
        }
    }
    true
}
