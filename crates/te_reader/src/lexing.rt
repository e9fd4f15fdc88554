ghost use Rattle.std.specs.Prelude.{◌≡◌, ◌≢◌, ◌≤◌, ◌↔◌, true, false, length, drop, slice_index, IsTrue};
ghost use Rattle.std.specs.List.{prefix_len};
ghost use Rattle.std.specs.Char.{is_ascii_alphabetic, is_ascii_digit};
ghost use Rattle.te_script.specs.Names.{is_word_byte};
ghost use Rattle.te_reader.specs.Tokens.{is_blank};
ghost use Rattle.te_reader.specs.Lexed.{lexed, stream_headed, one_sign, IsAtToken, IsOneSign, HasByte};
ghost use Rattle.te_reader.specs.Spots.{spots};
ghost use Rattle.te_reader.specs.Finding.{IsHeaded};

use crate::reserved::reserved_word;
use crate::token::{Lexeme, Sign};

fn is_blank(b: u8) -> bool
    ensures { result ≡ is_blank b }
{
    b == b' ' || b == b'\n' || b == b'\t' || b == b'\r'
}

fn is_word_byte(b: u8) -> bool
    ensures { result ≡ is_word_byte b }
{
    b.is_ascii_lowercase() || b.is_ascii_digit() || b == b'_' || b.is_ascii_uppercase()
}

// Whether a byte stands neither in a blank nor at the front of a comment.
fn is_solid(b: u8) -> bool
    ensures { IsTrue result ↔ (is_blank b ≡ false) × (b ≢ 35) }
{
    !is_blank(b) && b != b'#'
}

// The text behind its first bytes.
#[inline(always)]
fn behind(text: &[u8], len: usize) -> &[u8]
    requires { len ≤ length text.now }
    ensures { result.now ≡ drop len text.now }
{
    &text[len..]
}

// How many bytes of blanks and comments stand at the front. Most tokens stand at once or behind one space.
#[inline(always)]
fn gap_len(text: &[u8]) -> usize
    ensures within { result ≤ length text.now }
    ensures same { lexed (drop result text.now) ≡ lexed text.now }
    ensures spots { spots (drop result text.now) ≡ spots text.now }
    ensures at_token { IsAtToken (drop result text.now) }
{
    if !text.is_empty() && is_solid(text[0]) {
        return 0;
    }
    if text.len() > 1 && text[0] == b' ' && is_solid(text[1]) {
        return 1;
    }
    long_gap_len(text)
}

// How many bytes of blanks and comments stand at the front, whatever they are.
#[inline(never)]
fn long_gap_len(text: &[u8]) -> usize
    ensures within { result ≤ length text.now }
    ensures same { lexed (drop result text.now) ≡ lexed text.now }
    ensures spots { spots (drop result text.now) ≡ spots text.now }
    ensures at_token { IsAtToken (drop result text.now) }
{
    let mut in_comment = false;
    for (i, b) in text.iter().enumerate() {
        if in_comment {
            in_comment = *b != b'\n';
        } else if *b == b'#' {
            in_comment = true;
        } else if !is_blank(*b) {
            return i;
        }
    }
    text.len()
}

// How long the run of letters, digits and `_` at the front is.
fn word_len(text: &[u8]) -> usize
    ensures { result ≡ prefix_len is_word_byte text.now }
{
    text.iter().take_while(|b| is_word_byte(**b)).count()
}

// How long the run of digits at the front is.
fn digits_len(text: &[u8]) -> usize
    ensures { result ≡ prefix_len is_ascii_digit text.now }
{
    text.iter().take_while(|b| b.is_ascii_digit()).count()
}

// A reserved word or a name, at a letter.
#[inline(always)]
fn word_or_name<'a>(text: &'a [u8]) -> (Lexeme<'a>, &'a [u8])
    requires { is_ascii_alphabetic (slice_index text.now 0) ≡ true }
    ensures tokens { IsHeaded result.0 result.1.now text.now }
    ensures name { HasByte result.0 }
{
    let (spelling, rest) = text.split_at(word_len(text));
    match reserved_word(spelling) {
        Some(word) => (Lexeme::Word(word), rest),
        None => (Lexeme::Name(spelling), rest),
    }
}

// An inner name, at a `_`.
#[inline(always)]
fn inner_name<'a>(text: &'a [u8]) -> (Lexeme<'a>, &'a [u8])
    requires { slice_index text.now 0 ≡ 95 }
    ensures tokens { IsHeaded result.0 result.1.now text.now }
    ensures name { HasByte result.0 }
{
    let (spelling, rest) = text.split_at(word_len(text));
    (Lexeme::Inner(spelling), rest)
}

// An integer, at a digit.
#[inline(always)]
fn digits<'a>(text: &'a [u8]) -> (Lexeme<'a>, &'a [u8])
    requires { is_ascii_digit (slice_index text.now 0) ≡ true }
    ensures tokens { IsHeaded result.0 result.1.now text.now }
    ensures name { HasByte result.0 }
{
    let (spelling, rest) = text.split_at(digits_len(text));
    (Lexeme::Integer(spelling), rest)
}

// `-`, or an integer where a digit follows.
#[inline(always)]
fn minus<'a>(text: &'a [u8]) -> (Lexeme<'a>, &'a [u8])
    requires { slice_index text.now 0 ≡ 45 }
    ensures tokens { IsHeaded result.0 result.1.now text.now }
    ensures name { HasByte result.0 }
{
    let len = digits_len(behind(text, 1));
    if len == 0 {
        return (Lexeme::Sign(Sign::Minus), behind(text, 1));
    }
    let (spelling, rest) = text.split_at(1 + len);
    (Lexeme::Integer(spelling), rest)
}

// `<-`, or `<` by itself.
#[inline(always)]
fn less<'a>(text: &'a [u8]) -> (Lexeme<'a>, &'a [u8])
    requires { slice_index text.now 0 ≡ 60 }
    ensures tokens { IsHeaded result.0 result.1.now text.now }
    ensures name { HasByte result.0 }
{
    if text.len() > 1 && text[1] == b'-' {
        (Lexeme::Sign(Sign::Arrow), behind(text, 2))
    } else {
        (Lexeme::Sign(Sign::Less), behind(text, 1))
    }
}

// The sign of one byte that no other token begins with.
#[inline(always)]
fn one_sign(b: u8) -> Lexeme<'static>
    ensures { IsOneSign result b (one_sign b) }
{
    match b {
        b'{' => Lexeme::Sign(Sign::OpenBrace),
        b'}' => Lexeme::Sign(Sign::CloseBrace),
        b'(' => Lexeme::Sign(Sign::Open),
        b')' => Lexeme::Sign(Sign::Close),
        b';' => Lexeme::Sign(Sign::Semicolon),
        b',' => Lexeme::Sign(Sign::Comma),
        b'.' => Lexeme::Sign(Sign::Dot),
        b'=' => Lexeme::Sign(Sign::Equal),
        b'+' => Lexeme::Sign(Sign::Plus),
        b'*' => Lexeme::Sign(Sign::Star),
        b'|' => Lexeme::Sign(Sign::Bar),
        _ => Lexeme::Other(b),
    }
}

/// What stands at the front of a text that begins with no blank and no comment, with the text behind it.
#[inline(always)]
pub fn lexeme_at<'a>(text: &'a [u8]) -> (Lexeme<'a>, &'a [u8])
    requires { IsAtToken text.now }
    ensures tokens { IsHeaded result.0 result.1.now text.now }
    ensures name { HasByte result.0 }
{
    if text.is_empty() {
        return (Lexeme::End, text);
    }
    let first = text[0];
    if first.is_ascii_alphabetic() {
        word_or_name(text)
    } else if first.is_ascii_digit() {
        digits(text)
    } else if first == b'<' {
        less(text)
    } else if first == b'-' {
        minus(text)
    } else if first == b'_' {
        inner_name(text)
    } else {
        (one_sign(first), behind(text, 1))
    }
}

/// The text behind the blanks and comments at its front.
#[inline(always)]
pub fn behind_gap(text: &[u8]) -> &[u8]
    ensures same { lexed result.now ≡ lexed text.now }
    ensures spots { spots result.now ≡ spots text.now }
    ensures at_token { IsAtToken result.now }
{
    behind(text, gap_len(text))
}

/// What stands at the front of a text behind its blanks and comments, with the text behind it.
#[inline(always)]
pub fn lexeme<'a>(text: &'a [u8]) -> (Lexeme<'a>, &'a [u8])
    ensures tokens { stream_headed result.0 (lexed result.1.now) ≡ lexed text.now }
    ensures name { HasByte result.0 }
{
    lexeme_at(behind_gap(text))
}
