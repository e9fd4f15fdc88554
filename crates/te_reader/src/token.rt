ghost use Rattle.std.specs.Prelude.{◌≡◌, ◌==◌};
ghost use Rattle.te_reader.specs.Heads.{word_number, sign_number};

/// A reserved word.
#[derive(Clone, Copy, Debug, PartialEq, Eq)]
pub enum Word {
    Channels,
    Thread,
    Sync,
    Emit,
    Always,
    Never,
    Throw,
    Send,
    Recv,
    Do,
    Choose,
    Try,
    Catch,
    If,
    Else,
    Fresh,
    Repeat,
}

/// A sign.
#[derive(Clone, Copy, Debug, PartialEq, Eq)]
pub enum Sign {
    Arrow,
    Less,
    OpenBrace,
    CloseBrace,
    Open,
    Close,
    Semicolon,
    Comma,
    Dot,
    Equal,
    Plus,
    Minus,
    Star,
    Bar,
}

/// What stands at a place between tokens: a token with its spelling, the end, or a byte that begins
/// no token.
#[derive(Clone, Copy)]
pub enum Lexeme<'a> {
    Word(Word),
    Name(&'a [u8]),
    Inner(&'a [u8]),
    Integer(&'a [u8]),
    Sign(Sign),
    End,
    Other(u8),
}

/// Whether two words are the same.
pub fn is_same_word(a: Word, b: Word) -> bool
    ensures { result ≡ (word_number a == word_number b) }
{
    a as u8 == b as u8
}

/// Whether two signs are the same.
pub fn is_same_sign(a: Sign, b: Sign) -> bool
    ensures { result ≡ (sign_number a == sign_number b) }
{
    a as u8 == b as u8
}
