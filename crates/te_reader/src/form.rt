ghost use Rattle.std.specs.Prelude.{◌≡◌, [], ◌∷◌, true, false};
ghost use Rattle.std.specs.Option.{option_map};
ghost use Rattle.te_reader.specs.declared.part.Part.TheVariants.{Behind};
ghost use Rattle.te_reader.specs.Integers.{integer_value};
ghost use Rattle.te_reader.specs.Heads.{word_number, sign_number};
ghost use Rattle.te_reader.specs.Runs.{script_form, threads_form, channels_form, statements_form, sync_form};
ghost use Rattle.te_reader.specs.Runs.{syncs_form, event_form, part_form, bars_form, expression_form, inside_form};
ghost use Rattle.te_reader.specs.Runs.{operand_form, behind_form, further_form, test_form, is_word, is_sign, is_bound};
ghost use Rattle.te_reader.specs.Runs.{is_small, is_place, fits, alone_form, pick_plain};
ghost use Rattle.te_reader.specs.Finding.{lexeme_head, form_seen};

use crate::integer::integer;
use crate::part::{Part, Role};
use crate::token::{Lexeme, Sign, Word, is_same_sign, is_same_word};

/// The role of a token, and the parts that are wanted behind it.
#[derive(Clone, Copy)]
pub struct Form {
    pub role: Role,
    pub wanted: &'static [Part],
}

fn threads_form(lexeme: Lexeme<'_>) -> Option<Form>
    ensures { option_map form_seen result ≡ threads_form (lexeme_head lexeme.entry) }
{
    match lexeme {
        Lexeme::Word(Word::Thread) => Some(Form {
            role: Role::ThreadWord,
            wanted: &[
                Part::Only(Role::ThreadName),
                Part::Only(Role::Sign(Sign::OpenBrace)),
                Part::Statements,
                Part::Threads,
            ],
        }),
        Lexeme::End => Some(Form {
            role: Role::End,
            wanted: &[],
        }),
        _ => None,
    }
}

fn script_form(lexeme: Lexeme<'_>) -> Option<Form>
    ensures { option_map form_seen result ≡ script_form (lexeme_head lexeme.entry) }
{
    match lexeme {
        Lexeme::Word(Word::Channels) => Some(Form {
            role: Role::Word(Word::Channels),
            wanted: &[Part::Only(Role::ChannelName), Part::Channels, Part::Threads],
        }),
        _ => threads_form(lexeme),
    }
}

fn channels_form(lexeme: Lexeme<'_>) -> Option<Form>
    ensures { option_map form_seen result ≡ channels_form (lexeme_head lexeme.entry) }
{
    match lexeme {
        Lexeme::Name(_) => Some(Form {
            role: Role::ChannelName,
            wanted: &[Part::Channels],
        }),
        Lexeme::Sign(Sign::Semicolon) => Some(Form {
            role: Role::Sign(Sign::Semicolon),
            wanted: &[],
        }),
        _ => None,
    }
}

fn statements_form(lexeme: Lexeme<'_>) -> Option<Form>
    ensures { option_map form_seen result ≡ statements_form (lexeme_head lexeme.entry) }
{
    match lexeme {
        Lexeme::Name(_) => Some(Form {
            role: Role::Register,
            wanted: &[
                Part::Only(Role::Sign(Sign::Arrow)),
                Part::Only(Role::SyncWord),
                Part::Event,
                Part::Only(Role::SyncEnd),
                Part::Statements,
            ],
        }),
        Lexeme::Word(Word::Emit) => Some(Form {
            role: Role::EmitWord,
            wanted: &[
                Part::Expression,
                Part::Only(Role::Sign(Sign::Semicolon)),
                Part::Statements,
            ],
        }),
        Lexeme::Word(Word::Repeat) => Some(Form {
            role: Role::RepeatWord,
            wanted: &[
                Part::Only(Role::Times),
                Part::Only(Role::Sign(Sign::OpenBrace)),
                Part::Sync,
                Part::Syncs,
                Part::Statements,
            ],
        }),
        Lexeme::Sign(Sign::CloseBrace) => Some(Form {
            role: Role::Sign(Sign::CloseBrace),
            wanted: &[],
        }),
        _ => None,
    }
}

fn sync_form(lexeme: Lexeme<'_>) -> Option<Form>
    ensures { option_map form_seen result ≡ sync_form (lexeme_head lexeme.entry) }
{
    match lexeme {
        Lexeme::Name(_) => Some(Form {
            role: Role::Register,
            wanted: &[
                Part::Only(Role::Sign(Sign::Arrow)),
                Part::Only(Role::SyncWord),
                Part::Event,
                Part::Only(Role::SyncEnd),
            ],
        }),
        _ => None,
    }
}

fn syncs_form(lexeme: Lexeme<'_>) -> Option<Form>
    ensures { option_map form_seen result ≡ syncs_form (lexeme_head lexeme.entry) }
{
    match lexeme {
        Lexeme::Name(_) => Some(Form {
            role: Role::Register,
            wanted: &[
                Part::Only(Role::Sign(Sign::Arrow)),
                Part::Only(Role::SyncWord),
                Part::Event,
                Part::Only(Role::SyncEnd),
                Part::Syncs,
            ],
        }),
        Lexeme::Sign(Sign::CloseBrace) => Some(Form {
            role: Role::Sign(Sign::CloseBrace),
            wanted: &[],
        }),
        _ => None,
    }
}

fn event_form(lexeme: Lexeme<'_>) -> Option<Form>
    ensures { option_map form_seen result ≡ event_form (lexeme_head lexeme.entry) }
{
    match lexeme {
        Lexeme::Word(Word::Always) => Some(Form {
            role: Role::Leaf(Word::Always),
            wanted: &[Part::Expression],
        }),
        Lexeme::Word(Word::Never) => Some(Form {
            role: Role::Leaf(Word::Never),
            wanted: &[],
        }),
        Lexeme::Word(Word::Throw) => Some(Form {
            role: Role::Leaf(Word::Throw),
            wanted: &[Part::Expression],
        }),
        Lexeme::Word(Word::Send) => Some(Form {
            role: Role::Leaf(Word::Send),
            wanted: &[Part::Operand, Part::Expression],
        }),
        Lexeme::Word(Word::Recv) => Some(Form {
            role: Role::Leaf(Word::Recv),
            wanted: &[Part::Operand],
        }),
        Lexeme::Word(Word::Do) => Some(Form {
            role: Role::Chain(Word::Do),
            wanted: &[
                Part::Only(Role::OpenChain),
                Part::Only(Role::PartName),
                Part::Only(Role::Sign(Sign::Arrow)),
                Part::Event,
                Part::Only(Role::PartEnd),
                Part::Parts,
            ],
        }),
        Lexeme::Word(Word::Choose) => Some(Form {
            role: Role::Chain(Word::Choose),
            wanted: &[
                Part::Only(Role::OpenChain),
                Part::Event,
                Part::Only(Role::Bar),
                Part::Event,
                Part::Bars,
            ],
        }),
        Lexeme::Word(Word::Fresh) => Some(Form {
            role: Role::Fresh,
            wanted: &[],
        }),
        Lexeme::Word(Word::Try) => Some(Form {
            role: Role::Branch(Word::Try),
            wanted: &[
                Part::Only(Role::OpenBranch),
                Part::Event,
                Part::Only(Role::Close),
                Part::Only(Role::Word(Word::Catch)),
                Part::Only(Role::CatchName),
                Part::Only(Role::Sign(Sign::OpenBrace)),
                Part::Event,
                Part::Only(Role::Close),
            ],
        }),
        Lexeme::Word(Word::If) => Some(Form {
            role: Role::Branch(Word::If),
            wanted: &[
                Part::Operand,
                Part::Test,
                Part::Operand,
                Part::Only(Role::OpenBranch),
                Part::Event,
                Part::Only(Role::Close),
                Part::Only(Role::Word(Word::Else)),
                Part::Only(Role::OpenBranch),
                Part::Event,
                Part::Only(Role::Close),
            ],
        }),
        _ => None,
    }
}

fn bars_form(lexeme: Lexeme<'_>) -> Option<Form>
    ensures { option_map form_seen result ≡ bars_form (lexeme_head lexeme.entry) }
{
    match lexeme {
        Lexeme::Sign(Sign::Bar) => Some(Form {
            role: Role::Bar,
            wanted: &[Part::Event, Part::Bars],
        }),
        Lexeme::Sign(Sign::CloseBrace) => Some(Form {
            role: Role::Close,
            wanted: &[],
        }),
        _ => None,
    }
}

fn expression_form(lexeme: Lexeme<'_>) -> Option<Form>
    ensures { option_map form_seen result ≡ expression_form (lexeme_head lexeme.entry) }
{
    match lexeme {
        Lexeme::Name(_) | Lexeme::Inner(_) => Some(Form {
            role: Role::Whole,
            wanted: &[],
        }),
        Lexeme::Sign(Sign::Open) => Some(Form {
            role: Role::Sign(Sign::Open),
            wanted: &[Part::Inside],
        }),
        _ => None,
    }
}

fn calculation_form(lexeme: Lexeme<'_>, dotted: bool) -> Option<Form>
    ensures { option_map form_seen result ≡ operand_form true (Behind ∷ []) (lexeme_head lexeme.entry) dotted }
{
    match lexeme {
        Lexeme::Integer(_) => Some(Form {
            role: Role::Integer(true),
            wanted: &[Part::Behind],
        }),
        Lexeme::Name(_) if !dotted => Some(Form {
            role: Role::Channel(true),
            wanted: &[Part::Behind],
        }),
        Lexeme::Name(_) | Lexeme::Inner(_) => Some(Form {
            role: Role::Variable(true),
            wanted: &[
                Part::Only(Role::Sign(Sign::Dot)),
                Part::Only(Role::Place),
                Part::Behind,
            ],
        }),
        _ => None,
    }
}

fn operand_form(lexeme: Lexeme<'_>, dotted: bool) -> Option<Form>
    ensures { option_map form_seen result ≡ operand_form false [] (lexeme_head lexeme.entry) dotted }
{
    match lexeme {
        Lexeme::Integer(_) => Some(Form {
            role: Role::Integer(false),
            wanted: &[],
        }),
        Lexeme::Name(_) if !dotted => Some(Form {
            role: Role::Channel(false),
            wanted: &[],
        }),
        Lexeme::Name(_) | Lexeme::Inner(_) => Some(Form {
            role: Role::Variable(false),
            wanted: &[Part::Only(Role::Sign(Sign::Dot)), Part::Only(Role::Place)],
        }),
        _ => None,
    }
}

fn further_form(lexeme: Lexeme<'_>) -> Option<Form>
    ensures { option_map form_seen result ≡ further_form (lexeme_head lexeme.entry) }
{
    match lexeme {
        Lexeme::Sign(Sign::Comma) => Some(Form {
            role: Role::Sign(Sign::Comma),
            wanted: &[Part::Calculation],
        }),
        Lexeme::Sign(Sign::Close) => Some(Form {
            role: Role::TupleEnd,
            wanted: &[],
        }),
        _ => None,
    }
}

fn behind_form(lexeme: Lexeme<'_>) -> Option<Form>
    ensures { option_map form_seen result ≡ behind_form (lexeme_head lexeme.entry) }
{
    match lexeme {
        Lexeme::Sign(Sign::Plus) => Some(Form {
            role: Role::Sign(Sign::Plus),
            wanted: &[Part::Operand, Part::Further],
        }),
        Lexeme::Sign(Sign::Minus) => Some(Form {
            role: Role::Sign(Sign::Minus),
            wanted: &[Part::Operand, Part::Further],
        }),
        Lexeme::Sign(Sign::Star) => Some(Form {
            role: Role::Sign(Sign::Star),
            wanted: &[Part::Operand, Part::Further],
        }),
        _ => further_form(lexeme),
    }
}

fn inside_form(lexeme: Lexeme<'_>, dotted: bool) -> Option<Form>
    ensures { option_map form_seen result ≡ inside_form (lexeme_head lexeme.entry) dotted }
{
    match lexeme {
        Lexeme::Sign(Sign::Close) => Some(Form {
            role: Role::TupleEnd,
            wanted: &[],
        }),
        _ => calculation_form(lexeme, dotted),
    }
}

fn test_form(lexeme: Lexeme<'_>) -> Option<Form>
    ensures { option_map form_seen result ≡ test_form (lexeme_head lexeme.entry) }
{
    match lexeme {
        Lexeme::Sign(Sign::Equal) => Some(Form {
            role: Role::Sign(Sign::Equal),
            wanted: &[],
        }),
        Lexeme::Sign(Sign::Less) => Some(Form {
            role: Role::Sign(Sign::Less),
            wanted: &[],
        }),
        _ => None,
    }
}

fn part_form(lexeme: Lexeme<'_>) -> Option<Form>
    ensures { option_map form_seen result ≡ part_form (lexeme_head lexeme.entry) }
{
    if !is_bound(lexeme) {
        return None;
    }
    Some(Form {
        role: Role::PartName,
        wanted: &[
            Part::Only(Role::Sign(Sign::Arrow)),
            Part::Event,
            Part::Only(Role::PartEnd),
            Part::Parts,
        ],
    })
}

fn is_word(word: Word, lexeme: Lexeme<'_>) -> bool
    ensures { result ≡ is_word word (lexeme_head lexeme.entry) }
{
    match lexeme {
        Lexeme::Word(found) => is_same_word(word, found),
        _ => false,
    }
}

fn is_sign(sign: Sign, lexeme: Lexeme<'_>) -> bool
    ensures { result ≡ is_sign sign (lexeme_head lexeme.entry) }
{
    match lexeme {
        Lexeme::Sign(found) => is_same_sign(sign, found),
        _ => false,
    }
}

/// Whether it is a name or an inner name.
pub fn is_bound(lexeme: Lexeme<'_>) -> bool
    ensures { result ≡ is_bound (lexeme_head lexeme.entry) }
{
    match lexeme {
        Lexeme::Name(_) | Lexeme::Inner(_) => true,
        _ => false,
    }
}

// 0, 1, 2 or 3.
#[tactic(auto, unfolding(crate::specs::NameReads::integer_read))]
fn is_small(digits: &[u8]) -> bool
    ensures { result ≡ is_small (integer_value digits.now) }
{
    match integer(digits) {
        Some(0) => true,
        Some(1) => true,
        Some(2) => true,
        Some(3) => true,
        _ => false,
    }
}

fn is_place(lexeme: Lexeme<'_>) -> bool
    ensures { result ≡ is_place (lexeme_head lexeme.entry) }
{
    match lexeme {
        Lexeme::Integer(digits) => is_small(digits),
        _ => false,
    }
}

// Whether a token may have a role that stands alone.
fn fits(role: Role, lexeme: Lexeme<'_>, dotted: bool) -> bool
    ensures { result ≡ fits role (lexeme_head lexeme.entry) dotted }
{
    match role {
        Role::Word(w) | Role::Leaf(w) | Role::Chain(w) | Role::Branch(w) => is_word(w, lexeme),
        Role::Sign(g) => is_sign(g, lexeme),
        Role::Fresh => is_word(Word::Fresh, lexeme),
        Role::ThreadWord => is_word(Word::Thread, lexeme),
        Role::EmitWord => is_word(Word::Emit, lexeme),
        Role::RepeatWord => is_word(Word::Repeat, lexeme),
        Role::SyncWord => is_word(Word::Sync, lexeme),
        Role::SyncEnd | Role::PartEnd => is_sign(Sign::Semicolon, lexeme),
        Role::OpenChain | Role::OpenBranch => is_sign(Sign::OpenBrace, lexeme),
        Role::Close => is_sign(Sign::CloseBrace, lexeme),
        Role::Bar => is_sign(Sign::Bar, lexeme),
        Role::TupleEnd => is_sign(Sign::Close, lexeme),
        Role::PartName | Role::CatchName | Role::Whole => is_bound(lexeme),
        Role::Place => is_place(lexeme),
        Role::ChannelName | Role::ThreadName | Role::Register => match lexeme {
            Lexeme::Name(_) => true,
            _ => false,
        },
        Role::Times | Role::Integer(_) => match lexeme {
            Lexeme::Integer(_) => true,
            _ => false,
        },
        Role::Channel(_) => match lexeme {
            Lexeme::Name(_) => !dotted,
            _ => false,
        },
        Role::Variable(_) => match lexeme {
            Lexeme::Name(_) => dotted,
            Lexeme::Inner(_) => true,
            _ => false,
        },
        Role::End => match lexeme {
            Lexeme::End => true,
            _ => false,
        },
    }
}

// A token that stands alone.
fn alone_form(role: Role, lexeme: Lexeme<'_>, dotted: bool) -> Option<Form>
    ensures { option_map form_seen result ≡ alone_form role (fits role (lexeme_head lexeme.entry) dotted) }
{
    if !fits(role, lexeme, dotted) {
        return None;
    }
    Some(Form { role, wanted: &[] })
}

/// The form of a part that a token begins, but for an event behind the parts of a `do`.
#[tactic(auto, unfolding(crate::specs::Runs::pick_plain))]
pub fn pick(part: Part, lexeme: Lexeme<'_>, dotted: bool) -> Option<Form>
    ensures { option_map form_seen result ≡ pick_plain part (lexeme_head lexeme.entry) dotted }
{
    match part {
        Part::Script => script_form(lexeme),
        Part::Channels => channels_form(lexeme),
        Part::Threads => threads_form(lexeme),
        Part::Statements => statements_form(lexeme),
        Part::Sync => sync_form(lexeme),
        Part::Syncs => syncs_form(lexeme),
        Part::Event => event_form(lexeme),
        Part::Parts => part_form(lexeme),
        Part::Bars => bars_form(lexeme),
        Part::Expression => expression_form(lexeme),
        Part::Inside => inside_form(lexeme, dotted),
        Part::Calculation => calculation_form(lexeme, dotted),
        Part::Behind => behind_form(lexeme),
        Part::Further => further_form(lexeme),
        Part::Operand => operand_form(lexeme, dotted),
        Part::Test => test_form(lexeme),
        Part::Only(role) => alone_form(role, lexeme, dotted),
    }
}
