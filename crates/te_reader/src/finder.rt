ghost use Rattle.std.specs.Prelude.{◌≡◌, [], ◌∷◌, ◌++◌, length, nat_le, IfOk, OnOk};
ghost use Rattle.std.specs.Option.{option_map};
ghost use Rattle.te_reader.specs.declared.part.Part.TheVariants.{Script};
ghost use Rattle.te_reader.specs.Spots.{spots};
ghost use Rattle.te_reader.specs.Rules.{nothing_before};
ghost use Rattle.te_reader.specs.Faults.{misfit};
ghost use Rattle.te_reader.specs.Runs.{pick, run, fault_of};
ghost use Rattle.te_reader.specs.Finding.{lexeme_head, is_end, is_last, IsPickedAs, found_of};

use crate::cause::{Cause, Which};
use crate::context::Context;
use crate::form::{Form, is_bound, pick};
use crate::part::{Part, Role};
use crate::scanner::Scanner;
use crate::stack::Stack;
use crate::token::Lexeme;
use std::alloc::Global;
use te_terms::NoMemory;

/// What is wrong with a text, and how many bytes are left from there on.
#[derive(Clone, Copy)]
pub struct Found {
    pub cause: Cause,
    pub left: usize,
}

// What it is called where no role fits.
fn misfit(lexeme: Lexeme<'_>) -> Cause
    ensures { result ≡ misfit (lexeme_head lexeme.entry) }
{
    match lexeme {
        Lexeme::Other(b) => {
            if b >= 33 && b <= 126 {
                Cause::Token
            } else {
                Cause::Bytes
            }
        }
        _ => Cause::Syntax,
    }
}

// Whether nothing stands behind it.
fn is_end(lexeme: Lexeme<'_>) -> bool
    ensures { result ≡ is_end (lexeme_head lexeme.entry) }
{
    match lexeme {
        Lexeme::End | Lexeme::Other(_) => true,
        _ => false,
    }
}

// Whether it is the last event behind the parts of a `do`.
fn is_last(part: Part, lexeme: Lexeme<'_>) -> bool
    ensures { result ≡ is_last part (lexeme_head lexeme.entry) }
{
    match part {
        Part::Parts => !is_bound(lexeme),
        _ => false,
    }
}

// The form of a part that was wanted.
fn next_form(
    wanted: &mut Stack<Part>,
    part: Part,
    lexeme: Lexeme<'_>,
    dotted: bool,
) -> Result<Option<Form>, NoMemory>
    ensures { IfOk result (λ o. IsPickedAs o wanted.old wanted.new (pick part (lexeme_head lexeme.entry) dotted)) }
{
    if is_last(part, lexeme) {
        wanted.push(Part::Only(Role::Close))?;
        return Ok(pick(Part::Event, lexeme, dotted));
    }
    Ok(pick(part, lexeme, dotted))
}

// These parts are wanted before the others.
fn want(wanted: &mut Stack<Part>, parts: &[Part]) -> Result<(), NoMemory>
    ensures { OnOk result (wanted.new ≡ parts.now ++ wanted.old) }
{
    let mut i = parts.len();
    while i > 0 {
        i -= 1;
        wanted.push(parts[i])?;
    }
    Ok(())
}

// The fault of a text of any length, from what is wanted and stands before at its beginning. It is lent both, and so has
// nothing to drop where it returns.
fn find_in<'a>(
    text: &'a [u8],
    wanted: &mut Stack<Part>,
    context: &mut Context<'a>,
) -> Result<Option<Found>, NoMemory>
    requires wanted { wanted.old ≡ Script ∷ [] }
    requires before { context.old ≡ nothing_before }
    ensures { IfOk result (λ o. option_map found_of o ≡ run (Script ∷ []) nothing_before (spots text.now)) }
{
    let mut scanner = Scanner::new(text);
    'tokens: loop {
        let here = scanner.look();
        let Some(part) = wanted.pop() else {
            return Ok(Some(Found {
                cause: misfit(here.lexeme),
                left: here.left,
            }));
        };
        let Some(form) = next_form(wanted, part, here.lexeme, here.dotted)? else {
            return Ok(Some(Found {
                cause: misfit(here.lexeme),
                left: here.left,
            }));
        };
        if let Some(cause) = context.fault(form.role, here.lexeme) {
            return Ok(Some(Found {
                cause,
                left: here.left,
            }));
        }
        context.pass(form.role, here.lexeme)?;
        want(wanted, form.wanted)?;
        if is_end(here.lexeme) {
            return Ok(None);
        }
        scanner.advance();
    }
}

// The fault of a text of any length.
fn find(alloc: Global, text: &[u8]) -> Result<Option<Found>, NoMemory>
    ensures { IfOk result (λ o. option_map found_of o ≡ run (Script ∷ []) nothing_before (spots text.now)) }
{
    let mut wanted = Stack::new(alloc);
    wanted.push(Part::Script)?;
    let mut context = Context::new(alloc);
    find_in(text, &mut wanted, &mut context)
}

/// The fault of a text, if it has one.
#[tactic(auto, unfolding(crate::specs::Runs::fault_of))]
pub fn fault_of(alloc: Global, text: &[u8]) -> Result<Option<Found>, NoMemory>
    ensures { IfOk result (λ o. option_map found_of o ≡ fault_of text.now) }
{
    if text.len() > 1_048_576 {
        return Ok(Some(Found {
            cause: Cause::Limit(Which::Bytes),
            left: text.len(),
        }));
    }
    find(alloc, text)
}
