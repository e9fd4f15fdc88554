// Commits as a line tells them.

ghost use Rattle.std.specs.Prelude.{◌≡◌, ◌≤◌, ◌<◌, ◌^◌, ◌==◌, length, map, IfOk, IfSome};
ghost use Rattle.std.specs.List.{position};
ghost use Rattle.te_report.specs.Sayings.{said_choices, said_member, said_gets, said_members, said_outcomes, said_meeting, said_meets, said_place, words};

use crate::cutting::{behind, cut, up_to};
use crate::names::{Called, thread};
use crate::numbers::ticket;
use crate::values_told::read_outcome;
use std::alloc::Global;
use te_cert::{Meeting, Member};
use te_terms::{NoMemory, Outcome, Rows};

fn read_choices(alloc: Global, letters: &[u8]) -> Result<Rows<bool>, NoMemory>
    ensures { IfOk result (λ choices. choices ≡ said_choices letters.now) }
{
    let mut choices = Rows::new(alloc);
    for letter in letters {
        choices.push(*letter == b'L')?;
    }
    Ok(choices)
}

fn read_member(alloc: Global, called: &Called, word: &[u8]) -> Result<Member, NoMemory>
    requires threads { length called.now.threads ≤ 64 }
    ensures { IfOk result (λ member. member ≡ said_member called.now word.now) }
{
    let (name, tail) = cut(word, b'.');
    let (under, tail) = cut(tail, b'[');
    let choices = read_choices(alloc, up_to(tail, b']'))?;
    Ok(Member {
        thread: thread(called, name),
        ticket: ticket(under),
        choices,
    })
}

// What a member gets.
fn read_gets(called: &Called, word: &[u8]) -> Outcome
    requires threads { length called.now.threads ≤ 64 }
    requires channels { length called.now.channels ≤ 256 }
    ensures { result ≡ said_gets called.now word.now }
{
    read_outcome(called, behind(behind(behind(word, b'.'), b'['), b']'))
}

/// The members that spaces separate.
pub(crate) fn read_members(
    alloc: Global,
    called: &Called,
    text: &[u8],
) -> Result<Rows<Member>, NoMemory>
    requires threads { length called.now.threads ≤ 64 }
    ensures value { IfOk result (λ members. members ≡ said_members called.now text.now) }
    ensures few { IfOk result (λ members. length members ≤ length text.now) }
{
    let mut members = Rows::new(alloc);
    let mut rest = text;
    'words: while !rest.is_empty() {
        let (word, next) = cut(rest, b' ');
        members.push(read_member(alloc, called, word)?)?;
        rest = next;
    }
    Ok(members)
}

/// What the members get that spaces separate.
pub(crate) fn read_outcomes(
    alloc: Global,
    called: &Called,
    text: &[u8],
) -> Result<Rows<Outcome>, NoMemory>
    requires threads { length called.now.threads ≤ 64 }
    requires channels { length called.now.channels ≤ 256 }
    ensures { IfOk result (λ outcomes. outcomes ≡ said_outcomes called.now text.now) }
{
    let mut outcomes = Rows::new(alloc);
    let mut rest = text;
    'words: while !rest.is_empty() {
        let (word, next) = cut(rest, b' ');
        outcomes.push(read_gets(called, word))?;
        rest = next;
    }
    Ok(outcomes)
}

// The first place of a thread among the members, where it is one.
fn first_place(members: &[Member], t: u32) -> Option<usize>
    ensures value { result ≡ position (λ m. m.thread == t) members.now }
    ensures below { IfSome result (λ i. i < length members.now) }
{
    members.iter().position(|m| m.thread == t)
}

// The first place of a thread among the members; 0 where it is none.
#[tactic(auto, unfolding(crate::specs::Sayings::said_place))]
fn place_of(members: &[Member], t: u32) -> u32
    requires { length members.now < 2 ^ 32 }
    ensures { result ≡ said_place members.now t }
{
    match first_place(members, t) {
        Some(i) => i as u32,
        None => 0,
    }
}

fn read_meeting(called: &Called, members: &[Member], word: &[u8]) -> Meeting
    requires threads { length called.now.threads ≤ 64 }
    requires few { length members.now < 2 ^ 32 }
    ensures { result ≡ said_meeting called.now members.now word.now }
{
    let (sender, receiver) = cut(word, b'>');
    Meeting {
        sender: place_of(members, thread(called, sender)),
        receiver: place_of(members, thread(called, receiver)),
    }
}

// The meetings that spaces separate.
fn read_some_meets(
    alloc: Global,
    called: &Called,
    members: &[Member],
    text: &[u8],
) -> Result<Rows<Meeting>, NoMemory>
    requires threads { length called.now.threads ≤ 64 }
    requires few { length members.now < 2 ^ 32 }
    ensures value { IfOk result (λ meets. meets ≡ map (said_meeting called.now members.now) (words 32 text.now)) }
    ensures few { IfOk result (λ meets. length meets ≤ length text.now) }
{
    let mut meets = Rows::new(alloc);
    let mut rest = text;
    'words: while !rest.is_empty() {
        let (word, next) = cut(rest, b' ');
        meets.push(read_meeting(called, members, word))?;
        rest = next;
    }
    Ok(meets)
}

/// The meetings that spaces separate; none where nobody is a member.
pub(crate) fn read_meets(
    alloc: Global,
    called: &Called,
    members: &[Member],
    text: &[u8],
) -> Result<Rows<Meeting>, NoMemory>
    requires threads { length called.now.threads ≤ 64 }
    requires few { length members.now < 2 ^ 32 }
    ensures value { IfOk result (λ meets. meets ≡ said_meets called.now members.now text.now) }
    ensures few { IfOk result (λ meets. length meets ≤ length text.now) }
{
    match members {
        [] => Ok(Rows::new(alloc)),
        [_, ..] => read_some_meets(alloc, called, members, text),
    }
}
