ghost use Rattle.std.specs.Prelude.{◌≡◌, ◌++◌, OnOk};
ghost use Rattle.std.specs.List.{flat_map};
ghost use Rattle.te_report.specs.Report.{letter, member_text, other_members, members_text, member_name, meeting_text};

use crate::values::{put_number, put_outcome, thread_name};
use te_cert::{Meeting, Member};
use te_script::Script;
use te_terms::{NoMemory, Outcome};

fn put_choices(out: &mut Vec<u8>, choices: &[bool]) -> Result<(), NoMemory>
    ensures { OnOk result (out.new.items ≡ out.old.items ++ flat_map letter choices.now) }
{
    for left in choices {
        out.extend_from_slice(if *left { b"L" } else { b"R" })?;
    }
    Ok(())
}

fn put_member(
    out: &mut Vec<u8>,
    script: &Script,
    member: &Member,
    outcome: &Outcome,
) -> Result<(), NoMemory>
    ensures { OnOk result (out.new.items ≡ out.old.items ++ member_text script.now member.now outcome.now) }
{
    out.extend_from_slice(thread_name(script, member.thread))?;
    out.extend_from_slice(b".")?;
    put_number(out, member.ticket as u64)?;
    out.extend_from_slice(b"[")?;
    put_choices(out, member.choices.as_slice())?;
    out.extend_from_slice(b"]")?;
    put_outcome(out, script, outcome)
}

/// Appends the members with their outcomes, each after a space.
#[tactic(auto, using(crate::proofs::ListRests::rests))]
fn put_other_members(
    out: &mut Vec<u8>,
    script: &Script,
    members: &[Member],
    outcomes: &[Outcome],
) -> Result<(), NoMemory>
    ensures { OnOk result (out.new.items ≡ out.old.items ++ other_members script.now members.now outcomes.now) }
{
    for (i, member) in members.iter().enumerate() {
        let Some(outcome) = outcomes.get(i) else {
            return Ok(());
        };
        out.extend_from_slice(b" ")?;
        put_member(out, script, member, outcome)?;
    }
    Ok(())
}

pub(crate) fn put_members(
    out: &mut Vec<u8>,
    script: &Script,
    members: &[Member],
    outcomes: &[Outcome],
) -> Result<(), NoMemory>
    ensures { OnOk result (out.new.items ≡ out.old.items ++ members_text script.now members.now outcomes.now) }
{
    if let ([member, other_members @ ..], [outcome, other_outcomes @ ..]) = (members, outcomes) {
        put_member(out, script, member, outcome)?;
        put_other_members(out, script, other_members, other_outcomes)?;
    }
    Ok(())
}

/// The name of the member at a place; that of thread 0 where there is no such place.
fn name_of_member<'a>(script: &'a Script, members: &[Member], place: u32) -> &'a [u8]
    ensures { result.now ≡ member_name script.now members.now place }
{
    let thread = match members.get(place as usize) {
        Some(member) => member.thread,
        None => 0,
    };
    thread_name(script, thread)
}

pub(crate) fn put_meetings(
    out: &mut Vec<u8>,
    script: &Script,
    members: &[Member],
    meetings: &[Meeting],
) -> Result<(), NoMemory>
    ensures { OnOk result (out.new.items ≡ out.old.items ++ flat_map (meeting_text script.now members.now) meetings.now) }
{
    for meeting in meetings {
        out.extend_from_slice(b" ")?;
        out.extend_from_slice(name_of_member(script, members, meeting.sender))?;
        out.extend_from_slice(b">")?;
        out.extend_from_slice(name_of_member(script, members, meeting.receiver))?;
    }
    Ok(())
}
