ghost use Rattle.std.specs.Prelude.{◌≡◌, ◌<◌, ◌≤◌, length, take, Some, slice_get, is_some, filter_map, IfOk};
ghost use Rattle.std.specs.Option.{option_map, option_copied};
ghost use Rattle.te_forms.specs.Privacy.{IsPrivate};
ghost use Rattle.te_forms.specs.Handing.{CommitAt, state_before, AreHanded, EachOnce, NobodyElse, GoRound, AreGiven, AreEven};
ghost use Rattle.te_forms.specs.Reading.{posted_by, last_posted, form_at, marks_of, pair_in};

use crate::entries::entry_at;
use crate::pair::Handed;
use crate::reading::form_of;
use crate::ring::Ring;
use std::alloc::Global;
use te_cert::{Cert, Meeting, Member};
use te_history::{Entry, Hist};
use te_terms::{Event, NoMemory, Rows};

// The event that the thread posts by the entry.
fn posted(entry: &Entry, thread: u32) -> Option<&Event>
    ensures { option_copied result ≡ posted_by thread entry.now }
{
    match entry {
        Entry::Post { by, event, .. } => { if *by == thread { Some(event) } else { None } }
        _ => None,
    }
}

// The event of a thread's last post among the first `n` entries.
fn last_post(hist: &Hist, n: u64, thread: u32) -> Option<&Event>
    requires { n ≤ length hist.now.entries }
    ensures { option_copied result ≡ last_posted thread (take n hist.now.entries) }
{
    let mut k = n;
    while k > 0 {
        k -= 1;
        match posted(entry_at(hist, k), thread) {
            Some(event) => return Some(event),
            None => {}
        }
    }
    None
}

// Whether that event is a form's over the ring.
fn is_marked(hist: &Hist, n: u64, ring: &Ring, thread: u32) -> bool
    requires { n ≤ length hist.now.entries }
    ensures { is_some (form_at ring.now (take n hist.now.entries) thread) ≡ result }
{
    let Some(event) = last_post(hist, n, thread) else {
        return false;
    };
    match form_of(event, ring) {
        Some(_) => true,
        None => false,
    }
}

fn thread_at(members: &[Member], i: usize) -> u32
    requires { i < length members.now }
    ensures { option_map (λ m. m.thread) (slice_get members.now i) ≡ Some result }
{
    members[i].thread
}

fn meeting_at(meetings: &[Meeting], i: usize) -> Meeting
    requires { i < length meetings.now }
    ensures { slice_get meetings.now i ≡ Some result }
{
    meetings[i]
}

// Which members' events are forms' over the ring.
fn marks(
    alloc: Global,
    hist: &Hist,
    n: u64,
    ring: &Ring,
    members: &[Member],
) -> Result<Vec<bool>, NoMemory>
    requires { n ≤ length hist.now.entries }
    ensures { IfOk result (λ marks. marks.items ≡ marks_of ring.now (take n hist.now.entries) members.now) }
{
    let mut marks = Vec::with_capacity(alloc, members.len())?;
    for i in 0..members.len() {
        marks.push(is_marked(hist, n, ring, thread_at(members, i)))?;
    }
    Ok(marks)
}

fn pair(members: &[Member], marks: &[bool], meeting: Meeting) -> Option<Handed>
    ensures { pair_in members.now marks.now meeting ≡ result }
{
    let sender = meeting.sender as usize;
    let receiver = meeting.receiver as usize;
    let (Some(true), Some(true)) = (marks.get(sender), marks.get(receiver)) else {
        return None;
    };
    let (Some(giver), Some(taker)) = (members.get(sender), members.get(receiver)) else {
        return None;
    };
    Some(Handed {
        giver: giver.thread,
        taker: taker.thread,
    })
}

// The pairs of the meetings between members that are marked.
fn pairs(
    alloc: Global,
    members: &[Member],
    marks: &[bool],
    meetings: &[Meeting],
) -> Result<Rows<Handed>, NoMemory>
    ensures { IfOk result (λ pairs. pairs ≡ filter_map (pair_in members.now marks.now) meetings.now) }
{
    let mut pairs = Rows::new(alloc);
    for i in 0..meetings.len() {
        if let Some(handed) = pair(members, marks, meeting_at(meetings, i)) {
            pairs.push(handed)?;
        }
    }
    Ok(pairs)
}

// The certificate of the commit that is entry `n`.
fn certificate_at(hist: &Hist, n: u64) -> &Cert
    requires { CommitAt hist.now n }
    ensures { (c : CommitAt hist.now n) → c.cert ≡ result.now }
{
    match entry_at(hist, n) {
        Entry::Commit { cert, .. } => cert,
        _ => unreachable!(),
    }
}

/// Who hands on to whom in entry `n`, from 0, by threads: a pair for each meeting between form members, in the
/// certificate's order. A form member's event is a swap or a barrier over the ring. Conditions: the entry is a commit,
/// and the history keeps the ring private.
///
/// Each form member is giver once and taker once, and nobody else stands in a pair. The taker's role comes after the
/// giver's, and after the last role 0, so nobody takes from himself. A swap comes to its giver's offer, a barrier to ().
/// Where there is a form member each role has the same number of them. The one refusal is want of memory. This
/// project's own.
pub fn handed(alloc: Global, hist: &Hist, n: u64, ring: &Ring) -> Result<Rows<Handed>, NoMemory>
    requires commit { CommitAt hist.now n }
    requires private { IsPrivate ring.now hist.now.entries }
    ensures meetings { IfOk result (λ pairs. (c : CommitAt hist.now n) → AreHanded ring.now (state_before hist.now n) c.cert.members c.cert.meets pairs) }
    ensures once { IfOk result (λ pairs. (c : CommitAt hist.now n) → EachOnce ring.now (state_before hist.now n) c.cert.members pairs) }
    ensures nobody_else { IfOk result (λ pairs. (c : CommitAt hist.now n) → NobodyElse ring.now (state_before hist.now n) c.cert.members pairs) }
    ensures round { IfOk result (λ pairs. (c : CommitAt hist.now n) → GoRound ring.now (state_before hist.now n) c.cert.members pairs) }
    ensures given { IfOk result (λ pairs. (c : CommitAt hist.now n) → AreGiven ring.now (state_before hist.now n) c.cert.members c.outcomes pairs) }
    ensures even { (c : CommitAt hist.now n) → AreEven ring.now (state_before hist.now n) c.cert.members }
{
    // Every history is loose, and every ring one.
    let _ = hist.len();
    let _ = ring.len();
    let cert = certificate_at(hist, n);
    let members = cert.members.as_slice();
    let meetings = cert.meets.as_slice();
    let marked = marks(alloc, hist, n, ring, members)?;
    let marked = marked.as_slice();
    pairs(alloc, members, marked, meetings)
}
