// Whether a commit may follow.

ghost use Rattle.std.specs.Prelude.{ℕ, List, false, ◌≡◌, ◌≢◌, ◌↔◌, ◌⊎◌, ◌<◌, ◌≤◌, [], ◌∷◌, length, slice_get, IfOk, IfErr, IfSome, IfNone, IsTrue};
ghost use Rattle.te_cert.specs.declared.cert.Member.{Member as Party};
ghost use Rattle.te_cert.specs.declared.cert.CertFault.TheVariants as unsound;
ghost use Rattle.te_terms.specs.Limits.{most_threads};
ghost use Rattle.te_terms.specs.Terms.{Term};
ghost use Rattle.te_cert.specs.Lending.{lent_terms, AreLent};
ghost use Rattle.te_cert.specs.Checks.{ThreadsRise, Gives};
ghost use Rattle.te_history.specs.declared.entry.StepFault.TheVariants as faults;
ghost use Rattle.te_history.specs.declared.status.Status.{Status as Stance};
ghost use Rattle.te_history.specs.declared.status.Status.TheVariants.{Parked};
ghost use Rattle.te_history.specs.Histories.{now, HasStatus};
ghost use Rattle.te_history.specs.Follows.{Commits};
ghost use Rattle.te_history.specs.Refusals.{
  AreCallers,
  AreAllParked,
  AreParked,
  IsFirstStranger,
  IsFirstStale,
  IsFirstOther,
  CanPlay,
  IsPlayed,
  RefusesMembers,
  RefusesPlay,
  RefusesCommit,
  IsUnordered,
  IsUnsound,
};

use crate::entry::StepFault;
use crate::history::Hist;
use crate::same::is_same;
use crate::status::Status;
use std::alloc::Global;
use te_cert::{Cert, CertFault, Lent, Member, Room, check_in};
use te_terms::{NoMemory, Outcome, Rows};

fn rises(members: &[Member]) -> bool
    ensures { IsTrue result ↔ ThreadsRise members.now }
{
    for i in 1..members.len() {
        if members[i].thread <= members[i - 1].thread {
            return false;
        }
    }
    true
}

fn ordered(members: &[Member]) -> Result<(), StepFault>
    ensures ok { IfOk result (λ _. (members.now ≢ []) × ThreadsRise members.now) }
    ensures refused { IfErr result (λ fault. IsUnordered members.now fault) }
{
    if members.is_empty() {
        Err(StepFault::Unsound(CertFault::Empty))
    } else if !rises(members) {
        Err(StepFault::Unsound(CertFault::Order))
    } else {
        Ok(())
    }
}

fn are_callers(members: &[Member], callers: u32) -> Result<(), StepFault>
    requires { ThreadsRise members.now }
    ensures ok { IfOk result (λ _. AreCallers callers members.now) }
    ensures refused { IfErr result (λ fault. (i : ℕ) × (fault ≡ faults.Stranger i) × IsFirstStranger callers members.now i) }
{
    for i in 0..members.len() {
        if members[i].thread >= callers {
            return Err(StepFault::Stranger(i as u32));
        }
    }
    Ok(())
}

fn is_parked_under(status: &Status, ticket: u32) -> bool
    ensures { IsTrue result ↔ (status.now ≡ Parked ticket) }
{
    match status {
        Status::Parked(under) => *under == ticket,
        _ => false,
    }
}

fn are_parked(hist: &Hist, members: &[Member]) -> Result<(), StepFault>
    requires rise { ThreadsRise members.now }
    requires callers { AreCallers hist.now.callers members.now }
    requires few { hist.now.callers ≤ most_threads }
    ensures ok { IfOk result (λ _. AreAllParked (now hist.now) members.now) }
    ensures refused { IfErr result (λ fault. (i : ℕ) × (status : Stance) × (fault ≡ faults.Stale i status) × IsFirstStale (now hist.now) members.now i status) }
{
    for i in 0..members.len() {
        let member = &members[i];
        let status = hist.status(member.thread);
        if !is_parked_under(&status, member.ticket) {
            return Err(StepFault::Stale(i as u32, status));
        }
    }
    Ok(())
}

// The parts of the members' events where they lie, in order.
fn lents_of<'a>(
    alloc: Global,
    hist: &'a Hist,
    members: &[Member],
) -> Result<Vec<Lent<'a>>, NoMemory>
    requires { AreAllParked (now hist.now) members.now }
    ensures parked { IfOk result (λ lents. AreParked (now hist.now) members.now (lent_terms lents.items)) }
    ensures lent { IfOk result (λ lents. AreLent lents.items) }
{
    let mut lents = Vec::with_capacity(alloc, members.len())?;
    for i in 0..members.len() {
        lents.push(Lent::of(hist.parked_event(members[i].thread)))?;
    }
    Ok(lents)
}

// The first place at which the two lists differ, or at which only one of them goes on.
fn first_other(outcomes: &[Outcome], played: &[Outcome]) -> Option<usize>
    ensures some { IfSome result (λ i. IsFirstOther outcomes.now played.now i) }
    ensures within { IfSome result (λ i. i ≤ length played.now) }
    ensures none { IfNone result (outcomes.now ≡ played.now) }
{
    for i in 0..played.len() {
        let Some(outcome) = outcomes.get(i) else {
            return Some(i);
        };
        if !is_same(outcome, &played[i]) {
            return Some(i);
        }
    }
    if played.len() < outcomes.len() {
        Some(played.len())
    } else {
        None
    }
}

fn unsound(fault: CertFault) -> StepFault
    ensures { IsUnsound fault result }
{
    match fault {
        CertFault::Memory => StepFault::Memory,
        _ => StepFault::Unsound(fault),
    }
}

// Whether the members of a certificate can play: whether they are in order, callers, and parked under their tickets.
fn can_play(hist: &Hist, cert: &Cert) -> Result<(), StepFault>
    ensures ok { IfOk result (λ _. CanPlay hist.now.callers (now hist.now) cert.now) }
    ensures few { IfOk result (λ _. hist.now.callers ≤ most_threads) }
    ensures refused { IfErr result (λ fault. RefusesMembers hist.now.callers (now hist.now) cert.now fault) }
{
    // The checker knows the types within a fault only where the body names them.
    let _named: Option<(Status, Outcome)> = None;
    let members = cert.members.as_slice();
    ordered(members)?;
    are_callers(members, hist.callers())?;
    are_parked(hist, members)
}

/// The outcomes of a commit of this certificate, by one play, in order of the members: a commit by a caller with these
/// outcomes follows a history, on a running board.
///
/// The refusals are those of such a commit but `Result`, in the same order: `Unsound` of `Empty`, then of `Order`;
/// `Stranger`; `Stale`; `Unsound` of what else the check finds, which is never want of memory. `Memory` is want of
/// memory, which comes once the members are known to be parked. Nothing is changed. This project's own.
#[doc(hidden)]
pub fn play_commit(alloc: Global, hist: &Hist, cert: &Cert) -> Result<Rows<Outcome>, StepFault>
    ensures ok { IfOk result (λ outcomes. Commits (now hist.now) cert.now outcomes) }
    ensures played { IfOk result (λ outcomes. IsPlayed (now hist.now) cert.now outcomes) }
    ensures few { IfOk result (λ outcomes. length outcomes ≤ most_threads) }
    ensures refused { IfErr result (λ fault. RefusesPlay hist.now.callers (now hist.now) cert.now fault) }
{
    match can_play(hist, cert) {
        Ok(()) => {}
        Err(fault) => return Err(fault),
    }
    let Ok(lents) = lents_of(alloc, hist, cert.members.as_slice()) else {
        return Err(StepFault::Memory);
    };
    match check_in(alloc, &mut Room::new(alloc), cert, &lents) {
        Ok(played) => Ok(played),
        Err(fault) => Err(unsound(fault)),
    }
}

/// Whether a commit by a caller of this certificate with these outcomes follows a history, on a running board, where the
/// outcomes are known to be those of its play. It plays nothing and takes no memory. Condition: the play of the
/// certificate on the events that its members are parked with gives the outcomes.
///
/// The refusals are those of such a commit that come before its play, in the same order: `Unsound` of `Empty`, then of
/// `Order`; `Stranger`; `Stale`. Nothing is changed. This project's own.
#[doc(hidden)]
pub fn may_commit_played(hist: &Hist, cert: &Cert, outcomes: &[Outcome]) -> Result<(), StepFault>
    requires plays { (events : List Term) → AreParked (now hist.now) cert.now.members events → Gives cert.now events outcomes.now }
    ensures ok { IfOk result (λ _. Commits (now hist.now) cert.now outcomes.now) }
    ensures refused { IfErr result (λ fault. RefusesMembers hist.now.callers (now hist.now) cert.now fault) }
{
    // The outcomes are read by the contract alone.
    let _ = outcomes;
    can_play(hist, cert)
}

/// Whether a commit of this certificate with these outcomes follows a history, on a running board.
pub(crate) fn may_commit(
    alloc: Global,
    hist: &Hist,
    cert: &Cert,
    outcomes: &[Outcome],
) -> Result<(), StepFault>
    ensures ok { IfOk result (λ _. Commits (now hist.now) cert.now outcomes.now) }
    ensures refused { IfErr result (λ fault. RefusesCommit hist.now.callers (now hist.now) cert.now outcomes.now fault) }
{
    let played = play_commit(alloc, hist, cert)?;
    match first_other(outcomes, played.as_slice()) {
        Some(i) => Err(StepFault::Result(i as u32)),
        None => Ok(()),
    }
}
