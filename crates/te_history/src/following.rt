ghost use Rattle.std.specs.Prelude.{ℕ, false, ◌≡◌, ◌≢◌, ◌↔◌, ◌⊎◌, ◌<◌, ◌≤◌, [], ◌∷◌, length, slice_get, IfOk, IfErr, IfSome, IfNone, IsTrue};
ghost use Rattle.std.specs.List.{AllByRecursion};
ghost use Rattle.te_terms.specs.Terms.{Term};
ghost use Rattle.te_history.specs.declared.entry.StepFault.TheVariants as faults;
ghost use Rattle.te_history.specs.declared.status.Status.TheVariants.{Idle, Parked, Given, Ended};
ghost use Rattle.te_history.specs.State.{idle, parked, given, posts_by};
ghost use Rattle.te_history.specs.Follows.{IsRunning, Stands, MayEndAs, IsParkedOrEnded, LooselyFollows};
ghost use Rattle.te_history.specs.Histories.{now, HasStatus};
ghost use Rattle.te_history.specs.Refusals.{IsRefused, IsEndEntry, IsNotParked, RefusesPost, RefusesWithdraw, RefusesTake, RefusesRest, RefusesStuck, RefusesEnd, IsFirstLive};

use crate::committing::may_commit;
use crate::entry::{Entry, StepFault};
use crate::history::Hist;
use crate::same::is_same;
use crate::status::{How, Phase, Status};
use std::alloc::Global;
use te_terms::Outcome;

fn is_stuck(hist: &Hist) -> bool
    ensures { result ≡ (now hist.now).stuck }
{
    match hist.phase() {
        Phase::Stuck => true,
        Phase::Running => false,
    }
}

fn may_post(hist: &Hist, by: u32, ticket: u32) -> Result<(), StepFault>
    requires { by < hist.now.callers }
    ensures ok { IfOk result (λ _. Stands (now hist.now) by idle × (ticket ≡ posts_by by hist.now.entries)) }
    ensures refused { IfErr result (λ fault. RefusesPost (now hist.now) (posts_by by hist.now.entries) by ticket fault) }
{
    match hist.status(by) {
        Status::Idle => {
            let needed = hist.posts(by);
            if ticket == needed {
                Ok(())
            } else {
                Err(StepFault::Ticket(needed))
            }
        }
        status => Err(StepFault::Other(status)),
    }
}

fn may_withdraw(hist: &Hist, by: u32, ticket: u32) -> Result<(), StepFault>
    requires { by < hist.now.callers }
    ensures ok { IfOk result (λ _. (event : Term) × Stands (now hist.now) by (parked ticket event)) }
    ensures refused { IfErr result (λ fault. RefusesWithdraw (now hist.now) by ticket fault) }
{
    match hist.status(by) {
        Status::Parked(needed) => {
            if ticket == needed {
                Ok(())
            } else {
                Err(StepFault::Ticket(needed))
            }
        }
        status => Err(StepFault::Other(status)),
    }
}

fn may_take(hist: &Hist, by: u32, ticket: u32, outcome: &Outcome) -> Result<(), StepFault>
    requires { by < hist.now.callers }
    ensures ok { IfOk result (λ _. Stands (now hist.now) by (given ticket outcome.now)) }
    ensures refused { IfErr result (λ fault. RefusesTake (now hist.now) by ticket outcome.now fault) }
{
    match hist.status(by) {
        Status::Given(needed, due) => {
            if ticket != needed {
                Err(StepFault::Ticket(needed))
            } else if is_same(outcome, &due) {
                Ok(())
            } else {
                Err(StepFault::Result(0))
            }
        }
        status => Err(StepFault::Other(status)),
    }
}

fn may_rest(hist: &Hist) -> Result<(), StepFault>
    ensures ok { IfOk result (λ _. (now hist.now).resting ≡ false) }
    ensures refused { IfErr result (λ fault. RefusesRest (now hist.now) fault) }
{
    if hist.resting() {
        Err(StepFault::Resting)
    } else {
        Ok(())
    }
}

fn may_end(hist: &Hist, by: u32, how: &How) -> Result<(), StepFault>
    requires { by < hist.now.callers }
    ensures ok { IfOk result (λ _. MayEndAs (now hist.now) by how.now) }
    ensures refused { IfErr result (λ fault. RefusesEnd (now hist.now) by how.now fault) }
{
    let stuck = is_stuck(hist);
    let status = hist.status(by);
    match how {
        How::Stuck => match status {
            _ if !stuck => Err(StepFault::How),
            Status::Parked(_) => Ok(()),
            _ => Err(StepFault::Other(status)),
        },
        How::Done(_) | How::Raised(_) => match status {
            _ if stuck => Err(StepFault::How),
            Status::Idle => Ok(()),
            _ => Err(StepFault::Other(status)),
        },
    }
}

/// The lowest caller that is neither parked nor ended, and its status; `None` where there is none. A declaration that the
/// board is stuck asks for none. It takes no memory. This project's own.
#[doc(hidden)]
pub fn first_live(hist: &Hist) -> Option<(u32, Status)>
    ensures some { IfSome result (λ found. IsFirstLive (now hist.now) found.0 found.1) }
    ensures none { IfNone result (AllByRecursion IsParkedOrEnded (now hist.now).callers) }
{
    let callers = hist.callers();
    for t in 0..callers {
        let status = hist.status(t);
        if is_live(&status) {
            return Some((t, status));
        }
    }
    None
}

fn is_live(status: &Status) -> bool
    ensures live { IsTrue result → IsNotParked status.now × (status.now ≢ Ended) }
    ensures not { result ≡ false → ((ticket : ℕ) × (status.now ≡ Parked ticket)) ⊎ (status.now ≡ Ended) }
{
    match status {
        Status::Idle | Status::Given(_, _) => true,
        Status::Parked(_) | Status::Ended => false,
    }
}

fn may_be_stuck(hist: &Hist, by: u32) -> Result<(), StepFault>
    requires { by < hist.now.callers }
    ensures parked { IfOk result (λ _. (ticket : ℕ) × (event : Term) × Stands (now hist.now) by (parked ticket event)) }
    ensures all { IfOk result (λ _. AllByRecursion IsParkedOrEnded (now hist.now).callers) }
    ensures refused { IfErr result (λ fault. RefusesStuck (now hist.now) by fault) }
{
    if let Some((t, status)) = first_live(hist) {
        return Err(StepFault::Live(t, status));
    }
    match hist.status(by) {
        Status::Parked(_) => Ok(()),
        status => Err(StepFault::Other(status)),
    }
}

/// Whether an entry follows a history loosely: whether all its needs hold, but for the last need of a declaration that
/// the board is stuck, which isn't asked.
///
/// A refusal tells of the first need that fails. Of every entry it is `Caller` where `by` is no caller, and then `Closed`
/// where the board is stuck and the entry is no end. Then come, in this order:
///
/// - of a post and a withdrawal: `Other` with the caller's status, where it isn't the one that the entry needs; `Ticket`
///   with the ticket needed;
/// - of a take: `Other`; `Ticket`; `Result(0)` where the outcome is another;
/// - of a commit: `Unsound` of `Empty`, then of `Order`; `Stranger` of the first member that is no caller; `Stale` of the
///   first that isn't parked under its ticket, with its status; `Unsound` of what else the check of the certificate
///   finds; `Result` of the first place at which the outcomes aren't the play's, or at which only one of the two lists
///   goes on;
/// - of a declaration that the board is stuck: `Live` of the lowest caller that is neither parked nor ended, with its
///   status; `Other`;
/// - of a rest: `Resting`;
/// - of an end: `How` where exactly one of it and the board is stuck; `Other`.
///
/// `Memory` is want of memory, which comes of a commit, once its members are known to be parked. Nothing is changed.
/// Histories are this project's own.
pub fn may_follow(alloc: Global, hist: &Hist, entry: &Entry) -> Result<(), StepFault>
    ensures ok { IfOk result (λ _. LooselyFollows hist.now.callers hist.now.entries entry.now) }
    ensures refused { IfErr result (λ fault. IsRefused hist.now entry.now fault) }
    ensures exact { IfErr result (λ fault. (fault ≡ faults.Memory) ⊎ (¬ LooselyFollows hist.now.callers hist.now.entries entry.now)) }
{
    if entry.caller() >= hist.callers() {
        return Err(StepFault::Caller);
    }
    if is_stuck(hist) && !entry.is_end() {
        return Err(StepFault::Closed);
    }
    match entry {
        Entry::Post { by, ticket, .. } => may_post(hist, *by, *ticket),
        Entry::Commit { cert, outcomes, .. } => may_commit(alloc, hist, cert, outcomes.as_slice()),
        Entry::Withdraw { by, ticket } => may_withdraw(hist, *by, *ticket),
        Entry::Take {
            by,
            ticket,
            outcome,
        } => may_take(hist, *by, *ticket, outcome),
        Entry::Rest { .. } => may_rest(hist),
        Entry::Stuck { by } => may_be_stuck(hist, *by),
        Entry::End { by, how } => may_end(hist, *by, how),
    }
}
