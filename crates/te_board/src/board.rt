ghost use Rattle.std.specs.Prelude.{◌≡◌, ◌↔◌, ℕ, true, ◌+◌, ◌<◌, ◌≤◌, List, [], ◌∷◌, length, IfOk, IfErr, OnOk, OnErr};
ghost use Rattle.te_terms.specs.Limits.{most_threads};
ghost use Rattle.te_terms.specs.Terms.{Term};
ghost use Rattle.te_terms.specs.Joint.{CanCommit};
ghost use Rattle.te_cert.specs.Checks.{Gives};
ghost use Rattle.te_history.specs.declared.entry.Entry.TheVariants as entries;
ghost use Rattle.te_history.specs.declared.status.How.TheVariants as ways;
ghost use Rattle.te_history.specs.declared.status.Status.TheVariants as statuses;
ghost use Rattle.te_history.specs.State.{parked_list, posts_by};
ghost use Rattle.te_history.specs.Follows.{caller_of, IsLegal};
ghost use Rattle.te_history.specs.Histories.{HasStatus, phase_of};
ghost use Rattle.te_history.specs.Refusals.{AreParked};
ghost use Rattle.te_board.specs.Boards.{IsLawful, Appends, HasTaken, HasCommitted, state_of, room_of_board, most_entries};
ghost use Rattle.te_board.specs.Denials.{DeniesPost, DeniesCommit, DeniesPlayed, DeniesWithdraw, DeniesTake, DeniesRest, DeniesStuck, DeniesEnd, IsOfPlay, IsToldAs};

use crate::appending::{add, append};
use crate::fault::BoardFault;
use crate::matching::are_parked;
use crate::snapshot::Snapshot;
use std::alloc::Global;
use std::marker::Model;
use te_cert::Cert;
use te_history::{
    Entry, Hist, How, Phase, Status, StepFault, first_live, may_commit_played, parked_of,
    play_commit,
};
use te_lock::Kept;
use te_terms::{Event, NoMemory, Outcome, Rows};

/// Most entries that a board ever has.
const MOST: usize = 200_000;

/// A board: the history of its callers, which is legal, with reserved room for all that they may still need. Contracts
/// see its history. This project's own.
#[derive(Drop)]
pub struct Board {
    hist: Hist,
    reserved: usize,
}

impl Model for Board {
    ghost use Rattle.te_board.specs.Boards.{BoardLog};

    ghost Value = { BoardLog };

    ghost use Rattle.te_board.specs.BoardCode.{board_code};

    ghost coded = { board_code };

    ghost use Rattle.te_board.specs.Boards.{IsReserved};

    ghost view = { λ b. record { callers = b.hist.callers; entries = b.hist.entries } };

    ghost invariant = { λ b. IsReserved b.hist b.reserved };
}

impl Kept for Board {
    type Entry = Entry;

    ghost entries = { λ board. board.entries };

    ghost members = { λ board. board.callers };

    ghost author = { caller_of };

    ghost lawful = { IsLawful };

    fn length(&self) -> u64 {
        self.hist.len()
    }

    fn callers(&self) -> u32 {
        self.hist.callers()
    }
}

fn take_of(by: u32, ticket: u32, outcome: &Outcome) -> Entry
    ensures { result ≡ entries.Take by ticket outcome.now }
{
    Entry::Take {
        by,
        ticket,
        outcome: *outcome,
    }
}

// A refusal of a commit that is one of its members, its play or want of memory, as the board tells it.
fn told(fault: StepFault) -> BoardFault
    requires { IsOfPlay fault }
    ensures { IsToldAs fault result }
{
    match fault {
        StepFault::Stranger(i) => BoardFault::Stranger(i),
        StepFault::Stale(i, status) => BoardFault::Stale(i, status),
        StepFault::Unsound(found) => BoardFault::Unsound(found),
        StepFault::Memory => BoardFault::Memory,
        _ => unreachable!(),
    }
}

impl Board {
    /// The board of so many callers with no entry, with room for all entries that it may ever have. Condition: 1 to 64
    /// callers. The one refusal is want of memory.
    pub fn new(alloc: Global, callers: u32) -> Result<Board, NoMemory>
        requires some { 1 ≤ callers }
        requires few { callers ≤ most_threads }
        ensures { IfOk result (λ board. board ≡ record { callers = callers; entries = [] }) }
    {
        let mut hist = Hist::new(alloc, callers)?;
        hist.reserve(MOST)?;
        Ok(Board {
            hist,
            reserved: callers as usize + 2,
        })
    }

    /// Parks the caller's event, and answers its ticket. Condition: the caller is below the number of callers. It takes
    /// no memory.
    ///
    /// The refusals, in order: `Closed` where the board is stuck; `NotIdle` with the caller's status; `Full` where the
    /// length of the history, the reserved room and 3 are together above 200,000. The board is then as it was.
    pub fn post(&mut self, by: u32, event: Event) -> Result<u32, BoardFault>
        requires caller { by < self.old.callers }
        ensures ok { IfOk result (λ ticket. Appends self.old self.new (entries.Post by ticket event)) }
        ensures ticket { IfOk result (λ ticket. ticket ≡ posts_by by self.old.entries) }
        ensures fits { OnOk result (length self.old.entries + room_of_board self.old + 3 ≤ most_entries) }
        ensures same { OnErr result (self.new ≡ self.old) }
        ensures cause { IfErr result (λ fault. DeniesPost self.old by fault) }
    {
        if let Phase::Stuck = self.hist.phase() {
            return Err(BoardFault::Closed);
        }
        match self.hist.status(by) {
            Status::Idle => {}
            status => return Err(BoardFault::NotIdle(status)),
        }
        if self.hist.len() as usize + self.reserved + 3 > MOST {
            return Err(BoardFault::Full);
        }
        let ticket = self.hist.posts(by);
        append(
            &mut self.hist,
            &mut self.reserved,
            Entry::Post { by, ticket, event },
        );
        Ok(ticket)
    }

    /// Takes the caller's parked event back, and answers its ticket. Condition: the caller is below the number of
    /// callers. It takes no memory.
    ///
    /// The refusals, in order: `Closed` where the board is stuck; `NotParked` with the caller's status. The board is then
    /// as it was.
    pub fn withdraw(&mut self, by: u32) -> Result<u32, BoardFault>
        requires caller { by < self.old.callers }
        ensures ok { IfOk result (λ ticket. Appends self.old self.new (entries.Withdraw by ticket)) }
        ensures parked { IfOk result (λ ticket. HasStatus (state_of self.old) by (statuses.Parked ticket)) }
        ensures same { OnErr result (self.new ≡ self.old) }
        ensures cause { IfErr result (λ fault. DeniesWithdraw self.old by fault) }
    {
        if let Phase::Stuck = self.hist.phase() {
            return Err(BoardFault::Closed);
        }
        match self.hist.status(by) {
            Status::Parked(ticket) => {
                add(
                    &mut self.hist,
                    &mut self.reserved,
                    Entry::Withdraw { by, ticket },
                );
                Ok(ticket)
            }
            status => Err(BoardFault::NotParked(status)),
        }
    }

    /// Takes the outcome that the caller was given, and answers it. Condition: the caller is below the number of callers.
    /// It takes no memory.
    ///
    /// Refused with `NotGiven` and the caller's status where it isn't given an outcome, as nobody is on a stuck board.
    /// The board is then as it was.
    pub fn take(&mut self, by: u32) -> Result<Outcome, BoardFault>
        requires caller { by < self.old.callers }
        ensures ok { IfOk result (λ outcome. HasTaken self.old self.new by outcome) }
        ensures same { OnErr result (self.new ≡ self.old) }
        ensures cause { IfErr result (λ fault. DeniesTake self.old by fault) }
    {
        match self.hist.status(by) {
            Status::Given(ticket, outcome) => {
                let entry = take_of(by, ticket, &outcome);
                add(&mut self.hist, &mut self.reserved, entry);
                Ok(outcome)
            }
            status => Err(BoardFault::NotGiven(status)),
        }
    }

    /// Tells the threads to come back. Condition: the caller is below the number of callers. It takes no memory.
    ///
    /// The refusals, in order: `Closed` where the board is stuck; `Resting` where it is resting already. The board is
    /// then as it was.
    pub fn rest(&mut self, by: u32) -> Result<(), BoardFault>
        requires caller { by < self.old.callers }
        ensures ok { OnOk result (Appends self.old self.new (entries.Rest by)) }
        ensures same { OnErr result (self.new ≡ self.old) }
        ensures cause { IfErr result (λ fault. DeniesRest self.old fault) }
    {
        if let Phase::Stuck = self.hist.phase() {
            return Err(BoardFault::Closed);
        }
        if self.hist.resting() {
            return Err(BoardFault::Resting);
        }
        add(&mut self.hist, &mut self.reserved, Entry::Rest { by });
        Ok(())
    }

    /// Ends the caller. Conditions: the caller is below the number of callers, and `how` is `Stuck` exactly where the
    /// board is stuck. It takes no memory.
    ///
    /// Refused with the caller's status: `NotIdle` while the board is running, where the caller isn't idle; `NotParked`
    /// while it is stuck, where the caller isn't parked. The board is then as it was.
    pub fn end(&mut self, by: u32, how: How) -> Result<(), BoardFault>
        requires caller { by < self.old.callers }
        requires how { ((state_of self.old).stuck ≡ true) ↔ (how ≡ ways.Stuck) }
        ensures ok { OnOk result (Appends self.old self.new (entries.End by how)) }
        ensures same { OnErr result (self.new ≡ self.old) }
        ensures cause { IfErr result (λ fault. DeniesEnd self.old by fault) }
    {
        match self.hist.phase() {
            Phase::Stuck => match self.hist.status(by) {
                Status::Parked(_) => {}
                status => return Err(BoardFault::NotParked(status)),
            },
            Phase::Running => match self.hist.status(by) {
                Status::Idle => {}
                status => return Err(BoardFault::NotIdle(status)),
            },
        }
        add(&mut self.hist, &mut self.reserved, Entry::End { by, how });
        Ok(())
    }

    /// What a search looks at: the length of the history, and the parked callers, whose codes are shared. The one refusal
    /// is want of memory.
    pub fn snapshot(&self, alloc: Global) -> Result<Snapshot, NoMemory>
        ensures front { IfOk result (λ snapshot. snapshot.front ≡ length self.now.entries) }
        ensures parked { IfOk result (λ snapshot. snapshot.parked ≡ parked_list (state_of self.now)) }
    {
        let parked = parked_of(alloc, &self.hist)?;
        Ok(Snapshot {
            front: self.hist.len(),
            parked,
        })
    }

    /// Commits the members of a certificate, once its play on the board's own events is right, to the outcomes that the
    /// play gives. Condition: the caller is below the number of callers.
    ///
    /// The refusals, in order: `Closed` where the board is stuck; `Unsound` of `Empty`, then of `Order`; `Stranger` of
    /// the first member that is no caller; `Stale` of the first that isn't parked under its ticket, with its status;
    /// `Unsound` of what else the check of the certificate finds. `Memory` is want of memory, which comes once the members
    /// are known to be parked. The board is then as it was.
    pub fn commit(&mut self, alloc: Global, by: u32, cert: Cert) -> Result<(), BoardFault>
        requires caller { by < self.old.callers }
        ensures ok { OnOk result (HasCommitted self.old self.new by cert) }
        ensures same { OnErr result (self.new ≡ self.old) }
        ensures cause { IfErr result (λ fault. DeniesCommit self.old cert fault) }
    {
        if let Phase::Stuck = self.hist.phase() {
            return Err(BoardFault::Closed);
        }
        match play_commit(alloc, &self.hist, &cert) {
            Ok(outcomes) => {
                add(
                    &mut self.hist,
                    &mut self.reserved,
                    Entry::Commit { by, cert, outcomes },
                );
                Ok(())
            }
            Err(fault) => Err(told(fault)),
        }
    }

    /// Commits as `commit` does, with outcomes that are known to be those of the play, which isn't played again.
    /// Conditions: the caller is below the number of callers, and the play of the certificate on the events that its
    /// members are parked with gives the outcomes. It takes no memory.
    ///
    /// The refusals are those of `commit` that come before the play, in the same order. The board is then as it was.
    #[doc(hidden)]
    pub fn commit_played(
        &mut self,
        by: u32,
        cert: Cert,
        outcomes: Rows<Outcome>,
    ) -> Result<(), BoardFault>
        requires caller { by < self.old.callers }
        requires plays { (events : List Term) → AreParked (state_of self.old) cert.members events → Gives cert events outcomes }
        ensures ok { OnOk result (Appends self.old self.new (entries.Commit by cert outcomes)) }
        ensures same { OnErr result (self.new ≡ self.old) }
        ensures cause { IfErr result (λ fault. DeniesPlayed self.old cert fault) }
    {
        if let Phase::Stuck = self.hist.phase() {
            return Err(BoardFault::Closed);
        }
        match may_commit_played(&self.hist, &cert, outcomes.as_slice()) {
            Ok(()) => {
                add(
                    &mut self.hist,
                    &mut self.reserved,
                    Entry::Commit { by, cert, outcomes },
                );
                Ok(())
            }
            Err(fault) => Err(told(fault)),
        }
    }

    /// Declares that no group of the parked events can commit. Conditions: the caller is below the number of callers, and
    /// the snapshot's list can't commit. It takes no memory.
    ///
    /// The refusals, in order: `Closed` where the board is stuck; `Live` of the lowest caller that is neither parked nor
    /// ended, with its status; `NotParked` with the caller's status; `Moved` with the length of the history where the
    /// parked list isn't that of the snapshot. The board is then as it was.
    pub fn declare_stuck(&mut self, by: u32, snapshot: &Snapshot) -> Result<(), BoardFault>
        requires caller { by < self.old.callers }
        requires cannot { ¬ CanCommit snapshot.now.parked }
        ensures ok { OnOk result (Appends self.old self.new (entries.Stuck by)) }
        ensures same { OnErr result (self.new ≡ self.old) }
        ensures cause { IfErr result (λ fault. DeniesStuck self.old by snapshot.now.parked fault) }
    {
        if let Phase::Stuck = self.hist.phase() {
            return Err(BoardFault::Closed);
        }
        if let Some((t, status)) = first_live(&self.hist) {
            return Err(BoardFault::Live(t, status));
        }
        match self.hist.status(by) {
            Status::Parked(_) => {}
            status => return Err(BoardFault::NotParked(status)),
        }
        if !are_parked(&self.hist, snapshot.parked.as_slice()) {
            return Err(BoardFault::Moved(self.hist.len()));
        }
        add(&mut self.hist, &mut self.reserved, Entry::Stuck { by });
        Ok(())
    }

    /// The length of the history.
    pub fn len(&self) -> u64
        ensures value { result ≡ length self.now.entries }
        ensures fits { length self.now.entries + room_of_board self.now ≤ most_entries }
        ensures legal { IsLegal self.now.callers self.now.entries }
    {
        self.hist.len()
    }

    /// Where a caller stands. Condition: `t` is below the number of callers.
    pub fn status(&self, t: u32) -> Status
        requires { t < self.now.callers }
        ensures { HasStatus (state_of self.now) t result }
    {
        self.hist.status(t)
    }

    /// Whether the board is stuck.
    pub fn phase(&self) -> Phase
        ensures { result ≡ phase_of (state_of self.now) }
    {
        self.hist.phase()
    }

    /// Whether the board is resting.
    pub fn resting(&self) -> bool
        ensures { result ≡ (state_of self.now).resting }
    {
        self.hist.resting()
    }

    /// The number of callers, 1 to 64.
    pub fn callers(&self) -> u32
        ensures value { result ≡ self.now.callers }
        ensures some { 1 ≤ self.now.callers }
        ensures few { self.now.callers ≤ most_threads }
    {
        self.hist.callers()
    }

    /// The history. It is legal, its spare room is at least the reserved room, and it has at most 200,000 entries with
    /// the reserved room.
    pub fn history(&self) -> &Hist
        ensures callers { result.now.callers ≡ self.now.callers }
        ensures entries { result.now.entries ≡ self.now.entries }
        ensures spare { room_of_board self.now ≤ result.now.spare }
        ensures fits { length self.now.entries + room_of_board self.now ≤ most_entries }
        ensures legal { IsLegal self.now.callers self.now.entries }
    {
        &self.hist
    }
}
