ghost use Rattle.std.specs.Prelude.{◌≡◌, ◌+◌, ◌<◌, ◌≤◌, ◌++◌, ◌∷◌, [], ℕ, List, Some, IfOk, length, drop, map, vec_len, vec_capacity};
ghost use Rattle.te_script.specs.Scripts.{Statement};
ghost use Rattle.te_script.specs.Wishes.{wish, site, site_of, reached, syncs};
ghost use Rattle.te_terms.specs.declared.event.Outcome.{Outcome as Given};
ghost use Rattle.te_terms.specs.Terms.{closed};
ghost use Rattle.te_terms.specs.Codes.{term_under};
ghost use Rattle.te_script.specs.Cores.{
  moved,
  wish_at,
  doing_of,
  core_after,
  Settles,
  IsWaiting,
  IsSyncSpot,
  IsSomewhere,
  HasBodies,
  IsPastEmits,
  WritesTo,
  SpotGoesOn,
  next_of,
  steps_behind_first,
  emits_in,
  emits_left,
  steps_behind,
  steps_left_at,
};
ghost use Rattle.te_script.specs.Wants.{IsWant, IsOfText};
ghost use Rattle.te_script.specs.Texts.{statement_of};

use crate::script::{Stmt, ThreadText};
use std::alloc::Global;
use std::marker::Model;
use std::sync::Arc;
use te_terms::{Event, EventCode, NoMemory, Outcome, Rows, Value};

/// What a script thread wishes.
#[derive(Drop)]
pub enum Want {
    /// To synchronise on the event.
    Sync(Event),
    /// To end, past its last statement.
    Done,
    /// To end with the raised value.
    Raised(Value),
}

/// Where a wish to synchronise stands in its thread's text.
#[derive(Clone, Copy, Debug, PartialEq, Eq)]
pub struct Site {
    /// The number of the statement, from 1; a repeat counts as one, and so does each statement of its body.
    pub statement: u32,
    /// The pass of its repeat, from 0; 0 outside of every repeat.
    pub pass: u32,
}

// A repeat that is being done: the places of its first statement and of the one behind it, the present pass
// from 0, and how many passes there are.
#[derive(Clone, Copy, Drop)]
struct Round {
    first: usize,
    end: usize,
    pass: u32,
    times: u32,
}

// The place of a statement, and the repeat that it is done in.
#[derive(Clone, Copy, Drop)]
struct Spot {
    place: usize,
    round: Option<Round>,
}

/// One script thread: where it stands, its registers, and the values that it has emitted.
#[derive(Drop)]
pub struct Core {
    alloc: Global,
    text: Arc<ThreadText>,
    spot: Spot,
    regs: [Value; 8],
    emitted: Vec<Value>,
    raised: Option<Value>,
}

impl Model for Core {
    ghost use Rattle.te_script.specs.Cores.{At};
    ghost use Rattle.te_script.specs.Stored.{coded_at};

    ghost Value = { At };

    ghost coded = { coded_at };

    ghost use Rattle.std.specs.Prelude.{vec_len, vec_capacity};
    ghost use Rattle.te_script.specs.Cores.{next_at, steps_left_at, IsCore};

    ghost view = { λ c. record {
      thread = c.text.value;
      stand = record { emitted = c.emitted.items; next = next_at c.raised c.regs (steps_left_at c.spot c.text.value.statements) };
    } };

    ghost invariant = { λ c. IsCore c.text.value c.spot (vec_len c.emitted) (vec_capacity c.emitted) };
}

impl Core {
    /// The core of the thread at its first wish, with room for all values that its text can emit. The one
    /// refusal is want of memory.
    pub fn new(alloc: Global, text: Arc<ThreadText>) -> Result<Core, NoMemory>
        ensures { IfOk result (λ core. core ≡ core_after text.value []) }
    {
        let stmts = text.statements();
        let regs = [Value::unit(); 8];
        let mut emitted = Vec::with_capacity(alloc, emits_among(stmts))?;
        let stop = past_emits(stmts, 0, &regs, &mut emitted);
        Ok(Core {
            alloc,
            text,
            spot: stop.spot,
            regs,
            emitted,
            raised: stop.raised,
        })
    }

    /// Takes the outcome of the sync at which the thread waits: a value that is given is written to the
    /// statement's register, a raised one ends the thread. The core then stands at its next wish. It takes
    /// no memory.
    pub fn give(&mut self, outcome: Outcome)
        requires { IsWaiting self.old.stand.next }
        ensures moves { self.new ≡ record self.old { stand = moved self.old.stand.emitted self.old.stand.next outcome } }
        ensures after { (so_far : List Given) → self.old ≡ core_after self.old.thread so_far → self.new ≡ core_after self.old.thread (so_far ++ outcome ∷ []) }
    {
        match outcome {
            Outcome::Raises(value) => {
                self.spot = Spot {
                    place: self.text.statements().len(),
                    round: None,
                };
                self.raised = Some(value);
            }
            Outcome::Gives(value) => {
                let spot = self.spot;
                self.regs[register_at(self.text.statements(), &spot)] = value;
                let stop = go_on(self.text.statements(), &spot, &self.regs, &mut self.emitted);
                self.spot = stop.spot;
                self.raised = stop.raised;
            }
        }
    }

    /// The present wish. The one refusal is want of memory.
    pub fn want(&self) -> Result<Want, NoMemory>
        ensures wish { IfOk result (λ want. IsWant (wish_at self.now.stand) want) }
        ensures after { (so_far : List Given) → self.now ≡ core_after self.now.thread so_far → IfOk result (λ want. IsWant (wish self.now.thread so_far) want) }
        ensures of_text { IfOk result (λ want. IsOfText self.now.thread want) }
    {
        if let Some(value) = self.raised {
            return Ok(Want::Raised(value));
        }
        match self.text.statements().get(self.spot.place) {
            None => Ok(Want::Done),
            Some(Stmt::Sync { code, root, .. }) => sync_want(code, *root, &self.regs),
            Some(Stmt::Emit(_)) => unreachable!(),
            Some(Stmt::Repeat { .. }) => unreachable!(),
        }
    }

    /// Where the present wish stands in the text. It takes no memory.
    pub fn site(&self) -> Site
        requires { IsWaiting self.now.stand.next }
        ensures stand { site_of (doing_of self.now.stand.next) ≡ Some result }
        ensures after { (so_far : List Given) → self.now ≡ core_after self.now.thread so_far → site self.now.thread so_far ≡ Some result }
    {
        let pass = match &self.spot.round {
            Some(round) => round.pass,
            None => 0,
        };
        Site {
            statement: self.spot.place as u32 + 1,
            pass,
        }
    }

    /// The text of the thread.
    pub fn text(&self) -> &ThreadText
        ensures { result.now ≡ self.now.thread }
    {
        &self.text
    }

    /// A copy of the values that the thread has emitted so far, in order. The one refusal is want of memory.
    pub fn copy_emitted(&self) -> Result<Rows<Value>, NoMemory>
        ensures { IfOk result (λ rows. rows ≡ self.now.stand.emitted) }
    {
        let mut rows = Rows::new(self.alloc);
        for value in self.emitted.as_slice() {
            rows.push(*value)?;
        }
        Ok(rows)
    }

    /// The values that the thread has emitted so far, in order.
    pub fn emitted(&self) -> &[Value]
        ensures stand { result.now ≡ self.now.stand.emitted }
        ensures after { (so_far : List Given) → self.now ≡ core_after self.now.thread so_far → result.now ≡ (reached self.now.thread so_far).emitted }
    {
        self.emitted.as_slice()
    }
}

// The wish to synchronise on the event under a root, with these values of the registers.
fn sync_want(code: &Arc<EventCode>, root: u32, regs: &[Value; 8]) -> Result<Want, NoMemory>
    requires { root < length code.now.value }
    ensures wish { IfOk result (λ want. IsWant (syncs (closed regs.now (term_under code.now.value root))) want) }
    ensures eight { length regs.now ≡ 8 }
{
    let Ok(code) = Arc::try_clone(code) else {
        return Err(NoMemory);
    };
    match Event::new(code, root, *regs) {
        Some(event) => Ok(Want::Sync(event)),
        None => unreachable!(),
    }
}

// The register that the sync at a spot writes.
fn register_at(stmts: &[Stmt], spot: &Spot) -> usize
    requires spot { IsSyncSpot spot.now (map statement_of stmts.now) }
    requires waits { IsWaiting (next_of (steps_left_at spot.now (map statement_of stmts.now))) }
    ensures { WritesTo (steps_left_at spot.now (map statement_of stmts.now)) result }
{
    match &stmts[spot.place] {
        Stmt::Sync { reg, .. } => *reg as usize,
        Stmt::Emit(_) => unreachable!(),
        Stmt::Repeat { .. } => unreachable!(),
    }
}

// How many emits there are.
fn emits_among(stmts: &[Stmt]) -> usize
    ensures { result ≡ emits_in (map statement_of stmts.now) }
{
    let mut count = 0;
    for stmt in stmts {
        match stmt {
            Stmt::Emit(_) => count += 1,
            Stmt::Sync { .. } => {}
            Stmt::Repeat { .. } => {}
        }
    }
    count
}

// Where the steps before the next sync end, and the value that one of them raised.
#[derive(Drop)]
struct Stop {
    spot: Spot,
    raised: Option<Value>,
}

// The spot behind the sync at a spot, where that is in the same repeat: the next place of the body, which is
// `next`, or its first one in the next pass.
fn next_in_round(spot: Spot, next: usize) -> Option<Spot>
    requires spot { IsSomewhere spot }
    requires next { next ≡ spot.place + 1 }
    ensures { (ss : List Statement) → IsSyncSpot spot ss → SpotGoesOn spot result ss }
{
    let Some(round) = spot.round else {
        return None;
    };
    if next < round.end {
        return Some(Spot {
            place: next,
            round: Some(round),
        });
    }
    if round.pass + 1 < round.times {
        return Some(Spot {
            place: round.first,
            round: Some(Round {
                first: round.first,
                end: round.end,
                pass: round.pass + 1,
                times: round.times,
            }),
        });
    }
    None
}

// Goes on behind the sync at a spot, up to the next one.
fn go_on(stmts: &[Stmt], spot: &Spot, regs: &[Value; 8], emitted: &mut Vec<Value>) -> Stop
    requires spot { IsSyncSpot spot.now (map statement_of stmts.now) }
    requires waits { IsWaiting (next_of (steps_left_at spot.now (map statement_of stmts.now))) }
    requires bodies { HasBodies (map statement_of stmts.now) }
    requires room { vec_len emitted.old + emits_left (steps_left_at spot.now (map statement_of stmts.now)) ≤ vec_capacity emitted.old }
    ensures settles { Settles regs.now (steps_behind_first (steps_left_at spot.now (map statement_of stmts.now))) emitted.old.items
        result.raised (steps_left_at result.spot (map statement_of stmts.now)) emitted.new.items }
    ensures spot { IsSyncSpot result.spot (map statement_of stmts.now) }
    ensures room { vec_capacity emitted.new ≡ vec_capacity emitted.old }
    ensures eight { length regs.now ≡ 8 }
{
    let next = spot.place + 1;
    match next_in_round(*spot, next) {
        Some(spot) => Stop { spot, raised: None },
        None => past_emits(stmts, next, regs, emitted),
    }
}

// The spot at a place outside of every repeat; at a repeat it is that of its first statement in the first pass.
fn spot_at(stmts: &[Stmt], place: usize) -> Spot
    requires within { place ≤ length stmts.now }
    requires past { IsPastEmits (drop place (map statement_of stmts.now)) }
    requires bodies { HasBodies (map statement_of stmts.now) }
    ensures left { steps_left_at result (map statement_of stmts.now) ≡ steps_behind place (map statement_of stmts.now) }
    ensures spot { IsSyncSpot result (map statement_of stmts.now) }
{
    if place == stmts.len() {
        return Spot { place, round: None };
    }
    match &stmts[place] {
        Stmt::Sync { .. } => Spot { place, round: None },
        Stmt::Emit(_) => unreachable!(),
        Stmt::Repeat { times, count } => Spot {
            place: place + 1,
            round: Some(Round {
                first: place + 1,
                end: place + 1 + *count as usize,
                pass: 0,
                times: *times,
            }),
        },
    }
}

// Does the emits from `from` on, which is outside of every repeat.
fn past_emits(stmts: &[Stmt], from: usize, regs: &[Value; 8], emitted: &mut Vec<Value>) -> Stop
    requires within { from ≤ length stmts.now }
    requires bodies { HasBodies (map statement_of stmts.now) }
    requires room { vec_len emitted.old + emits_left (steps_behind from (map statement_of stmts.now)) ≤ vec_capacity emitted.old }
    ensures settles { Settles regs.now (steps_behind from (map statement_of stmts.now)) emitted.old.items
        result.raised (steps_left_at result.spot (map statement_of stmts.now)) emitted.new.items }
    ensures spot { IsSyncSpot result.spot (map statement_of stmts.now) }
    ensures room { vec_capacity emitted.new ≡ vec_capacity emitted.old }
    ensures eight { length regs.now ≡ 8 }
{
    let mut place = from;
    while place < stmts.len() {
        let Stmt::Emit(expr) = &stmts[place] else {
            break;
        };
        match expr.eval(regs, &[]) {
            Ok(value) => emitted.push_reserved(value),
            Err(trap) => {
                return Stop {
                    spot: Spot {
                        place: stmts.len(),
                        round: None,
                    },
                    raised: Some(trap.value()),
                };
            }
        }
        place += 1;
    }
    Stop {
        spot: spot_at(stmts, place),
        raised: None,
    }
}
