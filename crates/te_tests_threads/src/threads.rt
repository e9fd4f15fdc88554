// Scripts whose threads run in threads of their own, and are finished then.

ghost use Rattle.std.specs.Prelude.{◌≡◌, ℕ, ◌∷◌, [], IfOk, length, map};
ghost use Rattle.std.specs.List.{AllByRecursion};
ghost use Rattle.te_terms.specs.Terms.{always};
ghost use Rattle.te_terms.specs.Codes.{expression_of};
ghost use Rattle.te_script.specs.Names.{IsName};
ghost use Rattle.te_script.specs.Scripts.{AreStatements, HasNames, IsEvent, IsThread};
ghost use Rattle.te_script.specs.Texts.{statement_of, RootIsNode};

use std::alloc::Global;
use std::sync::Arc;
use std::sync::atomic::{AtomicBool, AtomicU32, Ordering};
use std::test::Fail;
use te_board::Board;
use te_history::Entry;
use te_runtime::*;
use te_script::{Script, Stmt, ThreadText, generate};
use te_serial::finish;
use te_terms::{Calc, Calcs, EventCode, Expr, Name, Node, Outcome, Prim, Rows};

/// How often a gate looks for what it waits for before it gives up.
const TURNS: u32 = 1_000_000_000;

// ---- scripts

// The code of one node.
fn code_of(alloc: Global, node: Node) -> Result<Arc<EventCode>, Fail>
    ensures { IfOk result (λ code. code.value ≡ node ∷ []) }
{
    let mut code = EventCode::new(alloc);
    code.push(node).ok().ok_or("a node")?;
    Ok(Arc::new(alloc, code)?)
}

// The expression (Z).
fn integer(z: i64) -> Expr
    ensures { (written channels : ℕ) → IsEvent (record { written = written; level = 0; channels = channels }) (always (expression_of result)) }
{
    match Calcs::of(&[Calc::One(Prim::Int(z))]) {
        Some(calcs) => Expr::Tuple(calcs),
        None => unreachable!(),
    }
}

// x <- sync always (Z), or x <- sync never.
fn statement(alloc: Global, z: Option<i64>) -> Result<Stmt, Fail>
    ensures first { IfOk result (λ stmt. (channels : ℕ) → AreStatements channels 1 0 (statement_of stmt ∷ [])) }
    ensures later { IfOk result (λ stmt. (channels : ℕ) → AreStatements channels 1 1 (statement_of stmt ∷ [])) }
    ensures root { IfOk result (λ stmt. RootIsNode stmt) }
{
    match z {
        Some(z) => {
            let code = code_of(alloc, Node::Always(integer(z)))?;
            Ok(Stmt::Sync {
                reg: 0,
                code,
                root: 0,
            })
        }
        None => {
            let code = code_of(alloc, Node::Never)?;
            Ok(Stmt::Sync {
                reg: 0,
                code,
                root: 0,
            })
        }
    }
}

// Two such statements.
fn statements(alloc: Global, first: Option<i64>, second: Option<i64>) -> Result<Rows<Stmt>, Fail>
    ensures in_order { IfOk result (λ stmts. (channels : ℕ) → AreStatements channels 1 0 (map statement_of stmts)) }
    ensures roots { IfOk result (λ stmts. AllByRecursion RootIsNode stmts) }
    ensures two { IfOk result (λ stmts. length stmts ≡ 2) }
{
    let mut stmts = Rows::new(alloc);
    stmts.push(statement(alloc, first)?)?;
    stmts.push(statement(alloc, second)?)?;
    Ok(stmts)
}

// A thread of two such statements.
fn thread(
    alloc: Global,
    name: Name,
    first: Option<i64>,
    second: Option<i64>,
) -> Result<Arc<ThreadText>, Fail>
    requires { IsName name }
    ensures name { IfOk result (λ text. text.value.name ≡ name) }
    ensures names { IfOk result (λ text. HasNames text.value) }
    ensures thread { IfOk result (λ text. (channels : ℕ) → IsThread channels text.value) }
{
    let stmts = statements(alloc, first, second)?;
    let mut regs = Rows::new(alloc);
    regs.push(Name::of(b"x").ok_or("a name")?)?;
    Ok(Arc::new(alloc, ThreadText { name, regs, stmts })?)
}

// Two threads of two such statements each.
fn two(alloc: Global, first: Option<i64>, second: Option<i64>) -> Result<Script, Fail> {
    let mut threads = Rows::new(alloc);
    let a = Name::of(b"a").ok_or("a name")?;
    let b = Name::of(b"b").ok_or("a name")?;
    threads.push(thread(alloc, a, first, second)?)?;
    threads.push(thread(alloc, b, first, second)?)?;
    Ok(Script {
        channels: Rows::new(alloc),
        threads,
    })
}

// ---- gates

/// Counts who passes, and holds each of two threads at its second ticket until the other has come there too.
#[derive(Drop)]
struct Meeting {
    passed: [AtomicU32; 4],
    came: [AtomicBool; 2],
    seen: [AtomicBool; 2],
}

// Looks for the flag, so often at most; whether it was seen.
fn waits_for(flag: &AtomicBool) -> bool {
    for _ in 0..TURNS {
        if flag.load(Ordering::SeqCst) {
            return true;
        }
    }
    false
}

impl Gate for Meeting {
    fn pass(&self, thread: u32, ticket: u32) {
        if thread > 1 || ticket > 1 {
            return;
        }
        self.passed[(2 * thread + ticket) as usize].fetch_add(1, Ordering::SeqCst);
        if ticket == 1 {
            self.came[thread as usize].store(true, Ordering::SeqCst);
            let seen = waits_for(&self.came[1 - thread as usize]);
            self.seen[thread as usize].store(seen, Ordering::SeqCst);
        }
    }
}

/// Holds the second thread at its first ticket until the first has come to its second.
#[derive(Drop)]
struct Holding {
    came: AtomicBool,
    seen: AtomicBool,
}

impl Gate for Holding {
    fn pass(&self, thread: u32, ticket: u32) {
        if thread == 0 && ticket == 1 {
            self.came.store(true, Ordering::SeqCst);
        }
        if thread == 1 && ticket == 0 {
            let seen = waits_for(&self.came);
            self.seen.store(seen, Ordering::SeqCst);
        }
    }
}

// ---- what is left

// The place of a caller's post under its first ticket, or of its take of that.
fn place_of(board: &Board, by: u32, takes: bool) -> Option<u64> {
    // The checker knows the types within an entry only where the body names them.
    let _named: Option<Outcome> = None;
    let hist = board.history();
    for place in 0..hist.len() {
        let here = match hist.get(place) {
            Some(Entry::Post { by: author, .. }) => !takes && *author == by,
            Some(Entry::Take { by: author, .. }) => takes && *author == by,
            _ => false,
        };
        if here {
            return Some(place);
        }
    }
    None
}

// Whether an entry tells the callers to come back, and whether one declares the board stuck.
fn halts(board: &Board) -> (bool, bool) {
    let hist = board.history();
    let mut rests = false;
    let mut sticks = false;
    for place in 0..hist.len() {
        match hist.get(place) {
            Some(Entry::Rest { .. }) => rests = true,
            Some(Entry::Stuck { .. }) => sticks = true,
            _ => {}
        }
    }
    (rests, sticks)
}

#[test]
fn threads_meet_at_a_gate(rt: HostRuntime) -> Result<(), Fail> {
    let alloc = rt.alloc();
    let script = two(alloc, Some(1), Some(2))?;
    let gate = Meeting {
        passed: [
            AtomicU32::new(0),
            AtomicU32::new(0),
            AtomicU32::new(0),
            AtomicU32::new(0),
        ],
        came: [AtomicBool::new(false), AtomicBool::new(false)],
        seen: [AtomicBool::new(false), AtomicBool::new(false)],
    };
    let House {
        mut board,
        mut cores,
    } = run_threads(&rt, alloc, &script, 100_000, &gate)?;
    for passed in &gate.passed {
        assert_eq!(rt; passed.load(Ordering::SeqCst), 1);
    }
    for seen in &gate.seen {
        assert!(rt; seen.load(Ordering::SeqCst));
    }
    assert_eq!(rt; board.len(), 14);
    assert_eq!(rt; finish(alloc, &mut board, &mut cores, 100_000), Ok(()));
    assert_eq!(rt; board.len(), 14);
    Ok(())
}

#[test]
fn a_thread_that_is_held_posts_later(rt: HostRuntime) -> Result<(), Fail> {
    let alloc = rt.alloc();
    let script = two(alloc, Some(1), Some(2))?;
    let gate = Holding {
        came: AtomicBool::new(false),
        seen: AtomicBool::new(false),
    };
    let House {
        mut board,
        mut cores,
    } = run_threads(&rt, alloc, &script, 100_000, &gate)?;
    assert!(rt; gate.seen.load(Ordering::SeqCst));
    assert_eq!(rt; finish(alloc, &mut board, &mut cores, 100_000), Ok(()));
    assert_eq!(rt; board.len(), 14);
    assert_eq!(rt; place_of(&board, 0, true), Some(2));
    assert!(rt; place_of(&board, 1, false) > Some(2));
    Ok(())
}

#[test]
fn rings_run_in_threads_of_their_own(rt: HostRuntime) -> Result<(), Fail> {
    let alloc = rt.alloc();
    for (number, entries) in [(0, 10), (3, 124), (20, 3150)] {
        let script = generate(alloc, number)?;
        let House {
            mut board,
            mut cores,
        } = run_threads(&rt, alloc, &script, 100_000, &OpenGate)?;
        assert_eq!(rt; halts(&board), (false, false));
        assert_eq!(rt; board.len(), entries, "the entries of {number}");
        assert_eq!(rt; finish(alloc, &mut board, &mut cores, 100_000), Ok(()));
        assert_eq!(rt; board.len(), entries, "the entries of {number}");
    }
    Ok(())
}

#[test]
fn a_spent_search_tells_all_to_come_back(rt: HostRuntime) -> Result<(), Fail> {
    let alloc = rt.alloc();
    let script = generate(alloc, 3)?;
    let House {
        mut board,
        mut cores,
    } = run_threads(&rt, alloc, &script, 1, &OpenGate)?;
    assert_eq!(rt; halts(&board), (true, false));
    assert_eq!(rt; finish(alloc, &mut board, &mut cores, 100_000), Ok(()));
    assert!(rt; board.len() > 124);
    Ok(())
}

#[test]
fn threads_that_never_meet_end_as_stuck(rt: HostRuntime) -> Result<(), Fail> {
    let alloc = rt.alloc();
    let script = two(alloc, Some(1), None)?;
    let House {
        mut board,
        mut cores,
    } = run_threads(&rt, alloc, &script, 100_000, &OpenGate)?;
    assert_eq!(rt; halts(&board), (false, true));
    assert_eq!(rt; board.len(), 11);
    assert_eq!(rt; finish(alloc, &mut board, &mut cores, 100_000), Ok(()));
    assert_eq!(rt; board.len(), 11);
    Ok(())
}
