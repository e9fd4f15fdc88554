ghost use Rattle.std.specs.Prelude.{◌≡◌, ◌+◌, ◌*◌, ◌/◌, ◌%◌, ◌<◌, ◌≤◌, [], ◌∷◌, ◌++◌, length, map, codes, decimal, IfOk, OnOk};
ghost use Rattle.std.specs.List.{AllByRecursion};
ghost use Rattle.te_terms.specs.Expressions.{register, whole, tuple};
ghost use Rattle.te_terms.specs.Codes.{calculation_of, expression_of, term_under};
ghost use Rattle.te_terms.specs.Shape.{IsForest};
ghost use Rattle.te_script.specs.Scripts.{sync, emit};
ghost use Rattle.te_script.specs.Texts.{statement_of, RootIsNode};
ghost use Rattle.te_script.specs.Generated.{each, rings_of, rounds_of, generated_channel_name, generated_thread_name, starting, passing_event, event_of, generated_thread, generated};
ghost use Rattle.te_script.specs.Nodes.{CodeGrows, HasEvents};

use crate::script::{Script, Stmt, ThreadText};
use itoa::Buffer;
use std::alloc::Global;
use std::sync::Arc;
use te_terms::{Arith, Calc, Calcs, EventCode, Expr, Name, NoMemory, Node, Prim, Rows, Var};

// A letter and a number.
fn numbered(letter: u8, n: u32) -> Name
    ensures { result ≡ letter ∷ decimal n }
{
    let mut bytes = [letter; 11];
    let mut buffer = Buffer::new();
    let digits = buffer.format(n).as_bytes();
    let end = 1 + digits.len();
    bytes[1..end].copy_from_slice(digits);
    match Name::of(&bytes[..end]) {
        Some(name) => name,
        None => unreachable!(),
    }
}

fn calculated(calc: Calc) -> Expr
    ensures { expression_of result ≡ tuple (calculation_of calc ∷ []) }
{
    match Calcs::of(&[calc]) {
        Some(calcs) => Expr::Tuple(calcs),
        None => unreachable!(),
    }
}

// Puts a node behind the others. The few nodes of an event of the generator keep all limits.
fn put(code: &mut EventCode, node: Node) -> Result<u32, NoMemory>
    ensures number { IfOk result (λ n. n ≡ length code.old) }
    ensures appended { OnOk result (code.new ≡ code.old ++ node ∷ []) }
    ensures before { IsForest code.old }
    ensures behind { IsForest code.new }
{
    let _ = code.len();
    let number = code.push(node);
    let _ = code.len();
    match number {
        Ok(number) => Ok(number),
        Err(_) => Err(NoMemory),
    }
}

// Puts the nodes of do { _0 <- send p (round); recv r }.
fn put_starting(code: &mut EventCode, p: u32, r: u32, round: u32) -> Result<u32, NoMemory>
    ensures root { IfOk result (λ n. n < length code.new) }
    ensures event { IfOk result (λ n. term_under code.new n ≡ starting p r round) }
    ensures grows { OnOk result (CodeGrows code.old code.new) }
{
    let sent = put(
        code,
        Node::Send(
            Prim::Chan(p),
            calculated(Calc::One(Prim::Int(round as i64))),
        ),
    )?;
    let received = put(code, Node::Recv(Prim::Chan(r)))?;
    put(code, Node::Then(sent, received))
}

// Puts the nodes of do { _0 <- recv p; _1 <- send q (_0.0 + 1); always _0 }.
fn put_passing(code: &mut EventCode, p: u32, q: u32) -> Result<u32, NoMemory>
    ensures root { IfOk result (λ n. n < length code.new) }
    ensures event { IfOk result (λ n. term_under code.new n ≡ passing_event p q) }
{
    let received = put(code, Node::Recv(Prim::Chan(p)))?;
    let more = Calc::Op(Arith::Add, Prim::Part(Var::Inner(0), 0), Prim::Int(1));
    let sent = put(code, Node::Send(Prim::Chan(q), calculated(more)))?;
    let given = put(code, Node::Always(Expr::Whole(Var::Inner(0))))?;
    let rest = put(code, Node::Then(sent, given))?;
    put(code, Node::Then(received, rest))
}

// The nodes of a thread's events, and the roots of its events round by round.
#[derive(Drop)]
struct Events {
    code: EventCode,
    roots: Vec<u32>,
}

// The events of a thread that starts a number each round.
fn starting_events(alloc: Global, p: u32, r: u32, rounds: u32) -> Result<Events, NoMemory>
    ensures { IfOk result (λ e. HasEvents e.code e.roots.items (each (starting p r) rounds)) }
{
    let mut code = EventCode::new(alloc);
    let mut roots = Vec::new(alloc);
    for round in 0..rounds {
        let root = put_starting(&mut code, p, r, round)?;
        roots.push(root)?;
    }
    Ok(Events { code, roots })
}

// The events of a thread that passes a number on each round: one event, whose root stands for every round.
fn passing_events(alloc: Global, p: u32, q: u32, rounds: u32) -> Result<Events, NoMemory>
    ensures { IfOk result (λ e. HasEvents e.code e.roots.items (each (λ round. passing_event p q) rounds)) }
{
    let mut code = EventCode::new(alloc);
    let root = put_passing(&mut code, p, q)?;
    let roots = every_round(alloc, root, rounds)?;
    Ok(Events { code, roots })
}

// A root for every round.
fn every_round(alloc: Global, root: u32, rounds: u32) -> Result<Vec<u32>, NoMemory>
    ensures { IfOk result (λ roots. roots.items ≡ each (λ round. root) rounds) }
{
    let mut roots = Vec::new(alloc);
    for _round in 0..rounds {
        roots.push(root)?;
    }
    Ok(roots)
}

// The events of a thread by its place in its ring, whose first channel is given.
fn events_of(alloc: Global, thread: u32, rounds: u32) -> Result<Events, NoMemory>
    requires { thread < 63 }
    ensures { IfOk result (λ e. HasEvents e.code e.roots.items (each (event_of thread) rounds)) }
{
    let first = 3 * (thread / 3);
    let place = thread % 3;
    if place == 0 {
        return starting_events(alloc, first, first + 2, rounds);
    }
    if place == 1 {
        return passing_events(alloc, first, first + 1, rounds);
    }
    passing_events(alloc, first + 1, first + 2, rounds)
}

// A sync for each root, and then an emit.
fn statements(alloc: Global, events: Events) -> Result<Rows<Stmt>, NoMemory>
    requires { AllByRecursion (λ i. i < length events.code) events.roots.items }
    ensures value { IfOk result (λ stmts. map statement_of stmts ≡ map (sync 0) (map (term_under events.code) events.roots.items) ++ emit (whole (register 0)) ∷ []) }
    ensures roots { IfOk result (λ stmts. AllByRecursion RootIsNode stmts) }
{
    let Events { code, roots } = events;
    let code = Arc::new(alloc, code)?;
    let mut stmts = Rows::new(alloc);
    for root in roots.as_slice() {
        let code = Arc::try_clone(&code)?;
        stmts.push(Stmt::Sync {
            reg: 0,
            code,
            root: *root,
        })?;
    }
    stmts.push(Stmt::Emit(Expr::Whole(Var::Reg(0))))?;
    Ok(stmts)
}

// One thread of a ring.
fn thread_text(alloc: Global, thread: u32, rounds: u32) -> Result<ThreadText, NoMemory>
    requires few { thread < 63 }
    requires some { 0 < rounds }
    requires most { rounds ≤ 300 }
    ensures { IfOk result (λ text. text ≡ generated_thread rounds thread) }
{
    let events = events_of(alloc, thread, rounds)?;
    let stmts = statements(alloc, events)?;
    let name = numbered(b't', thread);
    let mut regs = Rows::new(alloc);
    regs.push(x_name())?;
    Ok(ThreadText { name, regs, stmts })
}

// The name of the one register.
fn x_name() -> Name
    ensures { result ≡ codes "x" }
{
    match Name::of(b"x") {
        Some(name) => name,
        None => unreachable!(),
    }
}

/// The script of the generator with this number, from 0 to 999: 1 + number mod 21 rings of three threads,
/// which pass a number round in 1 + number mod 300 rounds. Threads share one event for all rounds in which
/// it is the same. The one refusal is want of memory. The generator is this project's own.
pub fn generate(alloc: Global, number: u32) -> Result<Script, NoMemory>
    requires { number ≤ 999 }
    ensures { IfOk result (λ script. script ≡ generated number) }
{
    let count = 3 * (1 + number % 21);
    let rounds = 1 + number % 300;
    let mut channels = Rows::new(alloc);
    for channel in 0..count {
        channels.push(numbered(b'c', channel))?;
    }
    let mut threads = Rows::new(alloc);
    for thread in 0..count {
        let text = thread_text(alloc, thread, rounds)?;
        threads.push(Arc::new(alloc, text)?)?;
    }
    Ok(Script { channels, threads })
}
