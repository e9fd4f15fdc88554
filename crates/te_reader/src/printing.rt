ghost use Rattle.std.specs.Prelude.{◌≡◌, suc, ◌+◌, ◌<◌, ◌≤◌, [], ◌++◌, length, map, OnOk, IfOk};
ghost use Rattle.std.specs.List.{flat_map, AllByRecursion};
ghost use Rattle.std.specs.Fmt.{decimal, signed_decimal};
ghost use Rattle.te_terms.specs.Codes.{variable_of, primitive_of, calculation_of, expression_of, term_at, term_under};
ghost use Rattle.te_terms.specs.Expressions.{tuple};
ghost use Rattle.te_terms.specs.Terms.{and_then, choose, catch, when};
ghost use Rattle.te_terms.specs.Views.{expression_seen, node_seen};
ghost use Rattle.te_terms.specs.Shape.{children};
ghost use Rattle.te_script.specs.Texts.{statement_of, RootIsNode};
ghost use Rattle.te_reader.specs.Grammar.{EventPlace as Place, alone};
ghost use Rattle.te_reader.specs.Answering.{leaf};
ghost use Rattle.te_reader.specs.Printed.{standing_of, spelling_of_names};
ghost use Rattle.te_reader.specs.Canonical.{name_at, inner_text, variable_text, primitive_text, arith_text};
ghost use Rattle.te_reader.specs.Canonical.{calculation_text, further_text, inside_text, expression_text, test_text};
ghost use Rattle.te_reader.specs.Canonical.{do_open, do_close, choose_open, choose_close, event_text, indent, closing};
ghost use Rattle.te_reader.specs.Canonical.{line_text, left_behind, lines_text, thread_text, spaced, channels_text};
ghost use Rattle.te_reader.specs.Canonical.{canonical_text};
ghost use Rattle.te_reader.specs.Text.{Text};
ghost use Rattle.te_reader.specs.Limits.{most_bytes};
ghost use Rattle.te_terms.specs.Limits.{most_nodes};

use itoa::Buffer;
use std::alloc::Global;
use std::sync::Arc;
use te_script::{Script, Stmt, ThreadText};
use te_terms::{
    Arith, Calc, Cond, EventCode, Expr, ExprView, Name, NoMemory, NodeView, Prim, Rows, Test, Var,
};

// Where an event stands: by itself, or behind a part of a `do` or a bar of a `choose`, where a further one
// needs no braces of its own.
#[derive(Clone, Copy)]
enum Standing {
    Alone,
    InDo,
    InChoose,
}

// The names by which channels and registers are spelled.
#[derive(Clone, Copy)]
struct Names<'a> {
    channels: &'a [Name],
    registers: &'a [Name],
}

fn put(out: &mut Vec<u8>, text: &[u8]) -> Result<(), NoMemory>
    ensures { OnOk result (out.new.items ≡ out.old.items ++ text.now) }
{
    out.extend_from_slice(text)?;
    Ok(())
}

// Most numbers have one digit.
#[tactic(auto, using(std::proofs::lemmas::Fmt::decimal_digit))]
fn put_number(out: &mut Vec<u8>, n: u32) -> Result<(), NoMemory>
    ensures { OnOk result (out.new.items ≡ out.old.items ++ decimal n) }
{
    if n < 10 {
        out.push(b'0' + n as u8)?;
        return Ok(());
    }
    put(out, Buffer::new().format(n).as_bytes())
}

fn put_integer(out: &mut Vec<u8>, z: i64) -> Result<(), NoMemory>
    ensures { OnOk result (out.new.items ≡ out.old.items ++ signed_decimal z) }
{
    put(out, Buffer::new().format(z).as_bytes())
}

fn put_name(out: &mut Vec<u8>, names: &[Name], place: usize) -> Result<(), NoMemory>
    ensures { OnOk result (out.new.items ≡ out.old.items ++ name_at names.now place) }
{
    match names.get(place) {
        Some(name) => put(out, name.bytes()),
        None => Ok(()),
    }
}

fn put_inner(out: &mut Vec<u8>, level: u32) -> Result<(), NoMemory>
    ensures { OnOk result (out.new.items ≡ out.old.items ++ inner_text level) }
{
    put(out, b"_")?;
    put_number(out, level)
}

fn put_variable(out: &mut Vec<u8>, names: &Names<'_>, x: Var) -> Result<(), NoMemory>
    ensures { OnOk result (out.new.items ≡ out.old.items ++ variable_text (spelling_of_names names.now) (variable_of x)) }
{
    match x {
        Var::Reg(r) => put_name(out, names.registers, r as usize),
        Var::Inner(level) => put_inner(out, level as u32),
    }
}

fn put_primitive(out: &mut Vec<u8>, names: &Names<'_>, p: Prim) -> Result<(), NoMemory>
    ensures { OnOk result (out.new.items ≡ out.old.items ++ primitive_text (spelling_of_names names.now) (primitive_of p)) }
{
    match p {
        Prim::Int(z) => put_integer(out, z),
        Prim::Chan(c) => put_name(out, names.channels, c as usize),
        Prim::Part(x, place) => {
            put_variable(out, names, x)?;
            put(out, b".")?;
            put_number(out, place as u32)
        }
    }
}

fn put_arith(out: &mut Vec<u8>, op: Arith) -> Result<(), NoMemory>
    ensures { OnOk result (out.new.items ≡ out.old.items ++ arith_text op) }
{
    match op {
        Arith::Add => put(out, b" + "),
        Arith::Sub => put(out, b" - "),
        Arith::Mul => put(out, b" * "),
    }
}

fn put_calculation(out: &mut Vec<u8>, names: &Names<'_>, c: &Calc) -> Result<(), NoMemory>
    ensures { OnOk result (out.new.items ≡ out.old.items ++ calculation_text (spelling_of_names names.now) (calculation_of c.now)) }
{
    match c {
        Calc::One(p) => put_primitive(out, names, *p),
        Calc::Op(op, p, q) => {
            put_primitive(out, names, *p)?;
            put_arith(out, *op)?;
            put_primitive(out, names, *q)
        }
    }
}

fn put_further(out: &mut Vec<u8>, names: &Names<'_>, calcs: &[Calc]) -> Result<(), NoMemory>
    ensures { OnOk result (out.new.items ≡ out.old.items ++ further_text (spelling_of_names names.now) (map calculation_of calcs.now)) }
{
    for calc in calcs {
        put(out, b", ")?;
        put_calculation(out, names, calc)?;
    }
    Ok(())
}

fn put_inside(out: &mut Vec<u8>, names: &Names<'_>, calcs: &[Calc]) -> Result<(), NoMemory>
    ensures { OnOk result (out.new.items ≡ out.old.items ++ inside_text (spelling_of_names names.now) (map calculation_of calcs.now)) }
{
    match calcs {
        [] => Ok(()),
        [first, further @ ..] => {
            put_calculation(out, names, first)?;
            put_further(out, names, further)
        }
    }
}

fn put_tuple(out: &mut Vec<u8>, names: &Names<'_>, calcs: &[Calc]) -> Result<(), NoMemory>
    ensures { OnOk result (out.new.items ≡ out.old.items ++ expression_text (spelling_of_names names.now) (tuple (map calculation_of calcs.now))) }
{
    put(out, b"(")?;
    put_inside(out, names, calcs)?;
    put(out, b")")
}

fn put_expression(out: &mut Vec<u8>, names: &Names<'_>, e: &Expr) -> Result<(), NoMemory>
    ensures { OnOk result (out.new.items ≡ out.old.items ++ expression_text (spelling_of_names names.now) (expression_of e.now)) }
{
    match e {
        Expr::Whole(x) => put_variable(out, names, *x),
        Expr::Tuple(calcs) => put_tuple(out, names, calcs.as_slice()),
    }
}

// An expression that a code lends.
fn put_lent(out: &mut Vec<u8>, names: &Names<'_>, e: &ExprView<'_>) -> Result<(), NoMemory>
    ensures { OnOk result (out.new.items ≡ out.old.items ++ expression_text (spelling_of_names names.now) (expression_of (expression_seen e.now))) }
{
    match e {
        ExprView::Whole(x) => put_variable(out, names, *x),
        ExprView::Tuple(calcs) => put_tuple(out, names, calcs),
    }
}

fn put_test(out: &mut Vec<u8>, test: Test) -> Result<(), NoMemory>
    ensures { OnOk result (out.new.items ≡ out.old.items ++ test_text test) }
{
    match test {
        Test::Equal => put(out, b" = "),
        Test::Less => put(out, b" < "),
    }
}

fn put_condition(out: &mut Vec<u8>, names: &Names<'_>, c: &Cond) -> Result<(), NoMemory>
    ensures { OnOk result (out.new.items ≡ out.old.items ++ (primitive_text (spelling_of_names names.now)
        (primitive_of c.now.left) ++ test_text c.now.test ++ primitive_text (spelling_of_names names.now)
        (primitive_of c.now.right))) }
{
    put_primitive(out, names, c.left)?;
    put_test(out, c.test)?;
    put_primitive(out, names, c.right)
}

fn do_open(standing: Standing) -> &'static [u8]
    ensures { result.now ≡ do_open (standing_of standing) }
{
    match standing {
        Standing::InDo => b"",
        Standing::Alone => b"do { ",
        Standing::InChoose => b"do { ",
    }
}

fn do_close(standing: Standing) -> &'static [u8]
    ensures { result.now ≡ do_close (standing_of standing) }
{
    match standing {
        Standing::InDo => b"",
        Standing::Alone => b" }",
        Standing::InChoose => b" }",
    }
}

fn choose_open(standing: Standing) -> &'static [u8]
    ensures { result.now ≡ choose_open (standing_of standing) }
{
    match standing {
        Standing::InChoose => b"",
        Standing::Alone => b"choose { ",
        Standing::InDo => b"choose { ",
    }
}

fn choose_close(standing: Standing) -> &'static [u8]
    ensures { result.now ≡ choose_close (standing_of standing) }
{
    match standing {
        Standing::InChoose => b"",
        Standing::Alone => b" }",
        Standing::InDo => b" }",
    }
}

// The node of an event that has no parts.
fn put_leaf(out: &mut Vec<u8>, names: &Names<'_>, node: &NodeView<'_>) -> Result<(), NoMemory>
    requires { children (node_seen node.now) ≡ [] }
    ensures { (at : Place) → OnOk result (out.new.items ≡ out.old.items ++ event_text (spelling_of_names names.now) at (leaf (node_seen node.now))) }
{
    match node {
        NodeView::Always(e) => {
            put(out, b"always ")?;
            put_lent(out, names, e)
        }
        NodeView::Never => put(out, b"never"),
        NodeView::Fresh => put(out, b"fresh"),
        NodeView::Throw(e) => {
            put(out, b"throw ")?;
            put_lent(out, names, e)
        }
        NodeView::Send(p, e) => {
            put(out, b"send ")?;
            put_primitive(out, names, *p)?;
            put(out, b" ")?;
            put_lent(out, names, e)
        }
        NodeView::Recv(p) => {
            put(out, b"recv ")?;
            put_primitive(out, names, *p)
        }
        NodeView::Then(_, _) => unreachable!(),
        NodeView::Choose(_, _) => unreachable!(),
        NodeView::Catch(_, _) => unreachable!(),
        NodeView::If(_, _, _) => unreachable!(),
    }
}

// The event under a node. The parts are earlier nodes, and no path is longer than the height, which is at
// most 32.
#[cycle(print)]
fn put_event(
    out: &mut Vec<u8>,
    names: &Names<'_>,
    code: &EventCode,
    root: u32,
    level: u32,
    standing: Standing,
) -> Result<(), NoMemory>
    requires root { root < length code.now }
    requires low { level + root ≤ most_nodes }
    ensures { OnOk result (out.new.items ≡ out.old.items ++ event_text (spelling_of_names names.now) (standing_of standing) (term_at code.now level root)) }
{
    let Some(node) = code.look(root) else {
        unreachable!()
    };
    match &node {
        NodeView::Then(a, b) => put_then(out, names, code, *a, *b, level, standing),
        NodeView::Choose(a, b) => put_choose(out, names, code, *a, *b, level, standing),
        NodeView::Catch(a, b) => put_catch(out, names, code, *a, *b, level),
        NodeView::If(c, a, b) => put_if(out, names, code, c, *a, *b, level),
        leaf => put_leaf(out, names, leaf),
    }
}

#[cycle(print)]
fn put_then(
    out: &mut Vec<u8>,
    names: &Names<'_>,
    code: &EventCode,
    a: u32,
    b: u32,
    level: u32,
    standing: Standing,
) -> Result<(), NoMemory>
    requires first { a < length code.now }
    requires second { b < length code.now }
    requires low { level + a < most_nodes }
    requires next { level + b < most_nodes }
    ensures { OnOk result (out.new.items ≡ out.old.items ++ event_text (spelling_of_names names.now)
        (standing_of standing) (and_then (term_at code.now level a) level (term_at code.now (suc level) b))) }
{
    put(out, do_open(standing))?;
    put_inner(out, level)?;
    put(out, b" <- ")?;
    put_event(out, names, code, a, level, Standing::Alone)?;
    put(out, b"; ")?;
    put_event(out, names, code, b, level + 1, Standing::InDo)?;
    put(out, do_close(standing))
}

#[cycle(print)]
fn put_choose(
    out: &mut Vec<u8>,
    names: &Names<'_>,
    code: &EventCode,
    a: u32,
    b: u32,
    level: u32,
    standing: Standing,
) -> Result<(), NoMemory>
    requires first { a < length code.now }
    requires second { b < length code.now }
    requires low { level + a < most_nodes }
    requires next { level + b < most_nodes }
    ensures { OnOk result (out.new.items ≡ out.old.items ++ event_text (spelling_of_names names.now) (standing_of standing) (choose (term_at code.now level a) (term_at code.now level b))) }
{
    put(out, choose_open(standing))?;
    put_event(out, names, code, a, level, Standing::Alone)?;
    put(out, b" | ")?;
    put_event(out, names, code, b, level, Standing::InChoose)?;
    put(out, choose_close(standing))
}

#[cycle(print)]
fn put_catch(
    out: &mut Vec<u8>,
    names: &Names<'_>,
    code: &EventCode,
    a: u32,
    b: u32,
    level: u32,
) -> Result<(), NoMemory>
    requires first { a < length code.now }
    requires second { b < length code.now }
    requires low { level + a < most_nodes }
    requires next { level + b < most_nodes }
    ensures { (at : Place) → OnOk result (out.new.items ≡ out.old.items ++ event_text (spelling_of_names names.now) at (catch (term_at code.now level a) level (term_at code.now (suc level) b))) }
{
    put(out, b"try { ")?;
    put_event(out, names, code, a, level, Standing::Alone)?;
    put(out, b" } catch ")?;
    put_inner(out, level)?;
    put(out, b" { ")?;
    put_event(out, names, code, b, level + 1, Standing::Alone)?;
    put(out, b" }")
}

#[cycle(print)]
fn put_if(
    out: &mut Vec<u8>,
    names: &Names<'_>,
    code: &EventCode,
    c: &Cond,
    a: u32,
    b: u32,
    level: u32,
) -> Result<(), NoMemory>
    requires first { a < length code.now }
    requires second { b < length code.now }
    requires low { level + a < most_nodes }
    requires next { level + b < most_nodes }
    ensures { (at : Place) → OnOk result (out.new.items ≡ out.old.items
        ++ event_text (spelling_of_names names.now) at (when c.now.test (primitive_of c.now.left) (primitive_of c.now.right) (term_at code.now level a) (term_at code.now level b))) }
{
    put(out, b"if ")?;
    put_condition(out, names, c)?;
    put(out, b" { ")?;
    put_event(out, names, code, a, level, Standing::Alone)?;
    put(out, b" } else { ")?;
    put_event(out, names, code, b, level, Standing::Alone)?;
    put(out, b" }")
}

// The event of a statement.
fn put_root(
    out: &mut Vec<u8>,
    names: &Names<'_>,
    code: &EventCode,
    root: u32,
) -> Result<(), NoMemory>
    requires { root < length code.now }
    ensures { OnOk result (out.new.items ≡ out.old.items ++ event_text (spelling_of_names names.now) alone (term_under code.now root)) }
{
    let _ = code.len();
    put_event(out, names, code, root, 0, Standing::Alone)
}

fn indent(left: u32) -> &'static [u8]
    ensures { result.now ≡ indent left }
{
    if left == 0 { b"  " } else { b"    " }
}

fn closing(left: u32) -> &'static [u8]
    ensures { result.now ≡ closing left }
{
    if left == 1 { b"  }\n" } else { b"" }
}

// The line of a statement where so many are still to come in a repeat, and how many there are behind it.
fn put_line(out: &mut Vec<u8>, names: &Names<'_>, stmt: &Stmt, left: u32) -> Result<u32, NoMemory>
    requires { RootIsNode stmt.now }
    ensures text { OnOk result (out.new.items ≡ out.old.items ++ line_text (spelling_of_names names.now) left (statement_of stmt.now)) }
    ensures left { IfOk result (λ n. n ≡ left_behind left (statement_of stmt.now)) }
{
    match stmt {
        Stmt::Sync { reg, code, root } => {
            put(out, indent(left))?;
            put_name(out, names.registers, *reg as usize)?;
            put(out, b" <- sync ")?;
            put_root(out, names, code, *root)?;
            put(out, b";\n")?;
            put(out, closing(left))?;
            Ok(left.saturating_sub(1))
        }
        Stmt::Emit(value) => {
            put(out, indent(left))?;
            put(out, b"emit ")?;
            put_expression(out, names, value)?;
            put(out, b";\n")?;
            put(out, closing(left))?;
            Ok(left.saturating_sub(1))
        }
        Stmt::Repeat { times, count } => {
            put(out, b"  repeat ")?;
            put_number(out, *times)?;
            put(out, b" {\n")?;
            Ok(*count)
        }
    }
}

fn put_lines(out: &mut Vec<u8>, names: &Names<'_>, stmts: &[Stmt]) -> Result<(), NoMemory>
    requires { AllByRecursion RootIsNode stmts.now }
    ensures { OnOk result (out.new.items ≡ out.old.items ++ lines_text (spelling_of_names names.now) 0 (map statement_of stmts.now)) }
{
    let mut left = 0;
    for stmt in stmts {
        left = put_line(out, names, stmt, left)?;
    }
    Ok(())
}

fn put_thread(out: &mut Vec<u8>, channels: &[Name], thread: &ThreadText) -> Result<(), NoMemory>
    ensures { OnOk result (out.new.items ≡ out.old.items ++ thread_text channels.now thread.now) }
{
    put(out, b"thread ")?;
    put(out, thread.name.bytes())?;
    put(out, b" {\n")?;
    let names = Names {
        channels,
        registers: thread.regs.as_slice(),
    };
    put_lines(out, &names, thread.stmts.as_slice())?;
    put(out, b"}\n")
}

fn put_threads(
    out: &mut Vec<u8>,
    channels: &[Name],
    threads: &[Arc<ThreadText>],
) -> Result<(), NoMemory>
    ensures { OnOk result (out.new.items ≡ out.old.items ++ flat_map (thread_text channels.now) (map (λ a. a.value) threads.now)) }
{
    for thread in threads {
        put_thread(out, channels, thread)?;
    }
    Ok(())
}

fn put_spaced(out: &mut Vec<u8>, names: &[Name]) -> Result<(), NoMemory>
    ensures { OnOk result (out.new.items ≡ out.old.items ++ flat_map spaced names.now) }
{
    for name in names {
        put(out, b" ")?;
        put(out, name.bytes())?;
    }
    Ok(())
}

fn put_channels(out: &mut Vec<u8>, channels: &[Name]) -> Result<(), NoMemory>
    ensures { OnOk result (out.new.items ≡ out.old.items ++ channels_text channels.now) }
{
    match channels {
        [] => Ok(()),
        [_, ..] => {
            put(out, b"channels")?;
            put_spaced(out, channels)?;
            put(out, b";\n")
        }
    }
}

/// The canonical text of a script: a line for the channels, where there are some, a line for each statement,
/// and single spaces between tokens. Where it has at most 1,048,576 bytes it is a text of the script, so that
/// `read_script` reads it as the same one. The one refusal is want of memory.
pub fn print_script(alloc: Global, script: &Script) -> Result<Rows<u8>, NoMemory>
    ensures canonical { IfOk result (λ text. text ≡ canonical_text script.now) }
    ensures read_again { IfOk result (λ text. length text ≤ most_bytes → Text text script.now) }
{
    let mut out = Vec::new(alloc);
    let channels = script.channels.as_slice();
    put_channels(&mut out, channels)?;
    put_threads(&mut out, channels, script.threads.as_slice())?;
    Ok(Rows::from(out))
}
