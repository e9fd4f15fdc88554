// Which form's term an event is, read from its nodes.

ghost use Rattle.std.specs.Prelude.{◌≡◌, ◌==◌, ◌&&◌, ℕ, List, length};
ghost use Rattle.std.specs.Option.{option_copied, option_map};
ghost use Rattle.te_terms.specs.declared.value.Atom.{Atom};
ghost use Rattle.te_terms.specs.Expressions.{Variable, in_primitive, in_expression};
ghost use Rattle.te_terms.specs.Terms.{registers_to};
ghost use Rattle.te_terms.specs.Codes.{primitive_of, expression_of};
ghost use Rattle.te_terms.specs.Views.{expression_seen};
ghost use Rattle.te_forms.specs.Reading.{replaced_under, both_under, parts_at, channel_named, constant, sent_by};
ghost use Rattle.te_forms.specs.Reading.{received_by, gives_name, gives_unit, form_if, waits_first, sends_first};
ghost use Rattle.te_forms.specs.Reading.{receives_first, by_end, form_in};

use crate::form::Form;
use crate::ring::Ring;
use te_terms::{Event, EventCode, ExprView, NodeView, Prim, Value, Var};

/// What is sent on which channel.
#[derive(Clone, Copy)]
pub(crate) struct Sent {
    pub channel: u32,
    pub value: Value,
}

fn named(p: Prim) -> Option<u32>
    ensures { (by : Variable → Variable) → channel_named (in_primitive by (primitive_of p)) ≡ result }
{
    match p {
        Prim::Chan(c) => Some(c),
        _ => None,
    }
}

// The value of an expression that is one register.
fn constant_of<'a>(e: &ExprView, regs: &'a [Value; 8]) -> Option<&'a Value>
    ensures { constant (in_expression (registers_to regs.now) (expression_of (expression_seen e.now))) ≡ option_copied result }
{
    match e {
        ExprView::Whole(x) => match x {
            Var::Reg(r) => regs.get(*r as usize),
            Var::Inner(_) => None,
        },
        ExprView::Tuple(_) => None,
    }
}

// The children of a `then`.
fn parts_of(code: &EventCode, i: u32) -> Option<(u32, u32)>
    ensures { (regs : List (List Atom)) (level : ℕ) → parts_at level (replaced_under code.now regs level i) ≡ option_map (both_under code.now regs level) result }
{
    match code.look(i) {
        Some(NodeView::Then(a, b)) => Some((a, b)),
        _ => None,
    }
}

fn sent_at(code: &EventCode, i: u32, regs: &[Value; 8]) -> Option<Sent>
    ensures { (level : ℕ) → sent_by (replaced_under code.now regs.now level i) ≡ result }
{
    let Some(NodeView::Send(p, e)) = code.look(i) else {
        return None;
    };
    let Some(channel) = named(p) else {
        return None;
    };
    match constant_of(&e, regs) {
        Some(value) => Some(Sent {
            channel,
            value: *value,
        }),
        None => None,
    }
}

fn received_at(code: &EventCode, i: u32) -> Option<u32>
    ensures { (regs : List (List Atom)) (level : ℕ) → received_by (replaced_under code.now regs level i) ≡ result }
{
    match code.look(i) {
        Some(NodeView::Recv(p)) => named(p),
        _ => None,
    }
}

// Whether the node gives the inner name 0.
fn is_name(code: &EventCode, i: u32) -> bool
    ensures { (regs : List (List Atom)) (level : ℕ) → gives_name (replaced_under code.now regs level i) ≡ result }
{
    match code.look(i) {
        Some(NodeView::Always(e)) => match e {
            ExprView::Whole(x) => match x {
                Var::Inner(n) => n == 0,
                Var::Reg(_) => false,
            },
            ExprView::Tuple(_) => false,
        },
        _ => false,
    }
}

// Whether the node gives ().
fn is_unit(code: &EventCode, i: u32, regs: &[Value; 8]) -> bool
    ensures { (level : ℕ) → gives_unit (replaced_under code.now regs.now level i) ≡ result }
{
    let Some(NodeView::Always(e)) = code.look(i) else {
        return false;
    };
    match constant_of(&e, regs) {
        Some(value) => value.len() == 0,
        None => false,
    }
}

// Whether a barrier ends so, which has sent the value.
fn is_end(code: &EventCode, end: u32, regs: &[Value; 8], value: &Value) -> bool
    ensures { (level : ℕ) → ((length value.now == 0) && gives_unit (replaced_under code.now regs.now level end)) ≡ result }
{
    value.len() == 0 && is_unit(code, end, regs)
}

fn when(test: bool, form: Form) -> Option<Form>
    ensures { form_if test form ≡ result }
{
    if test { Some(form) } else { None }
}

// A barrier's role 0 from its second part on, which has sent this on its channel.
fn waits(code: &EventCode, rest: u32, regs: &[Value; 8], ring: &Ring, sent: &Sent) -> Option<Form>
    ensures { waits_first ring.now sent.now (parts_at 1 (replaced_under code.now regs.now 1 rest)) ≡ result }
{
    let Some((then, end)) = parts_of(code, rest) else {
        return None;
    };
    let Some(channel) = received_at(code, then) else {
        return None;
    };
    let last = ring.last();
    if channel != last {
        return None;
    }
    let ends = is_end(code, end, regs, &sent.value);
    when(ends, Form::Barrier(0))
}

// Role 0 from its second part on, which has sent this.
fn after_send(
    code: &EventCode,
    rest: u32,
    regs: &[Value; 8],
    ring: &Ring,
    sent: &Sent,
) -> Option<Form>
    ensures { sends_first ring.now (replaced_under code.now regs.now 1 rest) sent.now ≡ result }
{
    let first = ring.first();
    if sent.channel != first {
        return None;
    }
    let Some(channel) = received_at(code, rest) else {
        return waits(code, rest, regs, ring, sent);
    };
    let last = ring.last();
    if channel != last {
        return None;
    }
    Some(Form::Swap(0, sent.value))
}

// A role by what it gives in the end, with what it has sent.
fn ended(code: &EventCode, end: u32, regs: &[Value; 8], role: u32, value: &Value) -> Option<Form>
    ensures { by_end role value.now (replaced_under code.now regs.now 2 end) ≡ result }
{
    if is_name(code, end) {
        return Some(Form::Swap(role, *value));
    }
    let ends = is_end(code, end, regs, value);
    when(ends, Form::Barrier(role))
}

// Another role than 0 from its second part on, which has received on the channel.
fn after_receive(
    code: &EventCode,
    rest: u32,
    regs: &[Value; 8],
    ring: &Ring,
    channel: u32,
) -> Option<Form>
    ensures { receives_first ring.now channel (parts_at 1 (replaced_under code.now regs.now 1 rest)) ≡ result }
{
    let Some((second, end)) = parts_of(code, rest) else {
        return None;
    };
    let Some(sent) = sent_at(code, second, regs) else {
        return None;
    };
    let Some(role) = ring.role_on(sent.channel) else {
        return None;
    };
    if role == 0 {
        return None;
    }
    let before = ring.channel(role - 1);
    if before != channel {
        return None;
    }
    ended(code, end, regs, role, &sent.value)
}

// The form whose term stands under a node.
fn form_under(code: &EventCode, root: u32, regs: &[Value; 8], ring: &Ring) -> Option<Form>
    ensures { form_in ring.now (replaced_under code.now regs.now 0 root) ≡ result }
{
    let Some((first, rest)) = parts_of(code, root) else {
        return None;
    };
    if let Some(sent) = sent_at(code, first, regs) {
        return after_send(code, rest, regs, ring, &sent);
    }
    let Some(channel) = received_at(code, first) else {
        return None;
    };
    after_receive(code, rest, regs, ring, channel)
}

/// The form over the ring whose term the event is; `None` where it is the term of none. It takes no memory.
pub(crate) fn form_of(event: &Event, ring: &Ring) -> Option<Form>
    ensures { form_in ring.now event.now ≡ result }
{
    let (code, root, regs) = event.parts();
    form_under(code, root, regs, ring)
}
