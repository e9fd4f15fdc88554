// Whether an entry that a line says may stand there: whether it follows, and whether its thread wished it so.

ghost use Rattle.std.specs.Prelude.{◌≡◌, ◌≢◌, ◌↔◌, ◌<◌, List, Some, length, slice_get, IsTrue, IfOk, IfSome, IfNone};
ghost use Rattle.te_terms.specs.declared.event.Outcome.{Outcome as Given};
ghost use Rattle.te_script.specs.Wishes.{wish, done, raised};
ghost use Rattle.te_script.specs.Cores.{core_after};
ghost use Rattle.te_history.specs.declared.entry.StepFault.TheVariants as faults;
ghost use Rattle.te_history.specs.Follows.{caller_of, LooselyFollows};
ghost use Rattle.te_history.specs.Refusals.{IsRefused};
ghost use Rattle.te_report.specs.OfScript.{EndsSo};
ghost use Rattle.te_report.specs.Following.{AreFollowed};
ghost use Rattle.te_report.specs.declared.saying.Said.TheVariants as says;
ghost use Rattle.te_report.specs.Judging.{IsUnposted, HasUnposted, IsWishedAt, IsJudged, PostIsRefused, sayer};

use crate::fault::Cause;
use crate::saying::Said;
use std::alloc::Global;
use std::sync::Arc;
use te_history::{Entry, Hist, How, StepFault, may_follow};
use te_script::{Core, Script, Site, Want};
use te_terms::{Event, EventCode, NoMemory, Node, Value};

/// An entry that may stand, or why the one that is said may not.
#[derive(Drop)]
pub(crate) enum Verdict {
    Stands(Entry),
    Fails(Cause),
}

// Why an entry doesn't follow; `None` where it does.
fn refusal(alloc: Global, hist: &Hist, entry: &Entry) -> Result<Option<StepFault>, NoMemory>
    ensures refused { IfOk result (λ found. IfSome found (λ fault. IsRefused hist.now entry.now fault × (fault ≢ faults.Memory))) }
    ensures follows { IfOk result (λ found. IfNone found (LooselyFollows hist.now.callers hist.now.entries entry.now)) }
{
    match may_follow(alloc, hist, entry) {
        Ok(()) => Ok(None),
        Err(StepFault::Memory) => Err(NoMemory),
        Err(fault) => Ok(Some(fault)),
    }
}

fn is_same(value: &Value, other: &Value) -> bool
    ensures { IsTrue result ↔ (value.now ≡ other.now) }
{
    *value == *other
}

// The first place at which the two lists differ, or at which only one of them goes on.
fn first_other(others: &[Value], values: &[Value]) -> Option<usize>
    ensures some { IfSome result (λ i. slice_get others.now i ≢ slice_get values.now i) }
    ensures none { IfNone result (others.now ≡ values.now) }
{
    for i in 0..values.len() {
        let Some(other) = others.get(i) else {
            return Some(i);
        };
        if !is_same(other, &values[i]) {
            return Some(i);
        }
    }
    if values.len() < others.len() {
        Some(values.len())
    } else {
        None
    }
}

fn are_same(others: &[Value], values: &[Value]) -> bool
    ensures { IsTrue result ↔ (others.now ≡ values.now) }
{
    match first_other(others, values) {
        Some(_) => false,
        None => true,
    }
}

// Whether the thread of a core wishes to end with these values.
fn is_done(core: &Core, values: &[Value]) -> Result<bool, NoMemory>
    ensures { (outs : List Given) → core.now ≡ core_after core.now.thread outs → IfOk result (λ ends. IsTrue ends ↔ (wish core.now.thread outs ≡ done values.now)) }
{
    match core.want()? {
        Want::Done => Ok(are_same(core.emitted(), values)),
        Want::Sync(_) => Ok(false),
        Want::Raised(_) => Ok(false),
    }
}

// Whether the thread of a core wishes to end with this raised value.
fn is_raised(core: &Core, value: &Value) -> Result<bool, NoMemory>
    ensures { (outs : List Given) → core.now ≡ core_after core.now.thread outs → IfOk result (λ ends. IsTrue ends ↔ (wish core.now.thread outs ≡ raised value.now)) }
{
    match core.want()? {
        Want::Raised(raised) => Ok(is_same(value, &raised)),
        Want::Sync(_) => Ok(false),
        Want::Done => Ok(false),
    }
}

// Whether the thread of a core wishes to end so; being stuck is nobody's wish, and is asked of none.
fn ends_so(core: &Core, how: &How) -> Result<bool, NoMemory>
    ensures { (outs : List Given) → core.now ≡ core_after core.now.thread outs → IfOk result (λ ends. IsTrue ends ↔ EndsSo (wish core.now.thread outs) how.now) }
{
    match how {
        How::Stuck => Ok(true),
        How::Done(values) => is_done(core, values.as_slice()),
        How::Raised(value) => is_raised(core, value),
    }
}

// Whether the thread of an entry wishes it.
fn is_wished(
    script: &Script,
    hist: &Hist,
    cores: &Vec<Core>,
    entry: &Entry,
) -> Result<bool, NoMemory>
    requires so_far { AreFollowed script.now hist.now cores.now.items }
    requires unposted { IsUnposted entry.now }
    requires caller { caller_of entry.now < length cores.now.items }
    ensures { IfOk result (λ wished. IsTrue wished ↔ IsWishedAt script.now hist.now.entries entry.now) }
{
    match entry {
        Entry::End { by, how } => ends_so(&cores[*by as usize], how),
        _ => Ok(true),
    }
}

fn judge_entry(
    alloc: Global,
    script: &Script,
    hist: &Hist,
    cores: &Vec<Core>,
    sites: bool,
    entry: Entry,
) -> Result<Verdict, NoMemory>
    requires so_far { AreFollowed script.now hist.now cores.now.items }
    requires unposted { IsUnposted entry }
    requires caller { caller_of entry < length cores.now.items }
    ensures { IfOk result (λ verdict. IsJudged sites script.now hist.now (says.Entry entry) verdict) }
{
    if let Some(fault) = refusal(alloc, hist, &entry)? {
        return Ok(Verdict::Fails(Cause::Step(fault)));
    }
    if !is_wished(script, hist, cores, &entry)? {
        return Ok(Verdict::Fails(Cause::Script));
    }
    Ok(Verdict::Stands(entry))
}

// An event that can never happen.
fn some_event(alloc: Global) -> Result<Event, NoMemory> {
    let mut code = EventCode::new(alloc);
    let Ok(root) = code.push(Node::Never) else {
        return Err(NoMemory);
    };
    match Event::new(Arc::new(alloc, code)?, root, [Value::unit(); 8]) {
        Some(event) => Ok(event),
        None => Err(NoMemory),
    }
}

// Why a post fails that its thread doesn't wish: whether it follows doesn't hang on its event.
fn unwished_post(alloc: Global, hist: &Hist, by: u32, ticket: u32) -> Result<Cause, NoMemory>
    ensures { IfOk result (λ cause. PostIsRefused hist.now by ticket cause) }
{
    let entry = Entry::Post {
        by,
        ticket,
        event: some_event(alloc)?,
    };
    match refusal(alloc, hist, &entry)? {
        Some(fault) => Ok(Cause::Step(fault)),
        None => Ok(Cause::Script),
    }
}

fn is_site(site: &Site, said: Option<Site>) -> bool
    ensures { IsTrue result ↔ (said ≡ Some site.now) }
{
    match said {
        Some(said) => said.statement == site.statement && said.pass == site.pass,
        None => false,
    }
}

fn judge_post(
    alloc: Global,
    script: &Script,
    hist: &Hist,
    cores: &Vec<Core>,
    sites: bool,
    by: u32,
    ticket: u32,
    site: Option<Site>,
) -> Result<Verdict, NoMemory>
    requires so_far { AreFollowed script.now hist.now cores.now.items }
    requires caller { by < length cores.now.items }
    ensures { IfOk result (λ verdict. IsJudged sites script.now hist.now (says.Post by ticket site) verdict) }
{
    let core = &cores[by as usize];
    match core.want()? {
        Want::Sync(event) => {
            let entry = Entry::Post { by, ticket, event };
            if let Some(fault) = refusal(alloc, hist, &entry)? {
                return Ok(Verdict::Fails(Cause::Step(fault)));
            }
            if sites && !is_site(&core.site(), site) {
                return Ok(Verdict::Fails(Cause::Script));
            }
            Ok(Verdict::Stands(entry))
        }
        _ => Ok(Verdict::Fails(unwished_post(alloc, hist, by, ticket)?)),
    }
}

/// Whether what a line says may stand there, in a version that tells sites or not.
pub(crate) fn judge(
    alloc: Global,
    script: &Script,
    hist: &Hist,
    cores: &Vec<Core>,
    sites: bool,
    said: Said,
) -> Result<Verdict, NoMemory>
    requires so_far { AreFollowed script.now hist.now cores.now.items }
    requires caller { sayer said < length cores.now.items }
    requires unposted { HasUnposted said }
    ensures { IfOk result (λ verdict. IsJudged sites script.now hist.now said verdict) }
{
    match said {
        Said::Post { by, ticket, site } => judge_post(
            alloc, script, hist, cores, sites, by, ticket, site,
        ),
        Said::Entry(entry) => judge_entry(alloc, script, hist, cores, sites, entry),
    }
}
