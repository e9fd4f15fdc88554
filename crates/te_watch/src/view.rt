ghost use Rattle.std.specs.Prelude.{◌≡◌, ◌+◌, ◌<◌, ◌≤◌, ◌^◌, [], length, slice_get, slice_set};
ghost use Rattle.te_terms.specs.Limits.{most_threads};
ghost use Rattle.te_history.specs.Kept.{phase_after, resting_after};
ghost use Rattle.te_watch.specs.Shadows.{shadow, shadow_of};
ghost use Rattle.te_watch.specs.Views.{lights_given, lights_after, commits_after, shadow_after, shadow_from};

use crate::light::Light;
use te_cert::Member;
use te_history::{Entry, Phase};
use te_terms::Outcome;

/// What an observer sees of a history: its shadow. It is of fixed size. This project's own.
#[derive(Clone, Copy)]
pub struct View {
    front: u64,
    commits: u64,
    callers: u32,
    phase: Phase,
    resting: bool,
    // Those of the callers come first, and the others are never shown.
    lights: [Light; 64],
}

fn set_light(lights: &mut [Light; 64], t: u32, light: Light)
    ensures { lights.new ≡ slice_set lights.old t light }
{
    if t < 64 {
        lights[t as usize] = light;
    }
}

fn give(lights: &mut [Light; 64], members: &[Member], outcomes: &[Outcome])
    ensures { lights.new ≡ lights_given members.now outcomes.now lights.old }
{
    match members {
        [] => {}
        [member, members_rest @ ..] => match outcomes {
            [] => {}
            [_, outcomes_rest @ ..] => {
                set_light(lights, member.thread, Light::Given(member.ticket));
                give(lights, members_rest, outcomes_rest);
            }
        },
    }
}

fn change(lights: &mut [Light; 64], entry: &Entry)
    ensures { lights.new ≡ lights_after lights.old entry.now }
{
    match entry {
        Entry::Post { by, ticket, .. } => set_light(lights, *by, Light::Parked(*ticket)),
        Entry::Commit { cert, outcomes, .. } => give(
            lights,
            cert.members.as_slice(),
            outcomes.as_slice(),
        ),
        Entry::Withdraw { by, .. } | Entry::Take { by, .. } => set_light(lights, *by, Light::Idle),
        Entry::End { by, .. } => set_light(lights, *by, Light::Ended),
        Entry::Rest { .. } | Entry::Stuck { .. } => {}
    }
}

fn count(commits: u64, entry: &Entry) -> u64
    requires { commits < 2 ^ 63 }
    ensures value { result ≡ commits_after commits entry.now }
    ensures few { result ≤ commits + 1 }
{
    match entry {
        Entry::Commit { .. } => commits + 1,
        _ => commits,
    }
}

fn declared(phase: Phase, entry: &Entry) -> Phase
    ensures { result ≡ phase_after phase entry.now }
{
    match entry {
        Entry::Stuck { .. } => Phase::Stuck,
        _ => phase,
    }
}

fn rested(resting: bool, entry: &Entry) -> bool
    ensures { result ≡ resting_after resting entry.now }
{
    match entry {
        Entry::Rest { .. } => true,
        _ => resting,
    }
}

impl View {
    /// The length of the history.
    pub fn front(&self) -> u64
        ensures { result ≡ (shadow_of self.now).front }
    {
        self.front
    }

    /// The number of its commits, whatever the number of their members.
    pub fn commits(&self) -> u64
        ensures { result ≡ (shadow_of self.now).commits }
    {
        self.commits
    }

    /// Whether the board is stuck after it.
    pub fn phase(&self) -> Phase
        ensures { result ≡ (shadow_of self.now).phase }
    {
        self.phase
    }

    /// Whether the board is resting after it.
    pub fn resting(&self) -> bool
        ensures { result ≡ (shadow_of self.now).resting }
    {
        self.resting
    }

    /// Where caller `t` stands after it; `None` exactly where `t` is no caller.
    pub fn light(&self, t: u32) -> Option<Light>
        ensures { result ≡ slice_get (shadow_of self.now).lights t }
    {
        if t < self.callers {
            self.lights.get(t as usize).copied()
        } else {
            None
        }
    }

    /// That of the history with no entry.
    pub(crate) fn opening(callers: u32) -> View
        requires { callers ≤ most_threads }
        ensures callers { result.callers ≡ callers }
        ensures shadow { shadow_of result ≡ shadow callers [] }
    {
        View {
            front: 0,
            commits: 0,
            callers,
            phase: Phase::Running,
            resting: false,
            lights: [Light::Idle; 64],
        }
    }

    /// Goes on by an entry.
    fn add(&mut self, entry: &Entry)
        requires { (self.old.front < 2 ^ 63) × (self.old.commits < 2 ^ 63) }
        ensures callers { self.new.callers ≡ self.old.callers }
        ensures front { self.new.front ≡ self.old.front + 1 }
        ensures commits { self.new.commits ≤ self.old.commits + 1 }
        ensures shadow { shadow_of self.new ≡ shadow_after (shadow_of self.old) entry.now }
    {
        self.front += 1;
        self.commits = count(self.commits, entry);
        self.phase = declared(self.phase, entry);
        self.resting = rested(self.resting, entry);
        change(&mut self.lights, entry);
    }

    /// That of the history which goes on by these entries.
    pub(crate) fn after(&self, news: &[Entry]) -> View
        requires few { self.now.front + length news.now < 2 ^ 63 }
        requires commits { self.now.commits ≤ self.now.front }
        ensures callers { result.callers ≡ self.now.callers }
        ensures shadow { shadow_of result ≡ shadow_from (shadow_of self.now) news.now }
    {
        let mut view = *self;
        for entry in news {
            view.add(entry);
        }
        view
    }
}
