// What a store tells of its paths.

ghost use Rattle.std.specs.Prelude.{◌≡◌, ◌<◌, length, Some, slice_get};
ghost use Rattle.te_path.specs.Paths.{StandsAt};
ghost use Rattle.te_path.specs.declared.spot.Stop.{Stop};
ghost use Rattle.te_terms.specs.Steps.{Member};
ghost use Rattle.te_trail.specs.Paths.{Path, IsAbove, OnOneLine};
ghost use Rattle.te_trail.specs.Clocks.{Agree};
ghost use Rattle.te_trail.specs.States.{path_state};
ghost use Rattle.te_trail.specs.Ticks.{AreRising};
ghost use Rattle.te_trail.specs.Trails.{TellsWhether, HaveOneChain, IsPathThread, IsClock, IsStop};
ghost use Rattle.te_trail.specs.Walks.{TellsParent, FitAt, TicksAreLow, TellsFit};

use crate::store::{Last, TrailStore};
use crate::ticks::{Tick, path_of};
use te_path::Stop;

#[tactic(auto, using(crate::proofs::RecordsRead::length_paths))]
impl TrailStore {
    /// The thread of a path.
    pub fn thread(&self, p: u32) -> u32
        requires { p < length self.now.paths }
        ensures { IsPathThread self.now.paths p result }
    {
        self.records[p as usize].thread
    }

    /// Where a path stands: where the member stands that its trail, played as joint steps from the events, leaves
    /// of its thread.
    pub fn stop(&self, p: u32) -> Stop
        requires { p < length self.now.paths }
        ensures told { IsStop self.now p result }
        ensures only { (x : Path) (m : Member) (stop : Stop) → slice_get self.now.paths p ≡ Some x → path_state self.now.events x ≡ Some m → StandsAt m.term stop → result ≡ stop }
    {
        self.records[p as usize].spot.stop()
    }

    /// The deepest path of the thread in the past of a path, which for its own thread is the path itself; `None`
    /// exactly where `thread` isn't the path's own and the past has no path of it.
    pub fn clock(&self, p: u32, thread: u32) -> Option<u32>
        requires { p < length self.now.paths }
        ensures { IsClock self.now.paths p thread result }
    {
        let clock = self.records[p as usize].clock;
        let end = clock.at as usize + clock.len as usize;
        path_of(&self.ticks[clock.at as usize..end], thread)
    }

    // The path before the last move.
    fn parent(&self, p: u32) -> Option<u32>
        requires { p < length self.now.paths }
        ensures { TellsParent self.now.paths p result }
    {
        let record = &self.records[p as usize];
        match record.last {
            Last::Root => None,
            Last::Left => Some(record.parent),
            Last::Right => Some(record.parent),
            Last::Sender => Some(record.parent),
            Last::Receiver => Some(record.parent),
        }
    }

    // Whether `p` is `q` or an ancestor of it: a parent has the smaller number.
    pub(crate) fn above(&self, p: u32, q: u32) -> bool
        requires p_within { p < length self.now.paths }
        requires q_within { q < length self.now.paths }
        ensures { TellsWhether self.now.paths p q IsAbove result }
    {
        let _ = &self.records;
        let mut at = q;
        while at > p {
            match self.parent(at) {
                Some(parent) => at = parent,
                None => return false,
            }
        }
        at == p
    }

    /// Whether one of two paths is the other or an ancestor of it. It takes no memory.
    pub fn on_line(&self, p: u32, q: u32) -> bool
        requires p_within { p < length self.now.paths }
        requires q_within { q < length self.now.paths }
        ensures { TellsWhether self.now.paths p q OnOneLine result }
    {
        self.fits(p, q, false, false)
    }

    // Whether the two paths stand on one line, the second not deeper where `own`, the first not deeper where
    // `other`.
    fn fits(&self, p: u32, q: u32, own: bool, other: bool) -> bool
        requires p_within { p < length self.now.paths }
        requires q_within { q < length self.now.paths }
        ensures { TellsWhether self.now.paths p q (FitAt own other) result }
    {
        let _ = &self.records;
        if p == q {
            return true;
        }
        if p < q {
            return !own && self.above(p, q);
        }
        !other && self.above(q, p)
    }

    /// Whether two paths agree: their threads differ, the paths that both clocks name for one thread stand on one
    /// line, and neither clock passes the other path. That is exactly where the threads differ and one chain of
    /// joint steps has both pasts and leaves both threads at the two paths. It takes no memory.
    pub fn agree(&self, p: u32, q: u32) -> bool
        requires p_within { p < length self.now.paths }
        requires q_within { q < length self.now.paths }
        ensures clocks { TellsWhether self.now.paths p q Agree result }
        ensures chain { TellsWhether self.now.paths p q (HaveOneChain self.now.events) result }
    {
        let a = &self.records[p as usize];
        let b = &self.records[q as usize];
        if a.thread == b.thread {
            return false;
        }
        let a_end = a.clock.at as usize + a.clock.len as usize;
        let b_end = b.clock.at as usize + b.clock.len as usize;
        self.all_fit(
            &self.ticks[a.clock.at as usize..a_end],
            &self.ticks[b.clock.at as usize..b_end],
            a.thread,
            b.thread,
        )
    }

    // Whether the paths that both clocks name fit, for the clocks of paths of the threads `s` and `r`.
    fn all_fit(&self, firsts: &[Tick], seconds: &[Tick], s: u32, r: u32) -> bool
        requires firsts_rise { AreRising firsts.now }
        requires seconds_rise { AreRising seconds.now }
        requires firsts_low { TicksAreLow self.now.paths firsts.now }
        requires seconds_low { TicksAreLow self.now.paths seconds.now }
        ensures { TellsFit self.now.paths s r firsts.now seconds.now result }
    {
        let mut i = 0;
        let mut j = 0;
        'walk: while i < firsts.len() && j < seconds.len() {
            let x = firsts[i];
            let y = seconds[j];
            if x.thread < y.thread {
                i += 1;
                continue;
            }
            if y.thread < x.thread {
                j += 1;
                continue;
            }
            let own = x.thread == s;
            let other = x.thread == r;
            if !self.fits(x.path, y.path, own, other) {
                return false;
            }
            i += 1;
            j += 1;
        }
        true
    }
}
