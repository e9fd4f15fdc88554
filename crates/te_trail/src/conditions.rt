// Whether the conditions hold under which paths are made and taken away. Some of these calls look at every path, or at
// every event.

ghost use Rattle.std.specs.Prelude.{◌≡◌, ◌↔◌, ◌<◌, length, false, None, IsTrue};
ghost use Rattle.te_terms.specs.Joint.{member_of};
ghost use Rattle.te_trail.specs.Trails.{IsUnplanted, IsUnmade, AreUnmet};
ghost use Rattle.te_trail.specs.Walks.{IsNoPlanting, IsNoBranch, IsNoMeeting, IsNoEvent};

use crate::store::{Last, TrailStore};

#[tactic(auto, using(crate::proofs::RecordsRead::length_paths))]
impl TrailStore {
    /// Whether there is event `i`. It is public for tests of the crates above alone.
    #[doc(hidden)]
    pub fn has_event(&self, i: u32) -> bool
        ensures { IsTrue result ↔ (i < length self.now.events) }
    {
        (i as usize) < self.events.len()
    }

    /// Whether there is mark `i`. It is public for tests of the crates above alone.
    #[doc(hidden)]
    pub fn has_mark(&self, i: usize) -> bool
        ensures { IsTrue result ↔ (i < length self.now.marks) }
    {
        i < self.marks.len()
    }

    fn count_events(&self) -> usize
        ensures { result ≡ length self.now.events }
    {
        self.events.len()
    }

    /// Whether the thread has an event. It is public for tests of the crates above alone.
    #[doc(hidden)]
    pub fn has_thread(&self, thread: u32) -> bool
        ensures { result ≡ false → member_of thread self.now.events ≡ None }
    {
        'events: for i in 0..self.count_events() {
            if self.is_event_of(i, thread) {
                return true;
            }
        }
        false
    }

    // Whether event `i` is this thread's.
    fn is_event_of(&self, i: usize, thread: u32) -> bool
        requires { i < length self.now.events }
        ensures { result ≡ false → IsNoEvent self.now.events thread i }
    {
        self.events[i].thread == thread
    }

    /// Whether event `i` is planted. It is public for tests of the crates above alone.
    #[doc(hidden)]
    pub fn has_planted(&self, i: u32) -> bool
        requires { i < length self.now.events }
        ensures { result ≡ false → IsUnplanted self.now i }
    {
        let thread = self.events[i as usize].thread;
        'paths: for k in 0..self.len() {
            if self.is_planting(k, thread) {
                return true;
            }
        }
        false
    }

    // Whether path `k` is the first of this thread.
    fn is_planting(&self, k: u32, thread: u32) -> bool
        requires { k < length self.now.paths }
        ensures { result ≡ false → IsNoPlanting self.now.paths thread k }
    {
        let record = &self.records[k as usize];
        match record.last {
            Last::Root => record.thread == thread,
            _ => false,
        }
    }

    /// Whether this branch of path `p` is made. It is public for tests of the crates above alone.
    #[doc(hidden)]
    pub fn has_branched(&self, p: u32, left: bool) -> bool
        requires { p < length self.now.paths }
        ensures { result ≡ false → IsUnmade self.now p left }
    {
        'paths: for k in 0..self.len() {
            if self.is_branch(k, p, left) {
                return true;
            }
        }
        false
    }

    // Whether path `k` is this branch of path `p`.
    fn is_branch(&self, k: u32, p: u32, left: bool) -> bool
        requires { k < length self.now.paths }
        ensures { result ≡ false → IsNoBranch self.now.paths p left k }
    {
        let record = &self.records[k as usize];
        match record.last {
            Last::Left => left && record.parent == p,
            Last::Right => !left && record.parent == p,
            _ => false,
        }
    }

    /// Whether paths `p` and `q` have met. It is public for tests of the crates above alone.
    #[doc(hidden)]
    pub fn has_met(&self, p: u32, q: u32) -> bool
        ensures { result ≡ false → AreUnmet self.now p q }
    {
        'paths: for k in 0..self.len() {
            if self.is_meeting(k, p, q) {
                return true;
            }
        }
        false
    }

    // Whether path `k` is the first end of a meeting of paths `p` and `q`.
    fn is_meeting(&self, k: u32, p: u32, q: u32) -> bool
        requires { k < length self.now.paths }
        ensures { result ≡ false → IsNoMeeting self.now.paths p q k }
    {
        let record = &self.records[k as usize];
        match record.last {
            Last::Sender => {
                let mate = &self.records[k as usize + 1];
                record.parent == p && mate.parent == q
            }
            _ => false,
        }
    }
}
