// The past of a path, in order of making.

ghost use Rattle.std.specs.Prelude.{◌≡◌, ◌<◌, length, IfOk};
ghost use Rattle.te_trail.specs.Trails.{TellsWhether, IsTrail};
ghost use Rattle.te_trail.specs.Walks.{IsInPast, TellsMove, TellsPastMove};

use crate::moves::Move;
use crate::store::{Last, TrailStore};
use std::alloc::Global;
use te_terms::{NoMemory, Rows};

#[tactic(auto, using(crate::proofs::RecordsRead::length_paths))]
impl TrailStore {
    /// The choices and meetings that a path rests on, in order of making. The one refusal is want of memory.
    pub fn trail(&self, alloc: Global, p: u32) -> Result<Rows<Move>, NoMemory>
        requires { p < length self.now.paths }
        ensures { IfOk result (λ moves. IsTrail self.now.paths p moves) }
    {
        let mut moves = Rows::new(alloc);
        'moves: for i in 0..self.len() {
            if let Some(made) = self.past_move(p, i) {
                moves.push(made)?;
            }
        }
        Ok(moves)
    }

    // The choice or meeting that made path `i`, where path `p` rests on it. Only the first end of a meeting tells it.
    fn past_move(&self, p: u32, i: u32) -> Option<Move>
        requires p_within { p < length self.now.paths }
        requires i_within { i < length self.now.paths }
        ensures { TellsPastMove self.now.paths p i result }
    {
        if self.rests(p, i) {
            self.move_at(i)
        } else {
            None
        }
    }

    // Whether path `p` rests on the move that made path `i`: whether `i` is above what the clock of `p` names for its
    // thread.
    fn rests(&self, p: u32, i: u32) -> bool
        requires p_within { p < length self.now.paths }
        requires i_within { i < length self.now.paths }
        ensures { TellsWhether self.now.paths p i IsInPast result }
    {
        let _ = &self.records;
        match self.clock(p, self.thread(i)) {
            Some(deepest) => self.above(i, deepest),
            None => false,
        }
    }

    // The choice or meeting that made path `i`, told by the first end alone.
    fn move_at(&self, i: u32) -> Option<Move>
        requires { i < length self.now.paths }
        ensures { TellsMove self.now.paths i result }
    {
        let record = &self.records[i as usize];
        match record.last {
            Last::Root => None,
            Last::Left => Some(Move::Branch {
                thread: record.thread,
                left: true,
            }),
            Last::Right => Some(Move::Branch {
                thread: record.thread,
                left: false,
            }),
            Last::Sender => {
                let mate = &self.records[i as usize + 1];
                Some(Move::Meet {
                    sender: record.thread,
                    receiver: mate.thread,
                })
            }
            Last::Receiver => None,
        }
    }
}
