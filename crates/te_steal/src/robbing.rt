// The owner and the thieves look at the paths whose places they take.

ghost use Rattle.std.specs.Prelude.{◌≡◌, ◌<◌, ◌≤◌, ℕ, [], ◌∷◌, ◌++◌, Bool, List, length, All, Some, get_or, set};
ghost use Rattle.te_crew.specs.Shares.{HasBatch};
ghost use Rattle.te_steal.specs.Relays.{IsSameOwner, IsSameThief};
ghost use Rattle.te_steal.specs.Stolen.{AreLooksAt, IsRobber, IsBoss};
ghost use Rattle.te_steal.specs.declared.robbing.Robber.{Robber};

use crate::sharing::{Owner, Thief};
use std::thread;
use std::thread::Threads;
use te_crew::look_at;
use te_search::{Look, Search};

/// A thief, the looks at the paths whose places it took, and whether none was refused.
#[derive(Drop)]
pub struct Robber {
    pub thief: Thief,
    pub looks: Vec<Option<Look>>,
    pub whole: bool,
}

/// The owner, the looks at the paths whose places it took, and whether none was refused.
#[derive(Drop)]
pub struct Boss {
    pub owner: Owner,
    pub looks: Vec<Option<Look>>,
    pub whole: bool,
}

// Puts a look in its place.
pub(crate) fn put(looks: &mut [Option<Look>], i: usize, look: Look)
    requires { i < length looks.old }
    ensures { looks.new ≡ set looks.old i (Some look) }
{
    looks[i] = Some(look);
}

// Looks at the path at a place of the batch. Where there is no memory for it, the looks aren't whole.
pub(crate) fn look_into(
    search: &Search,
    batch: &[u32],
    place: u32,
    looks: &mut [Option<Look>],
    whole: &mut bool,
)
    requires batch { HasBatch search.now batch.now }
    requires count { length looks.old ≡ length batch.now }
    ensures count { length looks.new ≡ length looks.old }
    ensures looks { (took : List ℕ) → AreLooksAt search.now batch.now took looks.old whole.old → AreLooksAt search.now batch.now (took ++ place ∷ []) looks.new whole.new }
{
    let i = place as usize;
    if i >= batch.len() {
        return;
    }
    match look_at(search, batch, i) {
        Some(look) => put(looks, i, look),
        None => *whole = false,
    }
}

// A thief tries to steal as often as the batch has paths, and looks at what it gets.
fn steal_some(
    search: &Search,
    batch: &[u32],
    thief: &mut Thief,
    looks: &mut [Option<Look>],
    whole: &mut bool,
)
    requires batch { HasBatch search.now batch.now }
    requires looks { AreLooksAt search.now batch.now thief.old.took looks.old whole.old }
    ensures same { IsSameThief thief.old thief.new }
    ensures count { length looks.new ≡ length looks.old }
    ensures looks { AreLooksAt search.now batch.now thief.new.took looks.new whole.new }
{
    'steals: for _ in 0..batch.len() {
        match thief.steal() {
            Some(place) => look_into(search, batch, place, looks, whole),
            None => continue,
        }
    }
}

// The owner takes until nothing is left, and looks at what it gets.
fn pop_all(
    search: &Search,
    batch: &[u32],
    owner: &mut Owner,
    looks: &mut [Option<Look>],
    whole: &mut bool,
)
    requires batch { HasBatch search.now batch.now }
    requires looks { AreLooksAt search.now batch.now owner.old.took looks.old whole.old }
    ensures same { IsSameOwner owner.old owner.new }
    ensures pushed { owner.new.pushed ≡ owner.old.pushed }
    ensures count { length looks.new ≡ length looks.old }
    ensures looks { AreLooksAt search.now batch.now owner.new.took looks.new whole.new }
{
    'pops: while let Some(place) = owner.pop() {
        look_into(search, batch, place, looks, whole);
    }
}

// The owner does its part.
pub(crate) fn lead(search: &Search, batch: &[u32], boss: Boss) -> Boss
    requires batch { HasBatch search.now batch.now }
    requires looks { IsBoss search.now batch.now boss }
    ensures same { IsSameOwner boss.owner result.owner }
    ensures pushed { result.owner.pushed ≡ boss.owner.pushed }
    ensures looks { IsBoss search.now batch.now result }
{
    let mut mine = boss;
    pop_all(
        search,
        batch,
        &mut mine.owner,
        &mut mine.looks,
        &mut mine.whole,
    );
    mine
}

// One thief does its part.
fn rob(search: &Search, batch: &[u32], robber: &mut Robber)
    requires batch { HasBatch search.now batch.now }
    requires looks { IsRobber search.now batch.now robber.old }
    ensures same { IsSameThief robber.old.thief robber.new.thief }
    ensures looks { IsRobber search.now batch.now robber.new }
{
    steal_some(
        search,
        batch,
        &mut robber.thief,
        &mut robber.looks,
        &mut robber.whole,
    );
}

// Each thief does its part, in a thread of its own where one can be made.
pub(crate) fn rob_all<R: Threads + Sync>(
    rt: &R,
    search: &Search,
    batch: &[u32],
    robbers: Vec<Robber>,
) -> Vec<Robber>
    requires batch { HasBatch search.now batch.now }
    requires some { 1 ≤ length robbers.items }
    requires looks { All (IsRobber search.now batch.now) robbers.items }
    ensures count { length result.items ≡ length robbers.items }
    ensures same { (k : ℕ) (d : Robber) → k < length robbers.items → IsSameThief (get_or robbers.items k d).thief (get_or result.items k d).thief }
    ensures looks { All (IsRobber search.now batch.now) result.items }
{
    let mut gang = robbers;
    let count = gang.len();
    thread::for_each_mut(
        rt,
        &mut gang,
        count,
        &|_: usize, robber: &mut Robber|
            requires { HasBatch search.now batch.now × IsRobber search.now batch.now robber.now }
            ensures { IsSameThief robber.entry.now.thief robber.exit.now.thief × IsRobber search.entry.now batch.entry.now robber.exit.now }
        { rob(search, batch, robber) },
    );
    gang
}
