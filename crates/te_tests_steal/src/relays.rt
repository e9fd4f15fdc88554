// Relays of numbers, by one thread and by many.

ghost use Rattle.std.specs.Prelude.{◌≡◌, ◌<◌, ◌≤◌, ℕ, [], length, get_or, All, IfOk};
ghost use Rattle.te_steal.specs.Relays.{ThiefOf, IsThiefOf, IsSameOwner, IsSameThief};

use std::alloc::Global;
use std::sync::atomic::{AtomicU64, Ordering};
use std::test::Fail;
use std::thread;
use std::thread::{Threads, join};
use te_steal::{Owner, Thief, close, relay};
use te_terms::{NoMemory, Rows};

// What a relay of 7, 8 and 9 gives: to the owner, to each thief and to the owner again, and what is left.
fn given(
    alloc: Global,
    mut owner: Owner,
    mut first: Thief,
    mut second: Thief,
) -> Result<([Option<u32>; 4], Rows<u32>), NoMemory>
    requires most { owner.most ≡ 4 }
    requires pushed { owner.pushed ≡ [] }
    requires all { owner.thieves ≡ 2 }
    requires thieves { IsThiefOf owner first × IsThiefOf owner second }
{
    owner.push(7);
    owner.push(8);
    owner.push(9);
    let given = [owner.pop(), first.steal(), second.steal(), owner.pop()];
    let mut thieves = Rows::new(alloc);
    thieves.push(first)?;
    thieves.push(second)?;
    Ok((given, close(alloc, owner, thieves)?))
}

#[test]
fn each_number_is_taken_in_order(rt: HostRuntime) -> Result<(), Fail> {
    let (owner, thieves) = relay(rt.alloc(), 4, 2)?;
    let mut rest = thieves.into_vec();
    let second = rest.pop().ok_or("a second thief")?;
    let first = rest.pop().ok_or("a first thief")?;
    let (given, left) = given(rt.alloc(), owner, first, second)?;
    assert_eq!(rt; given, [Some(7), Some(8), Some(9), None]);
    assert_eq!(rt; left.len(), 0);
    Ok(())
}

// How many numbers were taken, and which of 0 to 63, a bit for each.
#[derive(Drop)]
struct Taken {
    count: AtomicU64,
    bits: AtomicU64,
}

impl Taken {
    fn add(&self, n: u32) {
        self.count.fetch_add(1, Ordering::SeqCst);
        if n < 64 {
            self.bits.fetch_or(1 << n, Ordering::SeqCst);
        }
    }
}

fn pop_all(owner: &mut Owner, taken: &Taken)
    ensures { IsSameOwner owner.old owner.new }
{
    'pops: for _ in 0..64 {
        match owner.pop() {
            Some(n) => taken.add(n),
            None => return,
        }
    }
}

fn steal_all(thief: &mut Thief, taken: &Taken)
    ensures { IsSameThief thief.old thief.new }
{
    'steals: for _ in 0..64 {
        match thief.steal() {
            Some(n) => taken.add(n),
            None => return,
        }
    }
}

// The owner takes numbers until nothing is left.
fn lead(owner: Owner, taken: &Taken) -> Owner
    ensures { IsSameOwner owner result }
{
    let mut mine = owner;
    pop_all(&mut mine, taken);
    mine
}

// Each thief takes numbers, in a thread of its own where one can be made.
fn rob_all<R: Threads + Sync>(rt: &R, thieves: Vec<Thief>, taken: &Taken) -> Vec<Thief>
    requires some { 1 ≤ length thieves.items }
    ensures count { length result.items ≡ length thieves.items }
    ensures same { (k : ℕ) (d : ThiefOf) → k < length thieves.items → IsSameThief (get_or thieves.items k d) (get_or result.items k d) }
{
    let mut gang = thieves;
    let count = gang.len();
    thread::for_each_mut(
        rt,
        &mut gang,
        count,
        &|_: usize, thief: &mut Thief|
            ensures { IsSameThief thief.entry.now thief.exit.now }
        { steal_all(thief, taken) },
    );
    gang
}

// A relay in which 0 to 63 were pushed, with 7 thieves.
fn opened(alloc: Global) -> Result<(Owner, Rows<Thief>), NoMemory>
    ensures count { IfOk result (λ r. (r.0.thieves ≡ 7) × (length r.1 ≡ 7)) }
    ensures thieves { IfOk result (λ r. All (IsThiefOf r.0) r.1) }
{
    let (mut owner, gang) = relay(alloc, 64, 7)?;
    'numbers: for n in 0..64u32 {
        owner.push(n);
    }
    Ok((owner, gang))
}

// What nobody took is counted too.
fn finish(alloc: Global, owner: Owner, thieves: Vec<Thief>, taken: &Taken) -> Result<(), NoMemory>
    requires thieves { All (IsThiefOf owner) thieves.items }
    requires all { owner.thieves ≡ length thieves.items }
{
    let left = close(alloc, owner, Rows::from(thieves))?;
    for n in left.as_slice() {
        taken.add(*n);
    }
    Ok(())
}

// How many numbers owner, thieves and close give, and which, where all take at the same time.
fn shared<R: Threads + Sync>(rt: &R, alloc: Global) -> Result<(u64, u64), NoMemory> {
    let (owner, gang) = opened(alloc)?;
    let thieves = gang.into_vec();
    let taken = Taken {
        count: AtomicU64::new(0),
        bits: AtomicU64::new(0),
    };
    let theirs = &taken;
    let (thieves, owner) = join(
        rt,
        move || -> Vec<Thief>
            requires some { 1 ≤ length thieves.items }
            ensures count { length result.items ≡ length thieves.items }
            ensures same { (k : ℕ) (d : ThiefOf) → k < length thieves.items → IsSameThief (get_or thieves.items k d) (get_or result.items k d) }
        { rob_all(rt, thieves, theirs) },
        move || -> Owner
            ensures same { IsSameOwner owner result }
        { lead(owner, theirs) },
    );
    finish(alloc, owner, thieves, &taken)?;
    Ok((taken.count.into_inner(), taken.bits.into_inner()))
}

#[test]
fn thieves_in_threads_lose_and_double_nothing(rt: HostRuntime) -> Result<(), Fail> {
    for _ in 0..1_000 {
        let taken = shared(&rt, rt.alloc())?;
        assert_eq!(rt; taken, (64, u64::MAX));
    }
    Ok(())
}
