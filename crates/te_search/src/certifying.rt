// From a joined past to the certificate of its group.

ghost use Rattle.std.specs.Prelude.{◌≡◌, ◌<◌, ◌≤◌, ◌+◌, List, ◌∷◌, [], length, map, slice_get, Some, None, true, IfOk, OnOk};
ghost use Rattle.te_terms.specs.Steps.{outcome_of};
ghost use Rattle.te_terms.specs.Steps as steps;
ghost use Rattle.te_terms.specs.Joint.{IsGroup, as_group};
ghost use Rattle.te_cert.specs.Certs.{letters_of};
ghost use Rattle.te_trail.specs.Paths.{Path};
ghost use Rattle.te_trail.specs.Stores.{labels_of_move};
ghost use Rattle.te_trail.specs.States.{path_state};
ghost use Rattle.te_trail.specs.Trails.{label_of};
ghost use Rattle.te_search.specs.Groups.{IsFinal};
ghost use Rattle.te_search.specs.Assemblies.{AreNumbers, IsOpenAt};
ghost use Rattle.te_search.specs.Works.{label_told, IsHit};
ghost use Rattle.te_search.specs.Stacks.{EventsAreAmong};
ghost use Rattle.te_search.specs.Plantings.{has_number};
ghost use Rattle.te_search.specs.Picks.{TellsNamed, IsAmongNumbers, TellsHad, IsJointTrail, HasNoneBelow, TellsLetter, TellsMeeting};
ghost use Rattle.te_search.specs.Picks.{AreMeetingsOf, TakesMember, AreGathered, NumbersRise, IsPlaceAmong, AreMeets};
ghost use Rattle.te_search.specs.Findings.{IsGroupOf};

use crate::listed::ParkedList;
use crate::planted::{PlantedThreads, place_of};
use crate::work::Work;
use std::alloc::Global;
use te_cert::{Cert, Meeting, Member};
use te_path::Stop;
use te_terms::{NoMemory, Outcome, Parked, Rows};
use te_trail::{Move, TrailStore};

/// A group that was found: its certificate, and the outcomes of its members.
#[derive(Drop)]
pub(crate) struct Group {
    pub(crate) cert: Cert,
    pub(crate) outcomes: Rows<Outcome>,
}

// The number that a joined past names for a thread.
fn named(threads: &PlantedThreads, joined: &[Option<u32>], thread: u32) -> Option<u32>
    requires wide { length joined.now ≡ length threads.now }
    ensures told { TellsNamed threads.now joined.now thread result }
    ensures there { IsAmongNumbers joined.now result }
{
    match threads.place(thread) {
        Some(i) => joined[i],
        None => None,
    }
}

// Whether a joined past has the move that made path `k`.
fn has_move(store: &TrailStore, threads: &PlantedThreads, joined: &[Option<u32>], k: u32) -> bool
    requires path { k < length store.now.paths }
    requires wide { length joined.now ≡ length threads.now }
    requires numbers { AreNumbers store.now.paths joined.now }
    ensures { TellsHad store.now.events store.now.paths threads.now joined.now k result }
{
    match named(threads, joined, store.thread(k)) {
        Some(deepest) => k <= deepest && store.on_line(k, deepest),
        None => false,
    }
}

// The choices and meetings of a joined past, in order of making. No path below `first` has one of them.
fn joint_trail(
    alloc: Global,
    store: &TrailStore,
    moves: &[Option<Move>],
    threads: &PlantedThreads,
    joined: &[Option<u32>],
    first: u32,
) -> Result<Vec<Move>, NoMemory>
    requires low { first ≤ length store.now.paths }
    requires none { HasNoneBelow store.now.events store.now.paths threads.now joined.now first }
    requires told { map label_told moves.now ≡ map labels_of_move store.now.paths }
    requires wide { length joined.now ≡ length threads.now }
    requires numbers { AreNumbers store.now.paths joined.now }
    ensures trail { IfOk result (λ word. IsJointTrail store.now.events store.now.paths threads.now joined.now word.items) }
    ensures few { IfOk result (λ word. length word.items ≤ length store.now.paths) }
{
    let mut word = Vec::new(alloc);
    'moves: for k in first..store.len() {
        let Some(made) = moves[k as usize] else {
            continue;
        };
        if !has_move(store, threads, joined, k) {
            continue;
        }
        word.push(made)?;
    }
    Ok(word)
}

// The choice, where it is one of this thread.
fn letter(made: Move, thread: u32) -> Option<bool>
    ensures { TellsLetter thread (label_of made) result }
{
    match made {
        Move::Branch { thread: own, left } => { if own == thread { Some(left) } else { None } }
        Move::Meet {
            sender: _,
            receiver: _,
        } => None,
    }
}

// The choices of a thread, in order.
fn letters(alloc: Global, word: &[Move], thread: u32) -> Result<Rows<bool>, NoMemory>
    ensures { IfOk result (λ letters. letters ≡ letters_of thread (map label_of word.now)) }
{
    let mut letters = Rows::new(alloc);
    'moves: for i in 0..word.len() {
        let Some(left) = letter(word[i], thread) else {
            continue;
        };
        letters.push(left)?;
    }
    Ok(letters)
}

// The place of a thread among those of a group, of which it is one.
fn place_among(names: &[u32], thread: u32) -> u32
    requires there { has_number names.now thread ≡ true }
    requires rise { NumbersRise names.now }
    ensures { IsPlaceAmong names.now thread result }
{
    match place_of(names, thread) {
        Some(i) => i as u32,
        None => unreachable!(),
    }
}

// The meeting, where it is one, by places among the members.
fn meeting(names: &[u32], made: Move) -> Option<Meeting>
    requires there { AreMeetingsOf names.now (label_of made ∷ []) }
    requires rise { NumbersRise names.now }
    ensures { TellsMeeting names.now (label_of made) result }
{
    match made {
        Move::Branch { thread: _, left: _ } => None,
        Move::Meet { sender, receiver } => Some(Meeting {
            sender: place_among(names, sender),
            receiver: place_among(names, receiver),
        }),
    }
}

// The meetings, by places among the members.
fn meetings(alloc: Global, names: &[u32], word: &[Move]) -> Result<Rows<Meeting>, NoMemory>
    requires there { AreMeetingsOf names.now (map label_of word.now) }
    requires rise { NumbersRise names.now }
    ensures meets { IfOk result (AreMeets names.now (map label_of word.now)) }
    ensures few { IfOk result (λ meets. length meets ≤ length word.now) }
{
    let mut meets = Rows::new(alloc);
    'moves: for i in 0..word.len() {
        let Some(met) = meeting(names, word[i]) else {
            continue;
        };
        meets.push(met)?;
    }
    Ok(meets)
}

// The outcome at a path that is final.
fn outcome(store: &TrailStore, p: u32) -> Outcome
    requires path { p < length store.now.paths }
    requires at_end { (x : Path) → slice_get store.now.paths p ≡ Some x → IsFinal store.now.events x }
    ensures { (x : Path) (m : steps.Member) → slice_get store.now.paths p ≡ Some x → path_state store.now.events x ≡ Some m → outcome_of m.term ≡ Some result }
{
    match store.stop(p) {
        Stop::Done(value) => Outcome::Gives(value),
        Stop::Raised(value) => Outcome::Raises(value),
        _ => unreachable!(),
    }
}

// The members of a joined past among parked events, their threads, and their outcomes.
#[derive(Drop)]
struct Gathered {
    members: Rows<Member>,
    names: Vec<u32>,
    outcomes: Rows<Outcome>,
}

// Takes in a parked event, where it is of the joined past.
fn take_in(
    alloc: Global,
    gathered: &mut Gathered,
    store: &TrailStore,
    parked: &Parked,
    threads: &PlantedThreads,
    joined: &[Option<u32>],
    word: &[Move],
) -> Result<(), NoMemory>
    requires wide { length joined.now ≡ length threads.now }
    requires numbers { AreNumbers store.now.paths joined.now }
    requires all { IsOpenAt store.now.events store.now.paths joined.now None }
    ensures { OnOk result (TakesMember store.now.events store.now.paths threads.now joined.now (map label_of word.now) parked.now gathered.old gathered.new) }
{
    let Some(p) = named(threads, joined, parked.thread) else {
        return Ok(());
    };
    let choices = letters(alloc, word, parked.thread)?;
    let result = outcome(store, p);
    gathered.members.push(Member {
        thread: parked.thread,
        ticket: parked.ticket,
        choices,
    })?;
    gathered.names.push(parked.thread)?;
    gathered.outcomes.push(result)?;
    Ok(())
}

// All members of a joined past.
fn gather(
    alloc: Global,
    store: &TrailStore,
    parked: &ParkedList,
    threads: &PlantedThreads,
    joined: &[Option<u32>],
    word: &[Move],
) -> Result<Gathered, NoMemory>
    requires wide { length joined.now ≡ length threads.now }
    requires numbers { AreNumbers store.now.paths joined.now }
    requires all { IsOpenAt store.now.events store.now.paths joined.now None }
    ensures { IfOk result (λ g. AreGathered store.now.events store.now.paths threads.now joined.now (map label_of word.now) parked.now g) }
{
    let mut gathered = Gathered {
        members: Rows::new(alloc),
        names: Vec::new(alloc),
        outcomes: Rows::new(alloc),
    };
    'parked: for i in 0..parked.len() {
        take_in(
            alloc,
            &mut gathered,
            store,
            parked.at(i),
            threads,
            joined,
            word,
        )?;
    }
    Ok(gathered)
}

/// The group of a joined past that was found, of which no path below `first` has a move.
pub(crate) fn certify(
    alloc: Global,
    parked: &ParkedList,
    work: &Work,
    threads: &PlantedThreads,
    joined: &[Option<u32>],
    first: u32,
) -> Result<Group, NoMemory>
    requires low { first ≤ length work.now.store.paths }
    requires none { HasNoneBelow work.now.store.events work.now.store.paths threads.now joined.now first }
    requires hit { IsHit work.now threads.now joined.now }
    requires among { EventsAreAmong work.now.store.events (as_group parked.now) }
    requires rise { IsGroup (as_group parked.now) }
    ensures { IfOk result (λ group. IsGroupOf parked.now group.cert group.outcomes) }
{
    let word = joint_trail(alloc, &work.store, &work.moves, threads, joined, first)?;
    let gathered = gather(alloc, &work.store, parked, threads, joined, &word)?;
    let meets = meetings(alloc, &gathered.names, &word)?;
    let _paths = work.store.len();
    Ok(Group {
        cert: Cert {
            members: gathered.members,
            meets,
        },
        outcomes: gathered.outcomes,
    })
}
