// Clocks: for each thread the deepest path of a past. All clocks of a store are stretches of one list of ticks, and
// the two ends of a meeting share theirs.

ghost use Rattle.std.specs.Prelude.{◌≡◌, ◌≤◌, ◌<◌, ◌+◌, length, map, ◌∷◌, OnErr, IfOk, vec_len};
ghost use Rattle.te_trail.specs.Ticks.{named, between, merged, marked, Joins, Raises, StretchIsWithin};

use te_terms::NoMemory;

/// A thread and its deepest path in a past.
#[derive(Clone, Copy)]
pub(crate) struct Tick {
    pub(crate) thread: u32,
    pub(crate) path: u32,
}

/// A part of the list of ticks, in which threads rise.
#[derive(Clone, Copy)]
pub(crate) struct Stretch {
    pub(crate) at: u32,
    pub(crate) len: u32,
}

// The tick that comes next where two clocks are joined, and where each then goes on.
#[derive(Clone, Copy)]
struct Next {
    tick: Tick,
    i: usize,
    j: usize,
}

// The most ticks that a stretch can tell of.
const MOST: usize = 4294967295;

/// The path of the thread.
pub(crate) fn path_of(ticks: &[Tick], thread: u32) -> Option<u32>
    ensures { result ≡ named thread ticks.now }
{
    for tick in ticks {
        if tick.thread == thread {
            return Some(tick.path);
        }
    }
    None
}

// The tick, with the path of `one` or `two` where it is of its thread.
fn mark(tick: Tick, one: Tick, two: Tick) -> Tick
    ensures { result ≡ marked one two tick }
{
    if tick.thread == one.thread {
        one
    } else if tick.thread == two.thread {
        two
    } else {
        tick
    }
}

fn next_tick(ticks: &[Tick], i: usize, i_end: usize, j: usize, j_end: usize) -> Next
    requires i_within { i_end ≤ length ticks.now }
    requires j_within { j_end ≤ length ticks.now }
    requires i_low { i ≤ i_end }
    requires j_low { j ≤ j_end }
    requires some { i + j < i_end + j_end }
    ensures tick { merged (between ticks.now i i_end) (between ticks.now j j_end) ≡ result.tick ∷ merged (between ticks.now result.i i_end) (between ticks.now result.j j_end) }
    ensures i_low { result.i ≤ i_end }
    ensures j_low { result.j ≤ j_end }
    ensures on { i + j < result.i + result.j }
    ensures i_on { i ≤ result.i }
    ensures j_on { j ≤ result.j }
{
    if i == i_end {
        return Next {
            tick: ticks[j],
            i,
            j: j + 1,
        };
    }
    if j == j_end {
        return Next {
            tick: ticks[i],
            i: i + 1,
            j,
        };
    }
    let a = ticks[i];
    let b = ticks[j];
    if a.thread < b.thread {
        return Next {
            tick: a,
            i: i + 1,
            j,
        };
    }
    if b.thread < a.thread {
        return Next {
            tick: b,
            i,
            j: j + 1,
        };
    }
    if a.path < b.path {
        return Next {
            tick: b,
            i: i + 1,
            j: j + 1,
        };
    }
    Next {
        tick: a,
        i: i + 1,
        j: j + 1,
    }
}

/// Puts the clock of both pasts behind the others, with the paths of `one` and `two`.
pub(crate) fn join(
    ticks: &mut Vec<Tick>,
    a: Stretch,
    b: Stretch,
    one: Tick,
    two: Tick,
) -> Result<Stretch, NoMemory>
    requires a_within { StretchIsWithin ticks.old.items a }
    requires b_within { StretchIsWithin ticks.old.items b }
    ensures joined { IfOk result (Joins ticks.old.items ticks.new.items a b one two) }
    ensures same { OnErr result (ticks.new.items ≡ ticks.old.items) }
{
    let at = ticks.len();
    let most = a.len as usize + b.len as usize;
    if at > MOST || most > MOST - at {
        return Err(NoMemory);
    }
    if ticks.reserve(most).is_err() {
        return Err(NoMemory);
    }
    let i_end = a.at as usize + a.len as usize;
    let j_end = b.at as usize + b.len as usize;
    let mut i = a.at as usize;
    let mut j = b.at as usize;
    'merge: while i + j < i_end + j_end {
        let next = next_tick(ticks, i, i_end, j, j_end);
        ticks.push_reserved(mark(next.tick, one, two));
        i = next.i;
        j = next.j;
    }
    Ok(Stretch {
        at: at as u32,
        len: (ticks.len() - at) as u32,
    })
}

/// Puts a copy of the clock behind the others, with the path of `own`.
pub(crate) fn raise(ticks: &mut Vec<Tick>, a: Stretch, own: Tick) -> Result<Stretch, NoMemory>
    requires { StretchIsWithin ticks.old.items a }
    ensures raised { IfOk result (Raises ticks.old.items ticks.new.items a own) }
    ensures same { OnErr result (ticks.new.items ≡ ticks.old.items) }
{
    let at = ticks.len();
    let most = a.len as usize;
    if at > MOST || most > MOST - at {
        return Err(NoMemory);
    }
    if ticks.reserve(most).is_err() {
        return Err(NoMemory);
    }
    let end = a.at as usize + a.len as usize;
    'copy: for i in a.at as usize..end {
        let tick = ticks[i];
        ticks.push_reserved(mark(tick, own, own));
    }
    Ok(Stretch {
        at: at as u32,
        len: a.len,
    })
}
