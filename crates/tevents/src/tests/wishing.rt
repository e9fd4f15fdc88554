// Threads that repeat syncs, beside the same threads with their repeats written out.

use std::alloc::Global;
use std::sync::Arc;
use std::test::Fail;
use te_reader::read_script;
use te_script::{Core, Site, Want};
use te_terms::{Atom, Outcome, Value};

const REPEATS: &[u8] = b"thread a { repeat 2 { x <- sync always (2); } emit x; \
    repeat 2 { y <- sync always (x.0 * 3, x.0); x <- sync always y; } emit x; }";

const WRITTEN_OUT: &[u8] = b"thread a { x <- sync always (2); x <- sync always (2); emit x; \
    y <- sync always (x.0 * 3, x.0); x <- sync always y; \
    y <- sync always (x.0 * 3, x.0); x <- sync always y; emit x; }";

// The core of the first thread of a text.
fn core_of(alloc: Global, text: &[u8]) -> Result<Core, Fail> {
    let script = read_script(alloc, text).ok().ok_or("a script")?;
    let thread = script.threads.get(0).ok_or("a thread")?;
    Ok(Core::new(alloc, Arc::try_clone(thread)?)?)
}

fn number(n: i64) -> Value {
    Value::of(&[Atom::Int(n)]).unwrap_or_default()
}

// Whether both wish to synchronise on one event.
fn wish_the_same(core: &Core, other: &Core) -> Result<bool, Fail> {
    let Want::Sync(event) = core.want()? else {
        return Ok(false);
    };
    let Want::Sync(same) = other.want()? else {
        return Ok(false);
    };
    Ok(event.same(&same))
}

// Where the wish to synchronise stands, after which it gives this value.
fn goes_on(core: &mut Core, value: Value) -> Result<Site, Fail> {
    let Want::Sync(_) = core.want()? else {
        return Err("the thread waits for no outcome")?;
    };
    let site = core.site();
    core.give(Outcome::Gives(value));
    Ok(site)
}

fn stands_at(statement: u32, pass: u32) -> Site {
    Site { statement, pass }
}

#[test]
fn a_repeat_stands_for_its_body_so_many_times(rt: HostRuntime) -> Result<(), Fail> {
    let mut core = core_of(rt.alloc(), REPEATS)?;
    let mut other = core_of(rt.alloc(), WRITTEN_OUT)?;
    for (value, at, written_at, emitted) in [
        (2, stands_at(2, 0), stands_at(1, 0), 0),
        (3, stands_at(2, 1), stands_at(2, 0), 1),
        (4, stands_at(5, 0), stands_at(4, 0), 1),
        (5, stands_at(6, 0), stands_at(5, 0), 1),
        (6, stands_at(5, 1), stands_at(6, 0), 1),
        (7, stands_at(6, 1), stands_at(7, 0), 2),
    ] {
        assert!(rt; wish_the_same(&core, &other)?, "before {value}");
        assert_eq!(rt; goes_on(&mut core, number(value))?, at, "before {value}");
        assert_eq!(rt;
            goes_on(&mut other, number(value))?,
            written_at,
            "before {value}"
        );
        assert_eq!(rt; core.emitted().len(), emitted, "behind {value}");
    }
    assert!(rt; matches!(core.want()?, Want::Done), "at its end");
    assert_eq!(rt; core.emitted(), &[number(3), number(7)][..]);
    assert_eq!(rt; other.emitted(), core.emitted());
    Ok(())
}
