// Scripts of the whole language by `serial`, and what `gen` and `print` write.

use super::checks::BRANCHES;
use super::{serial, words};
use crate::program::tevents;
use std::alloc::Global;
use std::sync::Wait;
use std::test::Fail;
use std::thread::Threads;
use te_io::{SteadySink, SteadySource};
use te_runtime::OpenGate;

// Three threads that pass a number round: no two of them can commit.
pub(super) const RING: &[u8] =
    b"channels p q r; thread a { x <- sync do { u <- send p (1); recv r }; emit x; } \
    thread b { x <- sync do { u <- recv p; w <- send q (u.0 + 1); always u }; emit x; } \
    thread c { x <- sync do { u <- recv q; w <- send r (u.0 + 1); always u }; emit x; }";

// Scripts, each with its status and its report without the head.
const REPORTS: &[(&[u8], u8, &[u8])] = &[
    (
        RING,
        0,
        b"1 post a 0 at 1.0\n2 post b 0 at 1.0\n3 post c 0 at 1.0\n\
            4 commit a: a.0[]=(3) b.0[]=(1) c.0[]=(2); a>b b>c c>a\n\
            5 take a 0 =(3)\n6 take b 0 =(1)\n7 take c 0 =(2)\n\
            8 end a done (3)\n9 end b done (1)\n10 end c done (2)\nclosed 10\n",
    ),
    // A thread never meets itself.
    (
        b"channels c; thread a { x <- sync do { u <- send c (1); recv c }; }",
        1,
        b"1 post a 0 at 1.0\n2 stuck a\n3 end a stuck\nclosed 3\n",
    ),
    // A guarded receive takes the second sender's number.
    (
        b"channels c; thread r { x <- sync do { v <- recv c; if 3 < v.0 { always v } else { never } }; emit x; } \
            thread s { x <- sync send c (2); } thread t { x <- sync send c (5); }",
        1,
        b"1 post r 0 at 1.0\n2 post s 0 at 1.0\n3 post t 0 at 1.0\n\
            4 commit r: r.0[]=(5) t.0[]=(); t>r\n5 take r 0 =(5)\n6 take t 0 =()\n\
            7 end r done (5)\n8 end t done\n9 stuck s\n10 end s stuck\nclosed 10\n",
    ),
    // A channel made by one thread, on which the other answers.
    (
        b"channels c; thread a { x <- sync do { n <- fresh; u <- send c n; recv n.0 }; emit x; } \
            thread b { y <- sync do { n <- recv c; u <- send n.0 (5); always n }; emit y; }",
        0,
        b"1 post a 0 at 1.0\n2 post b 0 at 1.0\n\
            3 commit a: a.0[]=(5) b.0[]=(@a.0.0); a>b b>a\n4 take a 0 =(5)\n5 take b 0 =(@a.0.0)\n\
            6 end a done (5)\n7 end b done (@a.0.0)\nclosed 7\n",
    ),
    (
        BRANCHES,
        1,
        b"1 post a 0 at 1.0\n2 post b 0 at 1.0\n3 post c 0 at 1.0\n\
            4 stuck a\n5 end a stuck\n6 end b stuck\n7 end c stuck\nclosed 7\n",
    ),
    // A value that is thrown commits with its group, and ends the thread.
    (
        b"channels c; thread a { x <- sync do { u <- send c (1); throw (9) }; emit (5); } \
            thread b { y <- sync recv c; emit y; }",
        0,
        b"1 post a 0 at 1.0\n2 post b 0 at 1.0\n3 commit a: a.0[]!(9) b.0[]=(1); a>b\n\
            4 take a 0 !(9)\n5 take b 0 =(1)\n6 end a raised (9)\n7 end b done (1)\nclosed 7\n",
    ),
    // Catching takes back no meeting.
    (
        b"channels c; thread a { x <- sync try { do { u <- recv c; throw (u.0 + 1) } } catch e { always e }; emit x; } \
            thread b { y <- sync send c (4); }",
        0,
        b"1 post a 0 at 1.0\n2 post b 0 at 1.0\n3 commit a: a.0[]=(5) b.0[]=(); b>a\n\
            4 take a 0 =(5)\n5 take b 0 =()\n6 end a done (5)\n7 end b done\nclosed 7\n",
    ),
    // A sum past 64 bits raises (-1).
    (
        b"thread a { x <- sync try { always (9223372036854775807 + 1) } catch e \
            { always (e.0, 9223372036854775807 + 0) }; emit x; }",
        0,
        b"1 post a 0 at 1.0\n2 commit a: a.0[]=(-1,9223372036854775807);\n\
            3 take a 0 =(-1,9223372036854775807)\n4 end a done (-1,9223372036854775807)\nclosed 4\n",
    ),
    // A number in a channel's place raises (-2).
    (
        b"channels c d; thread a { x <- sync do { u <- send c (d); recv d }; emit x; } \
            thread b { y <- sync do { u <- recv c; send u.0 (8) }; z <- sync recv 5; }",
        0,
        b"1 post a 0 at 1.0\n2 post b 0 at 1.0\n3 commit a: a.0[]=(8) b.0[]=(); a>b b>a\n\
            4 take a 0 =(8)\n5 take b 0 =()\n6 end a done (8)\n7 post b 1 at 2.0\n8 commit b: b.1[]!(-2);\n\
            9 take b 1 !(-2)\n10 end b raised (-2)\nclosed 10\n",
    ),
    // A register may be written again.
    (
        b"thread a { x <- sync always (2); x <- sync always (x.0 * 3, x.0); emit x; }",
        0,
        b"1 post a 0 at 1.0\n2 commit a: a.0[]=(2);\n3 take a 0 =(2)\n4 post a 1 at 2.0\n\
            5 commit a: a.1[]=(6,2);\n6 take a 1 =(6,2)\n7 end a done (6,2)\nclosed 7\n",
    ),
];

#[test]
fn scripts_of_the_whole_language_have_these_reports(rt: HostRuntime) -> Result<(), Fail> {
    for (script, status, report) in REPORTS {
        let (answered, sink) = serial(&rt, rt.alloc(), script)?;
        let mut text = Vec::from_slice(rt.alloc(), b"tevents report 2\n")?;
        text.extend_from_slice(report)?;
        assert_eq!(rt; sink.bytes(), text.as_slice());
        assert_eq!(rt; answered, *status);
    }
    Ok(())
}

/// The status of a call with these words and nothing to read, and a sink with what it writes.
fn call<R: Threads + Wait + Sync>(
    rt: &R,
    alloc: Global,
    spelled: &[&str],
) -> Result<(u8, SteadySink), Fail> {
    let mut source = SteadySource::new(alloc, b"")?;
    let mut sink = SteadySink::new(alloc, 1_000)?;
    let words = words(alloc, spelled)?;
    let status = tevents(
        rt,
        alloc,
        words.as_slice(),
        &mut source,
        &mut sink,
        &OpenGate,
    );
    Ok((status, sink))
}

#[test]
fn generated_scripts_have_these_summaries(rt: HostRuntime) -> Result<(), Fail> {
    for (spelled, status, summary) in [
        (
            &["gen"][..],
            0,
            &b"gen 0 threads 3 posts 3 commits 1 entries 10\n"[..],
        ),
        (
            &["gen", "--number", "20"][..],
            0,
            &b"gen 20 threads 63 posts 1323 commits 441 entries 3150\n"[..],
        ),
        (
            &["gen", "--budget", "1"][..],
            7,
            &b"gen 0 spent front 3 paths 1 groups 0\n"[..],
        ),
    ] {
        let (answered, sink) = call(&rt, rt.alloc(), spelled)?;
        assert_eq!(rt; sink.bytes(), summary);
        assert_eq!(rt; answered, status);
    }
    Ok(())
}

#[test]
fn a_budget_that_is_used_up_is_told(rt: HostRuntime) -> Result<(), Fail> {
    let words = words(rt.alloc(), &["serial", "--budget=1"])?;
    let mut source = SteadySource::new(rt.alloc(), RING)?;
    let mut sink = SteadySink::new(rt.alloc(), 1_000)?;
    let status = tevents(
        &rt,
        rt.alloc(),
        words.as_slice(),
        &mut source,
        &mut sink,
        &OpenGate,
    );
    assert_eq!(rt;
        sink.bytes(),
        &b"tevents report 2\n1 post a 0 at 1.0\n2 post b 0 at 1.0\n3 post c 0 at 1.0\n\
            spent 3 front 3 paths 1 groups 0\n"[..]
    );
    assert_eq!(rt; status, 7);
    Ok(())
}

#[test]
fn a_history_that_is_full_is_told(rt: HostRuntime) -> Result<(), Fail> {
    let script =
        b"thread a { repeat 10000 { x <- sync always (1); x <- sync always (1); x <- sync always (1); \
        x <- sync always (1); x <- sync always (1); x <- sync always (1); x <- sync always (1); } }";
    let mut source = SteadySource::new(rt.alloc(), script)?;
    let mut sink = SteadySink::new(rt.alloc(), 10_000_000)?;
    let words = words(rt.alloc(), &["serial"])?;
    let status = tevents(
        &rt,
        rt.alloc(),
        words.as_slice(),
        &mut source,
        &mut sink,
        &OpenGate,
    );
    assert_eq!(rt; status, 6);
    assert!(rt;
        sink.bytes()
            .ends_with(b"\n199995 take a 66664 =(1)\nfull 199995\n")
    );
    Ok(())
}
