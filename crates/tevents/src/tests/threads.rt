// Scripts by `run`, each of whose threads runs in a thread of its own.

use super::checks::{call, traders};
use super::{EXCHANGE, words};
use crate::program::tevents;
use std::alloc::Global;
use std::sync::Wait;
use std::sync::atomic::{AtomicU32, Ordering};
use std::test::Fail;
use std::thread::Threads;
use te_io::{SteadySink, SteadySource};
use te_runtime::{Gate, OpenGate};

/// The status of `run` with this budget at a script, through a gate, and a sink with what it writes.
fn run<R: Threads + Wait + Sync, G: Gate + Sync>(
    rt: &R,
    alloc: Global,
    budget: &str,
    script: &[u8],
    gate: &G,
) -> Result<(u8, SteadySink), Fail> {
    let words = words(alloc, &["run", "--budget", budget])?;
    let mut source = SteadySource::new(alloc, script)?;
    let mut sink = SteadySink::new(alloc, 10_000_000)?;
    let status = tevents(rt, alloc, words.as_slice(), &mut source, &mut sink, gate);
    Ok((status, sink))
}

// Scripts of one thread, which have one report.
#[test]
fn one_thread_has_the_report_of_serial_rounds(rt: HostRuntime) -> Result<(), Fail> {
    for (script, budget, status, report) in [
        (
            &b"thread a { x <- sync always (2); x <- sync always (x.0 * 3, x.0); emit x; }"[..],
            "100000",
            0,
            &b"tevents report 2\n1 post a 0 at 1.0\n2 commit a: a.0[]=(2);\n3 take a 0 =(2)\n4 post a 1 at 2.0\n\
                5 commit a: a.1[]=(6,2);\n6 take a 1 =(6,2)\n7 end a done (6,2)\nclosed 7\n"[..],
        ),
        (
            &b"channels c; thread a { x <- sync do { u <- send c (1); recv c }; }"[..],
            "100000",
            1,
            &b"tevents report 2\n1 post a 0 at 1.0\n2 stuck a\n3 end a stuck\nclosed 3\n"[..],
        ),
        (
            &b"thread a { x <- sync nothing; }"[..],
            "100000",
            5,
            &b"script fault 3 at 1:22\n"[..],
        ),
        // Its event is taken back, the thread tells all to come back, and the rounds park it again.
        (
            &b"thread a { x <- sync choose { never | never }; }"[..],
            "1",
            7,
            &b"tevents report 2\n1 post a 0 at 1.0\n2 withdraw a 0\n3 rest a\n4 post a 1 at 1.0\n\
                spent 4 front 4 paths 1 groups 0\n"[..],
        ),
    ] {
        let (answered, sink) = run(&rt, rt.alloc(), budget, script, &OpenGate)?;
        assert_eq!(rt; sink.bytes(), report);
        assert_eq!(rt; answered, status);
    }
    Ok(())
}

#[test]
fn what_threads_of_their_own_do_is_legal(rt: HostRuntime) -> Result<(), Fail> {
    let alloc = rt.alloc();
    let script = traders(alloc, false)?;
    for (script, entries) in [(EXCHANGE, "7"), (script.as_bytes(), "101")] {
        let (status, report) = run(&rt, alloc, "100000", script, &OpenGate)?;
        assert_eq!(rt; status, 0);
        let last = format!(in alloc; "\nclosed {entries}\n")?;
        assert!(rt; report.bytes().ends_with(last.as_bytes()));
        let (status, sink) = call(&rt, alloc, &["check"], script, report.bytes())?;
        let legal = format!(in alloc; "legal {entries}\n")?;
        assert_eq!(rt; sink.bytes(), legal.as_bytes());
        assert_eq!(rt; status, 0);
    }
    Ok(())
}

#[test]
fn a_thread_that_fills_the_history_tells_all_to_come_back(rt: HostRuntime) -> Result<(), Fail> {
    let script =
        b"thread a { repeat 10000 { x <- sync always (1); x <- sync always (1); x <- sync always (1); \
        x <- sync always (1); x <- sync always (1); x <- sync always (1); x <- sync always (1); } }";
    let (status, sink) = run(&rt, rt.alloc(), "100000", script, &OpenGate)?;
    assert_eq!(rt; status, 6);
    assert!(rt; sink.bytes().ends_with(b"\n199996 rest a\nfull 199996\n"));
    Ok(())
}

/// Holds each of two threads at its second sync until both are there.
#[derive(Drop)]
struct Both {
    came: AtomicU32,
    seen: AtomicU32,
}

impl Gate for Both {
    fn pass(&self, _thread: u32, ticket: u32) {
        if ticket != 1 {
            return;
        }
        self.came.fetch_add(1, Ordering::SeqCst);
        // How often it looks for the other before it gives up.
        for _ in 0..1_000_000_000u32 {
            if self.came.load(Ordering::SeqCst) == 2 {
                self.seen.fetch_add(1, Ordering::SeqCst);
                return;
            }
        }
    }
}

#[test]
fn threads_of_their_own_wait_for_each_other_at_a_gate(rt: HostRuntime) -> Result<(), Fail> {
    let gate = Both {
        came: AtomicU32::new(0),
        seen: AtomicU32::new(0),
    };
    let script = b"thread a { x <- sync always (1); x <- sync always (2); } \
        thread b { x <- sync always (1); x <- sync always (2); }";
    let (status, sink) = run(&rt, rt.alloc(), "100000", script, &gate)?;
    assert_eq!(rt; gate.seen.load(Ordering::SeqCst), 2);
    assert_eq!(rt; status, 0);
    assert!(rt; sink.bytes().ends_with(b"\nclosed 14\n"));
    Ok(())
}
