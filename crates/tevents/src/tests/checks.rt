// What `check` and `lift` tell of a script and a report.

use super::{EXCHANGE, EXCHANGE_REPORT, serial, words};
use crate::program::tevents;
use std::alloc::Global;
use std::sync::Wait;
use std::test::Fail;
use std::thread::Threads;
use te_io::{SteadySink, SteadySource};
use te_runtime::OpenGate;

// The report of the exchange in the first version, line by line.
const LINES: [&[u8]; 9] = [
    b"tevents report 1\n",
    b"1 post a 0\n",
    b"2 post b 0\n",
    b"3 commit a: a.0[]=() b.0[]=(7); a>b\n",
    b"4 take a 0 =()\n",
    b"5 take b 0 =(7)\n",
    b"6 end a done\n",
    b"7 end b done (7)\n",
    b"closed 7\n",
];

// The report of the exchange in the first version, without one line.
fn without_line(alloc: Global, left_out: usize) -> Result<Vec<u8>, Fail> {
    let mut text = Vec::new(alloc);
    for (i, line) in LINES.iter().enumerate() {
        if i + 1 != left_out {
            text.extend_from_slice(line)?;
        }
    }
    Ok(text)
}

/// The status of a call with these words at a script, a line `---` and a report, and a sink with what it writes.
pub(super) fn call<R: Threads + Wait + Sync>(
    rt: &R,
    alloc: Global,
    spelled: &[&str],
    script: &[u8],
    report: &[u8],
) -> Result<(u8, SteadySink), Fail> {
    let mut input = Vec::from_slice(alloc, script)?;
    input.extend_from_slice(b"\n---\n")?;
    input.extend_from_slice(report)?;
    let mut source = SteadySource::new(alloc, input.as_slice())?;
    let mut sink = SteadySink::new(alloc, 10_000)?;
    let words = words(alloc, spelled)?;
    let status = tevents(
        rt,
        alloc,
        words.as_slice(),
        &mut source,
        &mut sink,
        &OpenGate,
    );
    Ok((status, sink))
}

// a needs c's left branch and b its right one, so none of the three can commit.
pub(super) const BRANCHES: &[u8] =
    b"channels p q m; thread a { x <- sync do { u <- recv p; send m () }; } \
    thread b { x <- sync do { u <- recv q; recv m }; } thread c { x <- sync choose { send p () | send q () }; }";

const BRANCHES_REPORT: &[u8] = b"tevents report 1\n1 post a 0\n2 post b 0\n3 post c 0\n\
    4 stuck a\n5 end a stuck\n6 end b stuck\n7 end c stuck\nclosed 7\n";

const TWO_PAIRS: &[u8] =
    b"channels c d; thread a { x <- sync send c (1); } thread b { x <- sync recv c; } \
    thread e { x <- sync send d (2); } thread f { x <- sync recv d; }";

// Words, a script and a report, with the status and what is written.
const CHECKS: &[(&[&str], &[u8], &[u8], u8, &[u8])] = &[
    (&["check"], EXCHANGE, EXCHANGE_REPORT, 0, b"legal 7\n"),
    // The meeting turned round.
    (
        &["check"],
        EXCHANGE,
        b"tevents report 1\n1 post a 0\n2 post b 0\n3 commit a: a.0[]=() b.0[]=(7); b>a\n\
            4 take a 0 =()\n5 take b 0 =(7)\n6 end a done\n7 end b done (7)\nclosed 7\n",
        8,
        b"report fault 3 at line 4\n",
    ),
    // The board is declared stuck while the two can commit.
    (
        &["check"],
        EXCHANGE,
        b"tevents report 1\n1 post a 0\n2 post b 0\n3 stuck a\n4 end a stuck\n5 end b stuck\nclosed 5\n",
        8,
        b"report fault 3 at line 4\n",
    ),
    (&["check"], BRANCHES, BRANCHES_REPORT, 0, b"legal 7\n"),
    (
        &["check", "--budget", "1"],
        BRANCHES,
        BRANCHES_REPORT,
        7,
        b"check spent at line 5 front 3 paths 1 groups 0\n",
    ),
    // Another ending is told before the declaration is searched.
    (
        &["check", "--budget", "1"],
        BRANCHES,
        b"tevents report 1\n1 post a 0\n2 post b 0\n3 post c 0\n4 stuck a\nfull 4\n",
        8,
        b"report fault 4 at line 6\n",
    ),
    // One commit of two groups that have nothing to do with each other.
    (
        &["check"],
        TWO_PAIRS,
        b"tevents report 1\n1 post a 0\n2 post b 0\n3 post e 0\n4 post f 0\n\
            5 commit a: a.0[]=() b.0[]=(1) e.0[]=() f.0[]=(2); a>b e>f\n\
            6 take f 0 =(2)\n7 take e 0 =()\n8 take b 0 =(1)\n9 take a 0 =()\n\
            10 end a done\n11 end f done\n12 end e done\n13 end b done\nclosed 13\n",
        0,
        b"legal 13\n",
    ),
    // A withdrawal and a rest, in an order that no serial run has.
    (
        &["check"],
        EXCHANGE,
        b"tevents report 2\n1 post a 0 at 1.0\n2 withdraw a 0\n3 post a 1 at 1.0\n4 post b 0 at 1.0\n5 rest b\n\
            6 commit b: a.1[]=() b.0[]=(7); a>b\n7 take b 0 =(7)\n8 end b done (7)\n9 take a 1 =()\n10 end a done\n\
            closed 10\n",
        0,
        b"legal 10\n",
    ),
    (
        &["check"],
        b"thread a { x <- sync nothing; }",
        b"",
        5,
        b"script fault 3 at 1:22\n",
    ),
    (
        &["lift"],
        b"thread a { x <- sync nothing; }",
        b"",
        5,
        b"script fault 3 at 1:22\n",
    ),
    // A report is lifted whatever it ends with, and no declaration is searched.
    (&["lift"], EXCHANGE, EXCHANGE_REPORT, 0, EXCHANGE_REPORT),
    (
        &["lift", "--budget", "1"],
        BRANCHES,
        b"tevents report 1\n1 post a 0\n2 post b 0\n3 post c 0\n4 stuck a\nfull 4\n",
        0,
        b"tevents report 2\n1 post a 0 at 1.0\n2 post b 0 at 1.0\n3 post c 0 at 1.0\n4 stuck a\nfull 4\n",
    ),
];

#[test]
fn reports_are_decided_and_lifted(rt: HostRuntime) -> Result<(), Fail> {
    for (spelled, script, report, status, written) in CHECKS {
        let (answered, sink) = call(&rt, rt.alloc(), spelled, script, report)?;
        assert_eq!(rt; sink.bytes(), *written);
        assert_eq!(rt; answered, *status);
    }
    Ok(())
}

#[test]
fn a_report_without_a_line_is_refused_there(rt: HostRuntime) -> Result<(), Fail> {
    let whole = without_line(rt.alloc(), 0)?;
    for (spelled, status, written) in [
        (&["check"][..], 0, &b"legal 7\n"[..]),
        (&["lift"][..], 0, EXCHANGE_REPORT),
    ] {
        let (answered, sink) = call(&rt, rt.alloc(), spelled, EXCHANGE, whole.as_slice())?;
        assert_eq!(rt; sink.bytes(), written);
        assert_eq!(rt; answered, status);
    }
    for n in 1..10usize {
        let fault = if n == 1 {
            1
        } else if n < 8 {
            2
        } else {
            4
        };
        let text = without_line(rt.alloc(), n)?;
        let (answered, sink) = call(&rt, rt.alloc(), &["check"], EXCHANGE, text.as_slice())?;
        let wanted = format!(in rt.alloc(); "report fault {fault} at line {n}\n")?;
        assert_eq!(rt; sink.bytes(), wanted.as_bytes());
        assert_eq!(rt; answered, 8);
    }
    Ok(())
}

// What each trader does in odd rounds, and what in even ones.
const TRADERS: [(&str, &str, &str); 5] = [
    (
        "a",
        "do { o <- send p (10); recv r }",
        "choose { send k (-1) | send k (7) }",
    ),
    (
        "b",
        "do { g <- recv p; o <- send q (g.0 + 1); always g }",
        "do { g <- recv k; if 0 < g.0 { always g } else { never } }",
    ),
    (
        "c",
        "do { g <- recv q; o <- send r (g.0 + 1); always g }",
        "do { o <- send u (20); recv w }",
    ),
    (
        "d",
        "choose { send m (-1) | send m (5) }",
        "do { g <- recv u; o <- send v (g.0 + 1); always g }",
    ),
    (
        "e",
        "do { g <- recv m; if 0 < g.0 { always g } else { never } }",
        "do { g <- recv v; o <- send w (g.0 + 1); always g }",
    ),
];

// The script of five traders, who each synchronise eight times; turned, what they do in even rounds comes first.
pub(super) fn traders(alloc: Global, turned: bool) -> Result<String, Fail> {
    let mut script = String::from_str(alloc, "channels p q r m k u v w;\n")?;
    for (name, first, second) in &TRADERS {
        let round = if turned {
            format!(in alloc; "x <- sync {second}; x <- sync {first};\n")?
        } else {
            format!(in alloc; "x <- sync {first}; x <- sync {second};\n")?
        };
        script.push_str(&format!(in alloc;
            "thread {name} {{ {round}{round}{round}{round} emit x; }}\n"
        )?)?;
    }
    Ok(script)
}

#[test]
fn the_traders_run_is_legal(rt: HostRuntime) -> Result<(), Fail> {
    let script = traders(rt.alloc(), false)?;
    let (status, report) = serial(&rt, rt.alloc(), script.as_bytes())?;
    assert!(rt;
        report.bytes().ends_with(
            b"97 end a done ()\n98 end b done (7)\n99 end c done (22)\n100 end d done (20)\n101 end e done (21)\nclosed 101\n"
        )
    );
    assert_eq!(rt; status, 0);
    let (status, sink) = call(
        &rt,
        rt.alloc(),
        &["check"],
        script.as_bytes(),
        report.bytes(),
    )?;
    assert_eq!(rt; sink.bytes(), &b"legal 101\n"[..]);
    assert_eq!(rt; status, 0);
    Ok(())
}
