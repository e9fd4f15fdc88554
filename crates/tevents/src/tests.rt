mod budgets;
mod checks;
mod modes;
mod printing;
mod reading;
mod refusals;
mod threads;
mod wishing;

use crate::program::tevents;
use std::alloc::{AllocError, Global};
use std::sync::Wait;
use std::test::Fail;
use std::thread::Threads;
use te_io::{MemSink, MemSource, SteadySink, SteadySource};
use te_reader::MOST_BYTES;
use te_runtime::OpenGate;

const EXCHANGE: &[u8] =
    b"channels c; thread a { x <- sync send c (7); } thread b { y <- sync recv c; emit y; }";

const EXCHANGE_REPORT: &[u8] = b"tevents report 2\n\
    1 post a 0 at 1.0\n\
    2 post b 0 at 1.0\n\
    3 commit a: a.0[]=() b.0[]=(7); a>b\n\
    4 take a 0 =()\n\
    5 take b 0 =(7)\n\
    6 end a done\n\
    7 end b done (7)\n\
    closed 7\n";

fn words(alloc: Global, spelled: &[&str]) -> Result<Vec<String>, AllocError> {
    let mut words = Vec::new(alloc);
    for word in spelled {
        words.push(String::from_str(alloc, word)?)?;
    }
    Ok(words)
}

/// The status of `serial` at this script, and a sink with what it writes.
fn serial<R: Threads + Wait + Sync>(
    rt: &R,
    alloc: Global,
    script: &[u8],
) -> Result<(u8, SteadySink), Fail> {
    let mut source = SteadySource::new(alloc, script)?;
    let mut sink = SteadySink::new(alloc, 10_000)?;
    let words = words(alloc, &["serial"])?;
    let status = tevents(
        rt,
        alloc,
        words.as_slice(),
        &mut source,
        &mut sink,
        &OpenGate,
    );
    Ok((status, sink))
}

#[test]
fn scripts_have_these_reports(rt: HostRuntime) -> Result<(), Fail> {
    for (script, status, written) in [
        (EXCHANGE, 0, EXCHANGE_REPORT),
        (
            &b"thread a { x <- sync always (2); emit x; emit (5, 6); }"[..],
            0,
            &b"tevents report 2\n\
                1 post a 0 at 1.0\n\
                2 commit a: a.0[]=(2);\n\
                3 take a 0 =(2)\n\
                4 end a done (2) (5,6)\n\
                closed 4\n"[..],
        ),
        (
            &b"channels c; thread a { x <- sync recv c; }"[..],
            1,
            &b"tevents report 2\n1 post a 0 at 1.0\n2 stuck a\n3 end a stuck\nclosed 3\n"[..],
        ),
        (
            &b"thread a { }"[..],
            0,
            &b"tevents report 2\n1 end a done\nclosed 1\n"[..],
        ),
        (
            &b"thread a { x <- sync never; }"[..],
            1,
            &b"tevents report 2\n1 post a 0 at 1.0\n2 stuck a\n3 end a stuck\nclosed 3\n"[..],
        ),
        (
            &b"thread a { repeat 2 { x <- sync always (1); } emit x; }"[..],
            0,
            &b"tevents report 2\n\
                1 post a 0 at 2.0\n\
                2 commit a: a.0[]=(1);\n\
                3 take a 0 =(1)\n\
                4 post a 1 at 2.1\n\
                5 commit a: a.1[]=(1);\n\
                6 take a 1 =(1)\n\
                7 end a done (1)\n\
                closed 7\n"[..],
        ),
        (
            &b"thread a { x <- sync nothing; }"[..],
            5,
            &b"script fault 3 at 1:22\n"[..],
        ),
        (&b""[..], 5, &b"script fault 8 at 1:1\n"[..]),
    ] {
        let (answered, sink) = serial(&rt, rt.alloc(), script)?;
        assert_eq!(rt; sink.bytes(), written);
        assert_eq!(rt; answered, status);
    }
    Ok(())
}

#[test]
fn independent_pairs_commit_apart_in_either_order(rt: HostRuntime) -> Result<(), Fail> {
    let (status, sink) = serial(
        &rt,
        rt.alloc(),
        b"channels c d; thread a { x <- sync send c (1); } thread b { x <- sync recv c; } \
            thread e { x <- sync send d (2); } thread f { x <- sync recv d; }",
    )?;
    let begun =
        "tevents report 2\n1 post a 0 at 1.0\n2 post b 0 at 1.0\n3 post e 0 at 1.0\n4 post f 0 at 1.0\n";
    let ended = "11 end a done\n12 end b done\n13 end e done\n14 end f done\nclosed 14\n";
    let one = format!(in rt.alloc();
        "{begun}\
        5 commit a: a.0[]=() b.0[]=(1); a>b\n6 take a 0 =()\n7 take b 0 =(1)\n\
        8 commit e: e.0[]=() f.0[]=(2); e>f\n9 take e 0 =()\n10 take f 0 =(2)\n{ended}"
    )?;
    let other = format!(in rt.alloc();
        "{begun}\
        5 commit e: e.0[]=() f.0[]=(2); e>f\n6 take e 0 =()\n7 take f 0 =(2)\n\
        8 commit a: a.0[]=() b.0[]=(1); a>b\n9 take a 0 =()\n10 take b 0 =(1)\n{ended}"
    )?;
    let is_one = sink.bytes() == one.as_bytes();
    assert!(rt; is_one || sink.bytes() == other.as_bytes());
    assert_eq!(rt; status, 0);
    Ok(())
}

#[test]
fn sixty_four_threads_end_and_one_more_is_refused(rt: HostRuntime) -> Result<(), Fail> {
    let mut script = String::new(rt.alloc());
    let mut report = String::from_str(rt.alloc(), "tevents report 2\n")?;
    for number in 0..64u32 {
        script.push_str(&format!(in rt.alloc(); "thread t{number} {{ }}\n")?)?;
        report.push_str(&format!(in rt.alloc(); "{} end t{number} done\n", number + 1)?)?;
    }
    report.push_str("closed 64\n")?;
    let (status, sink) = serial(&rt, rt.alloc(), script.as_bytes())?;
    assert_eq!(rt; sink.bytes(), report.as_bytes());
    assert_eq!(rt; status, 0);
    script.push_str("thread t64 { }\n")?;
    let (status, sink) = serial(&rt, rt.alloc(), script.as_bytes())?;
    assert_eq!(rt; sink.bytes(), &b"script fault 9 (threads) at 65:1\n"[..]);
    assert_eq!(rt; status, 5);
    Ok(())
}

#[test]
fn a_script_has_at_most_its_limit_of_bytes(rt: HostRuntime) -> Result<(), Fail> {
    let mut script = Vec::from_slice(rt.alloc(), b"thread a { }")?;
    script.resize(MOST_BYTES, b' ')?;
    let (status, sink) = serial(&rt, rt.alloc(), script.as_slice())?;
    assert_eq!(rt;
        sink.bytes(),
        &b"tevents report 2\n1 end a done\nclosed 1\n"[..]
    );
    assert_eq!(rt; status, 0);
    script.push(b' ')?;
    let (status, sink) = serial(&rt, rt.alloc(), script.as_slice())?;
    assert_eq!(rt; sink.bytes(), &b"script fault 9 (bytes) at 1:1\n"[..]);
    assert_eq!(rt; status, 5);
    Ok(())
}

#[test]
fn other_words_are_refused_and_nothing_is_touched(rt: HostRuntime) -> Result<(), Fail> {
    for spelled in [
        &[][..],
        &["fly"][..],
        &["Serial"][..],
        &["serial "][..],
        &["serial", "serial"][..],
        &["serial", ""][..],
        &["--help"][..],
        &["serial", "--budget", "0"][..],
        &["serial", "--budget", "1000001"][..],
        &["run", "--budget", "0"][..],
        &["gen", "--number", "1000"][..],
        &["gen", "--number"][..],
    ] {
        let words = words(rt.alloc(), spelled)?;
        let mut source = SteadySource::new(rt.alloc(), EXCHANGE)?;
        let mut sink = SteadySink::new(rt.alloc(), 10_000)?;
        let status = tevents(
            &rt,
            rt.alloc(),
            words.as_slice(),
            &mut source,
            &mut sink,
            &OpenGate,
        );
        assert_eq!(rt; status, 2);
        assert_eq!(rt; sink.bytes(), &b""[..]);
    }
    Ok(())
}

#[test]
fn a_failing_end_is_told(rt: HostRuntime) -> Result<(), Fail> {
    let words = words(rt.alloc(), &["serial"])?;
    for (source_fails, sink_fails, status, held) in [
        (&[][..], &[][..], 0, EXCHANGE_REPORT),
        (&[2][..], &[][..], 3, &b""[..]),
        (&[1][..], &[1][..], 3, &b""[..]),
        (&[][..], &[2][..], 4, &b"tevents re"[..]),
        (&[][..], &[1][..], 4, &b""[..]),
    ] {
        let mut source = MemSource::new(rt.alloc(), EXCHANGE, 40, source_fails)?;
        let mut sink = MemSink::new(rt.alloc(), 10_000, 10, sink_fails)?;
        let answered = tevents(
            &rt,
            rt.alloc(),
            words.as_slice(),
            &mut source,
            &mut sink,
            &OpenGate,
        );
        assert_eq!(rt; sink.bytes(), held);
        assert_eq!(rt; answered, status);
    }
    Ok(())
}
