// Scripts that are printed, and read again.

use crate::modes::print_run;
use std::test::Fail;
use te_io::{MemSink, MemSource, SteadySink, SteadySource};
use te_reader::{print_script, read_script};
use te_script::generate;

// Texts, and the canonical texts of their scripts.
const TEXTS: &[(&[u8], &[u8])] = &[
    (
        b"channels c; thread a { x <- sync send c (7); } thread b { y <- sync recv c; emit y; }",
        b"channels c;\nthread a {\n  x <- sync send c (7);\n}\nthread b {\n  y <- sync recv c;\n  emit y;\n}\n",
    ),
    (
        b"channels c;thread a{x<-sync try{do{u<-recv c;throw(u.0+1)}}catch e{always e};emit x;}",
        b"channels c;\nthread a {\n  x <- sync try { do { _0 <- recv c; throw (_0.0 + 1) } } catch _0 { always _0 };\n  emit x;\n}\n",
    ),
    (
        b"thread a { x <- sync do { u <- never; do { v <- always u; never } }; }",
        b"thread a {\n  x <- sync do { _0 <- never; _1 <- always _0; never };\n}\n",
    ),
    (
        b"thread a { x <- sync choose { choose { never | never } | choose { never | always (-007, 00) } }; }",
        b"thread a {\n  x <- sync choose { choose { never | never } | never | always (-7, 0) };\n}\n",
    ),
    (
        b"thread a { repeat 02 { x <- sync never; x<-sync fresh; } repeat 10000{x<-sync never;}emit x; }",
        b"thread a {\n  repeat 2 {\n    x <- sync never;\n    x <- sync fresh;\n  }\n  repeat 10000 {\n    x <- sync never;\n  }\n  emit x;\n}\n",
    ),
    (b"thread a { } # nothing", b"thread a {\n}\n"),
    (
        b"thread a { x<-sync never; repeat 02 { x <- sync fresh; y <- sync always x; }emit(y.0); }",
        b"thread a {\n  x <- sync never;\n  repeat 2 {\n    x <- sync fresh;\n    y <- sync always x;\n  }\n  emit (y.0);\n}\n",
    ),
];

#[test]
fn scripts_print_as_their_canonical_texts(rt: HostRuntime) -> Result<(), Fail> {
    for (text, canonical) in TEXTS {
        let Ok(script) = read_script(rt.alloc(), text) else {
            assert!(rt; false, "a text is refused");
            return Ok(());
        };
        let printed = print_script(rt.alloc(), &script)?;
        assert_eq!(rt; printed.as_slice(), *canonical);
        let Ok(again) = read_script(rt.alloc(), printed.as_slice()) else {
            assert!(rt; false, "a canonical text is refused");
            return Ok(());
        };
        assert_eq!(rt; print_script(rt.alloc(), &again)?.as_slice(), *canonical);
    }
    Ok(())
}

// A code has at most 16 fresh channels.
#[test]
fn a_thread_may_have_more_events_than_a_code_holds(rt: HostRuntime) -> Result<(), Fail> {
    let mut text = Vec::from_slice(rt.alloc(), b"thread a {\n")?;
    for _ in 0..40 {
        text.extend_from_slice(b"  x <- sync choose { fresh | fresh | fresh };\n")?;
    }
    text.extend_from_slice(b"}\n")?;
    let Ok(script) = read_script(rt.alloc(), text.as_slice()) else {
        assert!(rt; false, "a text is refused");
        return Ok(());
    };
    let printed = print_script(rt.alloc(), &script)?;
    assert_eq!(rt; printed.as_slice(), text.as_slice());
    Ok(())
}

const RING: &[u8] = b"channels c0 c1 c2;
thread t0 {
  x <- sync do { _0 <- send c0 (0); recv c2 };
  emit x;
}
thread t1 {
  x <- sync do { _0 <- recv c0; _1 <- send c1 (_0.0 + 1); always _0 };
  emit x;
}
thread t2 {
  x <- sync do { _0 <- recv c1; _1 <- send c2 (_0.0 + 1); always _0 };
  emit x;
}
";

#[test]
fn a_generated_script_is_printed_and_read_again(rt: HostRuntime) -> Result<(), Fail> {
    let script = generate(rt.alloc(), 0)?;
    let printed = print_script(rt.alloc(), &script)?;
    assert_eq!(rt; printed.as_slice(), RING);
    for number in [20, 299] {
        let script = generate(rt.alloc(), number)?;
        let printed = print_script(rt.alloc(), &script)?;
        let Ok(again) = read_script(rt.alloc(), printed.as_slice()) else {
            assert!(rt; false, "the text of {number} is refused");
            return Ok(());
        };
        assert!(rt;
            print_script(rt.alloc(), &again)?.as_slice() == printed.as_slice(),
            "{number} prints otherwise"
        );
    }
    Ok(())
}

#[test]
fn a_script_is_printed_from_its_source_to_the_sink(rt: HostRuntime) -> Result<(), Fail> {
    for (text, canonical) in TEXTS {
        let mut source = SteadySource::new(rt.alloc(), text)?;
        let mut sink = SteadySink::new(rt.alloc(), 10_000)?;
        assert_eq!(rt; print_run(rt.alloc(), &mut source, &mut sink), 0);
        assert_eq!(rt; sink.bytes(), *canonical);
    }
    let mut source = SteadySource::new(rt.alloc(), b"thread a { x <")?;
    let mut sink = SteadySink::new(rt.alloc(), 10_000)?;
    assert_eq!(rt; print_run(rt.alloc(), &mut source, &mut sink), 5);
    assert_eq!(rt; sink.bytes(), &b"script fault 3 at 1:14\n"[..]);
    Ok(())
}

#[test]
fn a_failing_end_of_a_printing_is_told(rt: HostRuntime) -> Result<(), Fail> {
    let whole = &b"thread a {\n}\n"[..];
    for (source_fails, sink_fails, status, held) in [
        (&[][..], &[][..], 0, whole),
        (&[2][..], &[][..], 3, &b""[..]),
        (&[][..], &[2][..], 4, &b"thread a {"[..]),
    ] {
        let mut source = MemSource::new(rt.alloc(), b"thread a { }", 5, source_fails)?;
        let mut sink = MemSink::new(rt.alloc(), 100, 10, sink_fails)?;
        assert_eq!(rt; print_run(rt.alloc(), &mut source, &mut sink), status);
        assert_eq!(rt; sink.bytes(), held);
    }
    Ok(())
}
