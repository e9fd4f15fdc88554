// Texts that are read, and texts with faults.

use std::alloc::Global;
use std::process::Abort;
use std::test::Fail;
use te_reader::{Place, ScriptFault, Which, read_script};

const EXCHANGE: &[u8] =
    b"channels c; thread a { x <- sync send c (7); } thread b { y <- sync recv c; emit y; }";

// Whether a text is read; want of memory fails the test.
fn is_read(rt: &impl Abort, alloc: Global, text: &[u8]) -> bool {
    match read_script(alloc, text) {
        Ok(_) => true,
        Err(fault) => {
            assert!(rt; fault != ScriptFault::Memory, "want of memory");
            false
        }
    }
}

// A head, so many pieces with their numbers, and a tail.
fn repeated(
    alloc: Global,
    count: u32,
    head: &str,
    before: &str,
    after: &str,
    tail: &str,
) -> Result<Vec<u8>, Fail> {
    let mut text = Vec::from_slice(alloc, head.as_bytes())?;
    for number in 0..count {
        text.extend_from_slice(before.as_bytes())?;
        text.extend_from_slice(number.to_string(alloc)?.as_bytes())?;
        text.extend_from_slice(after.as_bytes())?;
    }
    text.extend_from_slice(tail.as_bytes())?;
    Ok(text)
}

#[test]
fn an_exchange_is_read(rt: HostRuntime) -> Result<(), Fail> {
    let Ok(script) = read_script(rt.alloc(), EXCHANGE) else {
        assert!(rt; false, "the exchange is refused");
        return Ok(());
    };
    let channels = script.channels.as_slice();
    assert_eq!(rt; channels.len(), 1);
    for name in channels {
        assert_eq!(rt; name.bytes(), &b"c"[..]);
    }
    for (thread, (name, register, statements)) in script
        .threads
        .as_slice()
        .iter()
        .zip([(&b"a"[..], &b"x"[..], 1), (&b"b"[..], &b"y"[..], 2)])
    {
        assert_eq!(rt; thread.name.bytes(), name);
        assert_eq!(rt; thread.stmts.len(), statements);
        for found in thread.regs.as_slice() {
            assert_eq!(rt; found.bytes(), register);
        }
    }
    assert_eq!(rt; script.threads.len(), 2);
    Ok(())
}

#[test]
fn texts_are_read_or_refused(rt: HostRuntime) {
    for (text, want) in [
        (&b"thread a { }"[..], true),
        (b"thread a{}", true),
        (b"# c\nthread a { } # the end", true),
        (b"thread a { } #", true),
        (b"thread a { } # \x00\x7f\xff", true),
        (b"\t\r\n thread a\n{\t}\r", true),
        (b"channels a; thread a { a2 <- sync recv a; }", true),
        (b"channels c d; thread a { emit (c, d, -1, 00); }", true),
        (
            b"thread a { emit (9223372036854775807, -9223372036854775808); }",
            true,
        ),
        (
            b"thread a { emit (-0, 000000000000000000000000000000000000001); }",
            true,
        ),
        (
            b"thread a { x <- sync always (); y <- sync always x; x <- sync always y; }",
            true,
        ),
        (b"", false),
        (b"channels c;", false),
        (b"channels; thread a { }", false),
        (b"channels c c; thread a { }", false),
        (b"thread a { } thread a { }", false),
        (b"thread a { emit x; }", false),
        (b"thread a { x <- sync always x; }", false),
        (b"thread a { x <- sync recv c; }", false),
        (b"channels c; thread a { c <- sync recv c; }", false),
        (b"channels c; thread a { x <- sync recv x; }", false),
        (b"channels c; thread a { emit c; }", false),
        (b"thread a { emit (1, ); }", false),
        (b"thread a { emit (, 1); }", false),
        (b"thread a { emit (1 2); }", false),
        (b"thread a { emit (9223372036854775808); }", false),
        (b"thread a { emit (-9223372036854775809); }", false),
        (
            b"thread a { emit (99999999999999999999999999999999999999999); }",
            false,
        ),
        (b"thread a { emit (- 1); }", false),
        (b"thread a { } thread", false),
        (b"thread fresh { }", false),
        (b"thread _a { }", false),
        (b"thread a { } \x0b", false),
        (b"thread a { } \x7f", false),
        (b"thread a { } \xc3\xa9", false),
        (b"thread a { } $", false),
        (b"thread a { }}", false),
        // names of 32 and 33 bytes, and four and five calculations
        (b"thread abcdefghijklmnopqrstuvwxyz012345 { }", true),
        (b"thread abcdefghijklmnopqrstuvwxyz0123456 { }", false),
        (
            b"channels abcdefghijklmnopqrstuvwxyz012345; thread a { }",
            true,
        ),
        (
            b"channels abcdefghijklmnopqrstuvwxyz0123456; thread a { }",
            false,
        ),
        (
            b"thread a { abcdefghijklmnopqrstuvwxyz012345 <- sync always (); }",
            true,
        ),
        (
            b"thread a { abcdefghijklmnopqrstuvwxyz0123456 <- sync always (); }",
            false,
        ),
        (b"thread a { emit (1, 2, 3, 4); }", true),
        (b"thread a { emit (1, 2, 3, 4, 5); }", false),
    ] {
        assert_eq!(rt; is_read(&rt, rt.alloc(), text), want, "{:?}", text);
    }
}

#[test]
fn events_of_the_whole_language_are_read(rt: HostRuntime) -> Result<(), Fail> {
    for (event, want) in [
        ("never", true),
        ("throw (1)", true),
        ("throw x", true),
        ("throw", false),
        ("never ()", false),
        ("send 5 (1)", true),
        ("send x.0 x", true),
        ("recv x.3", true),
        ("recv x . 003", true),
        ("recv x.-0", true),
        ("recv x", false),
        ("recv x.4", false),
        ("recv x.-1", false),
        ("recv c.0", false),
        ("always c", false),
        ("always (c, x.0 + 1, 2 - x.1, c * c)", true),
        ("always (x.0 -1)", false),
        ("always (x.0 - 1)", true),
        ("always (1 - 1 - 1)", false),
        ("always (x)", false),
        ("always (+ 1)", false),
        ("do { u <- recv c; always u }", true),
        ("do { _ <- recv c; always _ }", true),
        ("do { _ <- recv c; recv _.0 }", true),
        ("do { _ <- recv c; recv _ }", false),
        (
            "do { u <- recv c; v <- send u.0 u; always (u.0, v.3) }",
            true,
        ),
        ("do { u <- recv c }", false),
        ("do { u <- recv c; }", false),
        ("do { recv c }", false),
        ("do { }", false),
        ("do { u <- recv c; u <- recv c; never }", false),
        ("do { u <- always u; never }", false),
        ("do { u <- do { u <- never; never }; always u }", true),
        ("do { u <- do { v <- never; never }; always v }", false),
        ("do { x <- never; never }", false),
        ("do { y <- never; always y }", true),
        ("do { c <- never; never }", false),
        ("do { fresh <- never; never }", false),
        (
            "do { u <- never; do { v <- never; always (u.0, v.0) } }",
            true,
        ),
        ("choose { never | never }", true),
        (
            "choose { never | recv c | do { u <- never; always u } }",
            true,
        ),
        ("choose { never | choose { never | never } }", true),
        ("choose { choose { never | never } | never }", true),
        ("choose { never }", false),
        ("choose { never | }", false),
        ("choose { never, never }", false),
        ("try { throw (1) } catch u { always u }", true),
        ("try { throw (1) } catch _0 { always _0 }", true),
        ("try { always u } catch u { always u }", false),
        ("try { never } catch c { never }", false),
        ("try { never }", false),
        ("try never catch u { never }", false),
        ("if 0 < x.0 { always x } else { never }", true),
        ("if x.0 = c { never } else { never }", true),
        ("if x.0 <-1 { never } else { never }", false),
        ("if x.0 < -1 { never } else { never }", true),
        ("if 1 + 1 = 2 { never } else { never }", false),
        ("if 1 = 2 { never }", false),
        ("repeat 2 { never }", false),
    ] {
        let text = format!(in rt.alloc();
            "channels c; thread a {{ x <- sync always (); y <- sync {event}; }}"
        )?;
        assert_eq!(rt; is_read(&rt, rt.alloc(), text.as_bytes()), want, "{event}");
    }
    Ok(())
}

// A thread that synchronises on so many pieces with their numbers, and a tail.
fn synchronising(
    alloc: Global,
    count: u32,
    head: &str,
    before: &str,
    after: &str,
    tail: &str,
) -> Result<Vec<u8>, Fail> {
    let head = format!(in alloc; "thread a {{ x <- sync {head}")?;
    let tail = format!(in alloc; "{tail}; }}")?;
    repeated(alloc, count, head.as_str(), before, after, tail.as_str())
}

#[test]
fn an_event_has_height_32_and_no_more(rt: HostRuntime) -> Result<(), Fail> {
    for (most, head, before, after, tail) in [
        (31, "do { ", "u", " <- never; ", "never }"),
        (31, "choose { ", "always (", ") | ", "never }"),
        (
            29,
            "choose { ",
            "do { u <- always (",
            "); never } | ",
            "do { u <- never; v <- never; never } }",
        ),
        (
            30,
            "choose { ",
            "do { u <- always (",
            "); never } | ",
            "do { u <- never; never } }",
        ),
    ] {
        for (count, want) in [(most, true), (most + 1, false)] {
            let text = synchronising(rt.alloc(), count, head, before, after, tail)?;
            assert_eq!(rt;
                is_read(&rt, rt.alloc(), text.as_slice()),
                want,
                "{count} of {before}"
            );
        }
    }
    for (count, want) in [(31, true), (32, false)] {
        let mut text = Vec::from_slice(rt.alloc(), b"thread a { x <- sync ")?;
        for _ in 0..count {
            text.extend_from_slice(b"try { ")?;
        }
        text.extend_from_slice(b"never")?;
        for _ in 0..count {
            text.extend_from_slice(b" } catch u { never }")?;
        }
        text.extend_from_slice(b"; }")?;
        assert_eq!(rt; is_read(&rt, rt.alloc(), text.as_slice()), want, "{count}");
    }
    Ok(())
}

#[test]
fn an_event_has_no_more_than_4096_nodes(rt: HostRuntime) -> Result<(), Fail> {
    // 4,095 nodes
    let mut tree = String::from_str(rt.alloc(), "never")?;
    for _ in 0..11 {
        tree = format!(in rt.alloc(); "choose {{ {tree} | {tree} }}")?;
    }
    let text = format!(in rt.alloc(); "thread a {{ x <- sync {tree}; }}")?;
    assert!(rt; is_read(&rt, rt.alloc(), text.as_bytes()), "at the limit");
    let text = format!(in rt.alloc(); "thread a {{ x <- sync choose {{ {tree} | never }}; }}")?;
    assert!(rt; !is_read(&rt, rt.alloc(), text.as_bytes()), "past it");
    Ok(())
}

#[test]
fn an_event_has_16_fresh_channels_and_no_more(rt: HostRuntime) -> Result<(), Fail> {
    let mut text = Vec::from_slice(rt.alloc(), b"thread a { x <- sync choose { ")?;
    for _ in 0..16 {
        text.extend_from_slice(b"fresh | ")?;
    }
    let mut more = text.clone()?;
    text.extend_from_slice(b"never }; }")?;
    assert!(rt; is_read(&rt, rt.alloc(), text.as_slice()), "at the limit");
    more.extend_from_slice(b"fresh")?;
    assert_eq!(rt;
        fault(&rt, rt.alloc(), more.as_slice()),
        ScriptFault::Limit(Which::Fresh, at(1, 159))
    );
    Ok(())
}

#[test]
fn an_event_of_a_mebibyte_is_refused(rt: HostRuntime) -> Result<(), Fail> {
    for (count, head, before, after, tail) in [
        (50_000, "do { ", "u", " <- never; ", "never }"),
        (50_000, "choose { ", "always (", ") | ", "never }"),
        (70_000, "", "do { u", " <- ", "never"),
    ] {
        let text = synchronising(rt.alloc(), count, head, before, after, tail)?;
        assert!(rt; text.len() <= 1_048_576, "{before}");
        assert!(rt; !is_read(&rt, rt.alloc(), text.as_slice()), "{before}");
    }
    Ok(())
}

#[test]
fn a_cut_text_is_refused_but_behind_a_thread(rt: HostRuntime) {
    for end in 0..EXCHANGE.len() {
        assert_eq!(rt;
            is_read(&rt, rt.alloc(), &EXCHANGE[..end]),
            end == 46 || end == 47,
            "{end}"
        );
    }
}

#[test]
fn each_limit_holds_at_its_last_and_not_one_past(rt: HostRuntime) -> Result<(), Fail> {
    for (most, head, before, after, tail) in [
        (256, "channels ", "c", " ", "; thread a { }"),
        (64, "", "thread t", " { } ", ""),
        (1024, "thread a { ", "emit (", "); ", "}"),
        (8, "thread a { ", "r", " <- sync always (); ", "}"),
    ] {
        for (count, want) in [(most, true), (most + 1, false)] {
            let text = repeated(rt.alloc(), count, head, before, after, tail)?;
            assert_eq!(rt;
                is_read(&rt, rt.alloc(), text.as_slice()),
                want,
                "{count} of {before}"
            );
        }
    }
    Ok(())
}

#[test]
fn a_text_has_at_most_a_mebibyte(rt: HostRuntime) -> Result<(), Fail> {
    let mut text = Vec::from_slice(rt.alloc(), b"thread a { }")?;
    for _ in text.len()..1_048_576 {
        text.push(b' ')?;
    }
    assert!(rt; is_read(&rt, rt.alloc(), text.as_slice()), "at the limit");
    text.push(b' ')?;
    assert_eq!(rt;
        fault(&rt, rt.alloc(), text.as_slice()),
        ScriptFault::Limit(Which::Bytes, at(1, 1))
    );
    Ok(())
}

fn at(line: u32, column: u32) -> Place {
    Place { line, column }
}

// The fault of a text that has one.
fn fault(rt: &impl Abort, alloc: Global, text: &[u8]) -> ScriptFault {
    match read_script(alloc, text) {
        Ok(_) => {
            assert!(rt; false, "a text with a fault is read");
            ScriptFault::Memory
        }
        Err(fault) => fault,
    }
}

#[test]
fn each_fault_stands_at_its_place(rt: HostRuntime) {
    for (text, want) in [
        (&b"channels c\x01;"[..], ScriptFault::Bytes(at(1, 11))),
        (b"channels c \x7f", ScriptFault::Bytes(at(1, 12))),
        (b"channels $;", ScriptFault::Token(at(1, 10))),
        (b"thread a { x <", ScriptFault::Syntax(at(1, 14))),
        (b"", ScriptFault::NoThread(at(1, 1))),
        (
            b"thread a { x <- sync always (9223372036854775808); }",
            ScriptFault::Integer(at(1, 30)),
        ),
        (b"thread a { emit x; }", ScriptFault::Unbound(at(1, 17))),
        (b"channels c c;", ScriptFault::Twice(at(1, 12))),
        (b"channels c\n c;", ScriptFault::Twice(at(2, 2))),
        (
            b"channels c; thread a { c <- sync never; }",
            ScriptFault::Shadow(at(1, 24)),
        ),
        (b"channels c;", ScriptFault::NoThread(at(1, 12))),
        (b"channels c;\n# the end\n", ScriptFault::NoThread(at(3, 1))),
        (
            b"thread a { emit (1, 2, 3, 4, 5); }",
            ScriptFault::Limit(Which::Atoms, at(1, 30)),
        ),
        (
            b"thread a { emit (1, 2, 3, 4, ); }",
            ScriptFault::Syntax(at(1, 30)),
        ),
        (b"thread a { } thread a { }", ScriptFault::Twice(at(1, 21))),
        (
            b"thread a {\n  x <- sync recv c;\n}",
            ScriptFault::Unbound(at(2, 18)),
        ),
        (
            b"channels c; thread a { x <- sync send c.x",
            ScriptFault::Unbound(at(1, 39)),
        ),
        (
            b"thread a { x <- sync do { u <- never; u <- never; never }; }",
            ScriptFault::Shadow(at(1, 39)),
        ),
        (
            b"thread a { x <- sync do { u <- do { u <- never; never }; always u }; y <- sync always u; }",
            ScriptFault::Unbound(at(1, 87)),
        ),
        (
            b"thread a { x <- sync do { u <- fresh",
            ScriptFault::Syntax(at(1, 37)),
        ),
        (
            b"thread a { repeat 0 { x <- sync never; } }",
            ScriptFault::Limit(Which::Repeat, at(1, 19)),
        ),
        (
            b"thread a { repeat 10001 { x <- sync never; } }",
            ScriptFault::Limit(Which::Repeat, at(1, 19)),
        ),
        (
            b"thread a { repeat 99999999999999999999",
            ScriptFault::Integer(at(1, 19)),
        ),
        (b"thread a { repeat 2 { } }", ScriptFault::Syntax(at(1, 23))),
        (
            b"thread a { repeat 2 { x <- sync never; emit x; } }",
            ScriptFault::Syntax(at(1, 40)),
        ),
    ] {
        assert_eq!(rt; fault(&rt, rt.alloc(), text), want);
    }
}

#[test]
fn each_limit_is_told_at_its_token(rt: HostRuntime) -> Result<(), Fail> {
    for (count, head, before, after, want) in [
        (
            257,
            "channels ",
            "c",
            "\n",
            ScriptFault::Limit(Which::Channels, at(257, 1)),
        ),
        (
            65,
            "",
            "thread t",
            " { }\n",
            ScriptFault::Limit(Which::Threads, at(65, 1)),
        ),
        (
            1025,
            "thread a {\n",
            "emit (",
            ");\n",
            ScriptFault::Limit(Which::Statements, at(1026, 1)),
        ),
        (
            9,
            "thread a {\n",
            "r",
            " <- sync never;\n",
            ScriptFault::Limit(Which::Registers, at(10, 1)),
        ),
        (
            40,
            "thread a { x <- sync do {\n",
            "u",
            " <- never;\n",
            ScriptFault::Limit(Which::Depth, at(42, 8)),
        ),
        (
            50_000,
            "thread a { x <- sync do {\n",
            "u",
            " <- never;\n",
            ScriptFault::Limit(Which::Depth, at(50_002, 8)),
        ),
    ] {
        let text = repeated(rt.alloc(), count, head, before, after, "never }; }")?;
        assert_eq!(rt; fault(&rt, rt.alloc(), text.as_slice()), want);
    }
    let mut tries = Vec::from_slice(rt.alloc(), b"thread a { x <- sync ")?;
    for _ in 0..32 {
        tries.extend_from_slice(b"try { ")?;
    }
    tries.extend_from_slice(b"never")?;
    assert_eq!(rt;
        fault(&rt, rt.alloc(), tries.as_slice()),
        ScriptFault::Limit(Which::Depth, at(1, 214))
    );
    let mut tree = String::from_str(rt.alloc(), "never")?;
    for _ in 0..11 {
        tree = format!(in rt.alloc(); "choose {{ {tree} | {tree} }}")?;
    }
    let text = format!(in rt.alloc(); "thread a {{ x <- sync choose {{ {tree} | never }}\n; }}")?;
    assert_eq!(rt;
        fault(&rt, rt.alloc(), text.as_bytes()),
        ScriptFault::Limit(Which::Nodes, at(2, 1))
    );
    Ok(())
}
