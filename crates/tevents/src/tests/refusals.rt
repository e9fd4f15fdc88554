// What becomes of a run whose script breaks off, or whose ends fail at one call.

use super::{EXCHANGE, EXCHANGE_REPORT, serial, words};
use crate::program::tevents;
use std::alloc::Global;
use std::sync::Wait;
use std::test::Fail;
use std::thread::Threads;
use te_io::{MemSink, MemSource, SteadySink, SteadySource};
use te_runtime::OpenGate;

// Where a thread may begin, a script without one is told; behind the first thread's brace, with the blank after it or without,
// stands a whole script of one thread.
#[test]
fn a_script_that_breaks_off_is_a_fault(rt: HostRuntime) -> Result<(), Fail> {
    for end in 0..EXCHANGE.len() {
        let (status, sink) = serial(&rt, rt.alloc(), &EXCHANGE[..end])?;
        let (wanted, written) = match end {
            46 | 47 => (1, &b"tevents report 2\n1 post a 0 at 1.0\n2 stuck a\n"[..]),
            0 | 11 | 12 => (5, &b"script fault 8 at 1:"[..]),
            _ => (5, &b"script fault 3 at 1:"[..]),
        };
        assert_eq!(rt; status, wanted, "{end}");
        assert!(rt; sink.bytes().starts_with(written), "{end}");
    }
    Ok(())
}

// More calls than any text here needs.
const MOST_CALLS: u32 = 1_000;

// The exchange, a rule, and its report in the second version.
fn exchange_with_report(alloc: Global) -> Result<Vec<u8>, Fail> {
    let mut text = Vec::from_slice(alloc, EXCHANGE)?;
    text.extend_from_slice(b"\n---\n")?;
    text.extend_from_slice(EXCHANGE_REPORT)?;
    Ok(text)
}

// The first call of those that read a text byte by byte, to its end, whose failure isn't told as such, or leaves something written.
fn read_untold<R: Threads + Wait + Sync>(
    rt: &R,
    alloc: Global,
    mode: &str,
    text: &[u8],
) -> Result<Option<u32>, Fail> {
    let words = words(alloc, &[mode])?;
    for call in 1..MOST_CALLS {
        if call as usize == text.len() + 2 {
            return Ok(None);
        }
        let mut source = MemSource::new(alloc, text, 1, &[call])?;
        let mut sink = SteadySink::new(alloc, 1_000)?;
        let status = tevents(
            rt,
            alloc,
            words.as_slice(),
            &mut source,
            &mut sink,
            &OpenGate,
        );
        if status != 3 || !sink.bytes().is_empty() {
            return Ok(Some(call));
        }
    }
    Ok(Some(MOST_CALLS))
}

// The first call of those that write a text byte by byte whose failure isn't told as such, or leaves anything but what was
// written before it.
fn write_untold<R: Threads + Wait + Sync>(
    rt: &R,
    alloc: Global,
    mode: &str,
    text: &[u8],
    written: &[u8],
) -> Result<Option<u32>, Fail> {
    let words = words(alloc, &[mode])?;
    for call in 1..MOST_CALLS {
        if call as usize > written.len() {
            return Ok(None);
        }
        let mut source = SteadySource::new(alloc, text)?;
        let mut sink = MemSink::new(alloc, 1_000, 1, &[call])?;
        let status = tevents(
            rt,
            alloc,
            words.as_slice(),
            &mut source,
            &mut sink,
            &OpenGate,
        );
        if status != 4 || Some(sink.bytes()) != written.get(..call as usize - 1) {
            return Ok(Some(call));
        }
    }
    Ok(Some(MOST_CALLS))
}

#[test]
fn each_read_that_fails_is_told(rt: HostRuntime) -> Result<(), Fail> {
    let alloc = rt.alloc();
    let with_report = exchange_with_report(alloc)?;
    for (mode, text) in [("serial", EXCHANGE), ("check", with_report.as_slice())] {
        assert_eq!(rt; read_untold(&rt, alloc, mode, text)?, None, "{mode}");
    }
    Ok(())
}

#[test]
fn each_write_that_fails_leaves_what_was_written(rt: HostRuntime) -> Result<(), Fail> {
    let alloc = rt.alloc();
    let with_report = exchange_with_report(alloc)?;
    for (mode, text, written) in [
        ("serial", EXCHANGE, EXCHANGE_REPORT),
        ("check", with_report.as_slice(), &b"legal 7\n"[..]),
        ("lift", with_report.as_slice(), EXCHANGE_REPORT),
    ] {
        assert_eq!(rt;
            write_untold(&rt, alloc, mode, text, written)?,
            None,
            "{mode}"
        );
    }
    Ok(())
}
