// Reports that are read and written again, and reports that are refused.

use std::alloc::Global;
use std::test::Fail;
use te_cert::CertFault;
use te_history::{Status, StepFault};
use te_report::{Cause, Ending, Reading, ReportFault, read_declared, read_report};
use te_script::{Script, generate};

/// The report of one round of the ring's script.
const RING: [&[u8]; 12] = [
    b"tevents report 2\n",
    b"1 post t0 0 at 1.0\n",
    b"2 post t1 0 at 1.0\n",
    b"3 post t2 0 at 1.0\n",
    b"4 commit t0: t0.0[]=(2) t1.0[]=(0) t2.0[]=(1); t0>t1 t1>t2 t2>t0\n",
    b"5 take t0 0 =(2)\n",
    b"6 take t1 0 =(0)\n",
    b"7 take t2 0 =(1)\n",
    b"8 end t0 done (2)\n",
    b"9 end t1 done (0)\n",
    b"10 end t2 done (1)\n",
    b"closed 10\n",
];

// The report with another text for a line, by its number from 1.
fn with_line(alloc: Global, at: usize, line: &[u8]) -> Result<Vec<u8>, Fail> {
    let mut text = Vec::new(alloc);
    for (i, own) in RING.iter().enumerate() {
        text.extend_from_slice(if i + 1 == at { line } else { *own })?;
    }
    Ok(text)
}

// Why a report is refused; `None` where it is read.
fn fault_of(alloc: Global, script: &Script, text: &[u8]) -> Option<ReportFault> {
    // The checker knows the types within a fault only where the body names them.
    let _named: Option<Status> = None;
    read_report(alloc, script, text).err()
}

#[test]
fn a_report_is_read_back(rt: HostRuntime) -> Result<(), Fail> {
    let alloc = rt.alloc();
    let script = generate(alloc, 0)?;
    let cases: [(&[u8], Ending); 3] = [
        (b"closed 10\n", Ending::Closed),
        (b"full 10\n", Ending::Full),
        (
            b"spent 10 front 3 paths 18446744073709551615 groups 0\n",
            Ending::Spent {
                front: 3,
                paths: 18_446_744_073_709_551_615,
                groups: 0,
            },
        ),
    ];
    for (last, ending) in &cases {
        let text = with_line(alloc, 12, last)?;
        let Ok((hist, found)) = read_report(alloc, &script, &text) else {
            return Err("a report that is read")?;
        };
        assert_eq!(&rt; hist.len(), 10);
        assert_eq!(&rt; found, *ending);
    }
    Ok(())
}

#[test]
fn the_first_line_that_fails_is_told(rt: HostRuntime) -> Result<(), Fail> {
    let alloc = rt.alloc();
    let script = generate(alloc, 0)?;
    let step = |fault: StepFault| Cause::Step(fault);
    let cases: [(usize, &[u8], ReportFault); 24] = [
        (1, b"", ReportFault::Head),
        (1, b"tevents report 3\n", ReportFault::Head),
        (2, b"", ReportFault::Line(2)),
        (2, b"1 post t0 0\n", ReportFault::Line(2)),
        (2, b"01 post t0 0 at 1.0\n", ReportFault::Line(2)),
        (2, b"1 post t3 0 at 1.0\n", ReportFault::Line(2)),
        (
            2,
            b"1 post t0 0 at 1.1\n",
            ReportFault::Illegal(2, Cause::Script),
        ),
        (
            2,
            b"1 post t0 1 at 1.0\n",
            ReportFault::Illegal(2, step(StepFault::Ticket(0))),
        ),
        (
            3,
            b"2 post t0 0 at 1.0\n",
            ReportFault::Illegal(3, step(StepFault::Other(Status::Parked(0)))),
        ),
        (
            5,
            b"4 commit t0: ;\n",
            ReportFault::Illegal(5, step(StepFault::Unsound(CertFault::Empty))),
        ),
        (
            5,
            b"4 commit t0: t0.0[]=(2) t1.0[]=(0); t0>t2\n",
            ReportFault::Line(5),
        ),
        (
            5,
            b"4 commit t0: t0.0[]=(2) t1.0[]=(0) t2.0[]=(1); t1>t0 t1>t2 t2>t0\n",
            ReportFault::Illegal(5, step(StepFault::Unsound(CertFault::Meet(0)))),
        ),
        (
            5,
            b"4 commit t0: t0.0[]=(2) t1.0[]=(0) t2.0[]=(2); t0>t1 t1>t2 t2>t0\n",
            ReportFault::Illegal(5, step(StepFault::Result(2))),
        ),
        (
            5,
            b"4 stuck t0\n",
            ReportFault::Illegal(6, step(StepFault::Closed)),
        ),
        (
            6,
            b"5 take t0 0 =(3)\n",
            ReportFault::Illegal(6, step(StepFault::Result(0))),
        ),
        (6, b"5 take t0 0 =(2,2,2,2,2)\n", ReportFault::Line(6)),
        (
            6,
            b"5 take t0 0 =(9223372036854775808)\n",
            ReportFault::Line(6),
        ),
        (
            9,
            b"8 end t0 done (3)\n",
            ReportFault::Illegal(9, Cause::Script),
        ),
        (
            9,
            b"8 end t0 stuck\n",
            ReportFault::Illegal(9, step(StepFault::How)),
        ),
        (11, b"closed 9\n", ReportFault::Tail(11)),
        (12, b"", ReportFault::Tail(12)),
        (12, b"clo", ReportFault::Line(12)),
        (12, b"closed 10", ReportFault::Tail(12)),
        (12, b"closed 10\n\n", ReportFault::Tail(13)),
    ];
    for (at, line, fault) in &cases {
        let text = with_line(alloc, *at, line)?;
        assert_eq!(&rt; fault_of(alloc, &script, &text), Some(*fault));
    }
    Ok(())
}

// A report in version 1 of the same script, of which the three threads give up.
#[test]
fn a_declared_board_is_told(rt: HostRuntime) -> Result<(), Fail> {
    let alloc = rt.alloc();
    let script = generate(alloc, 0)?;
    let text = b"tevents report 1\n\
        1 post t0 0\n\
        2 post t1 0\n\
        3 post t2 0\n\
        4 stuck t1\n\
        5 end t2 stuck\n\
        6 end t0 stuck\n\
        7 end t1 stuck\n\
        closed 7\n";
    let Ok(reading) = read_declared(alloc, &script, text) else {
        return Err("a report that is read")?;
    };
    let Reading {
        hist,
        ending,
        declared,
    } = reading;
    assert_eq!(&rt; hist.len(), 7);
    assert_eq!(&rt; ending, Ending::Closed);
    let Some(declared) = declared else {
        return Err("a declaration")?;
    };
    assert_eq!(&rt; declared.before, 3);
    assert_eq!(&rt; declared.parked.len(), 3);
    Ok(())
}

#[test]
fn a_report_of_more_bytes_is_too_long(rt: HostRuntime) -> Result<(), Fail> {
    let alloc = rt.alloc();
    let script = generate(alloc, 0)?;
    let text = vec![in alloc; b' '; 67_108_865]?;
    assert_eq!(&rt; fault_of(alloc, &script, &text), Some(ReportFault::Long));
    assert_eq!(&rt;
        fault_of(alloc, &script, &text[1..]),
        Some(ReportFault::Head)
    );
    Ok(())
}

// How many entries a report tells, and how it ends.
fn told(alloc: Global, script: &Script, text: &[u8]) -> Result<(u64, Ending), Fail> {
    match read_report(alloc, script, text) {
        Ok((hist, ending)) => Ok((hist.len(), ending)),
        Err(_) => Err("a report that is read".into()),
    }
}

// In the ring's script of 22 rounds thread 1 withdraws once, the board comes to rest, the ring commits, and threads 1 and
// 0 take; thread 1 posts again.
#[test]
fn a_report_tells_withdrawals_rests_and_later_sites(rt: HostRuntime) -> Result<(), Fail> {
    let script = generate(rt.alloc(), 21)?;
    let text = b"tevents report 2\n\
        1 post t0 0 at 1.0\n\
        2 post t1 0 at 1.0\n\
        3 withdraw t1 0\n\
        4 rest t2\n\
        5 post t2 0 at 1.0\n\
        6 post t1 1 at 1.0\n\
        7 commit t2: t0.0[]=(2) t1.1[]=(0) t2.0[]=(1); t0>t1 t1>t2 t2>t0\n\
        8 take t1 1 =(0)\n\
        9 take t0 0 =(2)\n\
        10 post t1 2 at 2.0\n\
        spent 10 front 10 paths 7 groups 18446744073709551615\n";
    let (count, ending) = told(rt.alloc(), &script, text)?;
    let spent = Ending::Spent {
        front: 10,
        paths: 7,
        groups: u64::MAX,
    };
    assert_eq!(&rt; count, 10);
    assert_eq!(&rt; ending, spent);
    Ok(())
}
