// Lines that are refused, and the cause of each; and lines that no command answers yet.
use script_text::{Command, LINE_LIMIT, LineFault, LineRefusal, read_line};
use std::alloc::Global;
use std::test::Fail;

fn refusal(alloc: Global, line: &[u8]) -> Option<LineRefusal> {
    match read_line(alloc, line) {
        Err(LineFault::Refused(refusal)) => Some(refusal),
        _ => None,
    }
}

const REFUSED: [(&str, LineRefusal); 19] = [
    ("frobnicate", LineRefusal::NotALine),
    ("Dirty", LineRefusal::NotALine),
    ("by ann delete 0", LineRefusal::NotALine),
    ("by ann delete 4294967296", LineRefusal::NotALine),
    ("by undo", LineRefusal::NotALine),
    ("droprule 65536", LineRefusal::NotALine),
    ("rule polygon_contains_point lots", LineRefusal::NotALine),
    ("rule point_must_be_disjoint a b", LineRefusal::NotALine),
    ("mark 1 0 0", LineRefusal::NotALine),
    ("validate 1 2 3 +4", LineRefusal::NotALine),
    ("validate 9999999 x 0 0", LineRefusal::NotALine),
    ("validate 5 0 4 0", LineRefusal::Reversed),
    ("validate 5 0 4 4194305", LineRefusal::OutOfReach { at: 3 }),
    (
        "by ann add lots POINT(10.5 0)",
        LineRefusal::OffGrid { at: 6 },
    ),
    (
        "by ann add lots POINT(0 4194305)",
        LineRefusal::OutOfReach { at: 8 },
    ),
    (
        "by ann change 2  POINT Z (1 2 3)",
        LineRefusal::Unsupported { at: 6 },
    ),
    (
        "by ann add lots POLYGON((0 0,10 0,10 10))",
        LineRefusal::NotClosed { ring: 0 },
    ),
    ("by ann add lots POINT(1)", LineRefusal::NotALine),
    ("by ann change 0 POINT (1.5 0)", LineRefusal::NotALine),
];

#[test]
fn lines_are_refused_for_their_first_fault(rt: HostRuntime) {
    for (line, expected) in REFUSED {
        assert_eq!(rt;
            refusal(rt.alloc(), line.as_bytes()),
            Some(expected),
            "at {line}"
        );
    }
}

#[test]
fn a_long_remark_is_too_long(rt: HostRuntime) -> Result<(), Fail> {
    let alloc = rt.alloc();
    let line = vec![in alloc; b'#'; LINE_LIMIT + 1]?;
    assert_eq!(rt; refusal(alloc, &line), Some(LineRefusal::TooLong));
    assert!(rt; matches!(read_line(alloc, &line[1..]), Ok(Command::Blank)));
    Ok(())
}

#[test]
fn marks_and_steps_are_read(rt: HostRuntime) {
    let alloc = rt.alloc();
    assert!(rt;
        matches!(
            read_line(alloc, b"mark 65535 7 0"),
            Ok(Command::Mark(65_535, 7, None))
        )
    );
    assert!(rt;
        matches!(
            read_line(alloc, b"unmark 1 7 8"),
            Ok(Command::Unmark(1, 7, Some(handle))) if handle.get() == 8
        )
    );
    assert!(rt; matches!(read_line(alloc, b"by ann redo"), Ok(Command::Redo(_))));
    assert!(rt;
        matches!(
            read_line(alloc, b"by ann change 2 POINT (3 4) "),
            Ok(Command::Change(_, 2, _))
        )
    );
}
