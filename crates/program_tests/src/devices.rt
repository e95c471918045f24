//! Files that fail, and a standard output that does.

use crate::driver::{Given, assert_ends, status_of};
use crate::dumps::OLD_EXAMPLE;
use scarce::dumps::EXAMPLE;
use std::process::Abort;
use std::sync::Wait;
use std::test::Fail;
use std::thread::Threads;

const DUMPED: &str = "\
OPEN d;
1 BEGIN READ ONLY DEFERRABLE;
1 POLL;
1 DUMP 1 1 out;
1 COMMIT;
";

// A script whose file takes only a beginning of the dump: the replies before it stay.
#[test]
fn a_dump_to_a_full_file(rt: HostRuntime) -> Result<(), Fail> {
    let whole = EXAMPLE.as_bytes();
    for most in [0, 1, 9, 60, 200, 253] {
        let given = Given {
            files: &[("d", OLD_EXAMPLE.as_bytes())],
            room: &whole[..whole.len().min(most)],
            ..Given::of("run -", DUMPED)
        };
        let replies = "1 BEGIN\n1 SAFE 0\n";
        assert_ends(&rt, given, (3, replies, "device: out\n"))?;
    }
    Ok(())
}

// Asserts that the program ends by the failure of a standard output that takes `most` bytes.
fn assert_closed<R: Abort + AllocGlobal + Sync + Threads + Wait>(
    rt: &R,
    given: Given<'_>,
    most: usize,
) -> Result<(), Fail> {
    let mut room = [0u8; 16];
    let mut out: &mut [u8] = &mut room[..most.min(16)];
    let mut err = Vec::new(rt.alloc());
    let (status, _writes) = status_of(rt, given, &mut out, &mut err)?;
    assert_eq!(rt; status, 3);
    assert!(rt; err.as_slice() == b"device: -\n".as_slice());
    Ok(())
}

#[test]
fn standard_output_fails(rt: HostRuntime) -> Result<(), Fail> {
    let script = "1 BEGIN;\n1 COMMIT;\n1 COMMIT;\n";
    for most in [0, 8, 16] {
        assert_closed(&rt, Given::of("run -", script), most)?;
        assert_closed(&rt, Given::of("audit -", script), most)?;
        assert_closed(&rt, Given::of("--help", ""), most)?;
    }
    let restored = Given {
        room: b"-- dump 2\n-- end\n",
        ..Given::of("restore - --out out", "-- dump 1\n-- end\n")
    };
    assert_closed(&rt, restored, 5)
}

// A dump to a file for which there is no memory is refused, and the session goes on.
const SCARCE: &str = "\
1 BEGIN READ ONLY DEFERRABLE;
1 POLL;
1 DUMP 1 1 scarce;
1 COMMIT;
";

#[test]
fn files_without_memory(rt: HostRuntime) -> Result<(), Fail> {
    for (words, input, want) in [
        (
            "run -",
            SCARCE,
            (0, "1 BEGIN\n1 SAFE 0\n1 ERROR 53200\n1 COMMIT\n", ""),
        ),
        (
            "run - --free",
            SCARCE,
            (
                0,
                "1 BEGIN\n1 SAFE 0\n1 ERROR 53200\n1 COMMIT\ncheck yes\n",
                "",
            ),
        ),
        ("run -", "OPEN scarce;\n", (1, "", "dump line 0: 53200\n")),
        ("run scarce", "", (1, "", "script line 0\n")),
        ("audit scarce", "", (1, "", "script line 0\n")),
        (
            "restore scarce --out o",
            "",
            (1, "", "dump line 0: 53200\n"),
        ),
        (
            "restore - --out scarce",
            OLD_EXAMPLE,
            (1, "", "dump line 0: 53200\n"),
        ),
    ] {
        assert_ends(&rt, Given::of(words, input), want)?;
    }
    Ok(())
}
