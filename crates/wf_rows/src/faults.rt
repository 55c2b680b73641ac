//! Ends that fail, each call of which gives or takes one byte.
use crate::inputs::{SIDES, SIDES_SCRIPT, SIDES_TEXT, SINGLE, SINGLE_SCRIPT, SINGLE_TEXT};
use crate::run::{Ends, input_of, run};
use std::test::Fail;
use wf_model::Status;

#[test]
fn reads(rt: HostRuntime) -> Result<(), Fail> {
    // The last read finds the end: the 60th, and the 266th.
    let refused = "refused read\n";
    let rows = [
        (SINGLE, SINGLE_SCRIPT, 1, Status::ReadFault, refused),
        (SINGLE, SINGLE_SCRIPT, 2, Status::ReadFault, refused),
        (SINGLE, SINGLE_SCRIPT, 60, Status::ReadFault, refused),
        (SINGLE, SINGLE_SCRIPT, 61, Status::Ok, SINGLE_TEXT),
        (SIDES, SIDES_SCRIPT, 1, Status::ReadFault, refused),
        (SIDES, SIDES_SCRIPT, 2, Status::ReadFault, refused),
        (SIDES, SIDES_SCRIPT, 266, Status::ReadFault, refused),
        (SIDES, SIDES_SCRIPT, 267, Status::Ok, SIDES_TEXT),
    ];
    for (chart, script, call, status, text) in rows {
        let ends = Ends {
            piece: 1,
            failing_reads: &[call],
            failing_writes: &[],
        };
        let input = input_of(rt.alloc(), chart, script)?;
        let outcome = run(rt.alloc(), "central", input, ends)?;
        assert_eq!(rt; outcome.status, status, "at {call}");
        assert_eq!(rt; outcome.text.as_slice(), text.as_bytes(), "at {call}");
    }
    Ok(())
}

#[test]
fn writes(rt: HostRuntime) -> Result<(), Fail> {
    // The last write is the 53rd, and the 104th.
    let single = "1: step 1 fired starts\n2: after 1 in R S vars raised";
    let sides =
        "1: ok\n2: step 1 fired t0 starts\n3: ok\n4: step 2 fired t1 starts\n5: after 2 in R A B B1 C C2 vars raised";
    let rows = [
        (SINGLE, SINGLE_SCRIPT, 1, ""),
        (SINGLE, SINGLE_SCRIPT, 2, "1"),
        (SINGLE, SINGLE_SCRIPT, 53, single),
        (SIDES, SIDES_SCRIPT, 1, ""),
        (SIDES, SIDES_SCRIPT, 2, "1"),
        (SIDES, SIDES_SCRIPT, 104, sides),
    ];
    for (chart, script, call, text) in rows {
        let ends = Ends {
            piece: 1,
            failing_reads: &[],
            failing_writes: &[call],
        };
        let input = input_of(rt.alloc(), chart, script)?;
        let outcome = run(rt.alloc(), "central", input, ends)?;
        assert_eq!(rt; outcome.status, Status::WriteFault, "at {call}");
        assert_eq!(rt; outcome.text.as_slice(), text.as_bytes(), "at {call}");
    }
    Ok(())
}
