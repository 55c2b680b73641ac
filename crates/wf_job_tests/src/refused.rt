//! Scripts, and the line of each that is refused.
use crate::shop::job_of;
use std::alloc::Global;
use std::test::Fail;
use wf_model::{Bytes, List};
use wf_scripts::ScriptFault;

// The line that is refused, if one is.
fn refused_line(alloc: Global, script: &[u8]) -> Result<Option<u32>, Fail> {
    match job_of(alloc, script)? {
        Ok(_job) => Ok(None),
        Err(ScriptFault::Refused { line }) => Ok(Some(line)),
        Err(ScriptFault::NoMemory) => Err(Fail::from("memory ran out")),
    }
}

#[test]
fn goals(rt: HostRuntime) -> Result<(), Fail> {
    let rows = [
        ("goal 1", None),
        ("\n# nothing\ngoal 1000\n", None),
        ("", Some(1)),
        ("\n\n", Some(3)),
        ("goal 0\n", Some(1)),
        ("goal 1001\n", Some(1)),
        ("goal 1\n\ngoal 1\n", Some(3)),
        ("goal 1\ngoal 1\n$\n", Some(2)),
        ("$\ngoal 1\ngoal 1\n", Some(1)),
        ("goal\n", Some(1)),
        ("goal 1 2\n", Some(1)),
    ];
    for (script, wanted) in rows {
        assert!(rt; refused_line(rt.alloc(), script.as_bytes())? == wanted);
    }
    Ok(())
}

#[test]
fn clients(rt: HostRuntime) -> Result<(), Fail> {
    let rows = [
        (
            "client 1 at front event placed\nclient 16 at back event fetched\nclient 1 at front event placed\ngoal 1",
            None,
        ),
        ("client 0 at front event placed\ngoal 1", Some(1)),
        ("client 17 at front event placed\ngoal 1", Some(1)),
        ("client 1 at front event fetched\ngoal 1", Some(1)),
        ("client 1 at front event ready\ngoal 1", Some(1)),
        ("client 1 at front event fault\ngoal 1", Some(1)),
        ("client 1 at front event placed now\ngoal 1", Some(1)),
        ("client 1 in front event placed\ngoal 1", Some(1)),
        (
            "client 1 at front event placed\nclient 1 at back event fetched\ngoal 1",
            Some(2),
        ),
    ];
    for (script, wanted) in rows {
        assert!(rt; refused_line(rt.alloc(), script.as_bytes())? == wanted);
    }
    Ok(())
}

#[test]
fn workers(rt: HostRuntime) -> Result<(), Fail> {
    let rows = [
        (
            "worker 1 at back does judge gives good = true, price = - 2\nworker 16 at front does pack\ngoal 1",
            None,
        ),
        (
            "worker 1 at front does judge gives good = true, price = 2\ngoal 1",
            Some(1),
        ),
        ("worker 1 at back does judge\ngoal 1", Some(1)),
        (
            "worker 1 at back does judge gives good = true\ngoal 1",
            Some(1),
        ),
        (
            "worker 1 at back does judge gives price = 2, good = true\ngoal 1",
            Some(1),
        ),
        (
            "worker 1 at back does judge gives good = 1, price = 2\ngoal 1",
            Some(1),
        ),
        (
            "worker 1 at front does pack gives good = true\ngoal 1",
            Some(1),
        ),
        ("worker 17 at front does pack\ngoal 1", Some(1)),
        (
            "worker 1 at front does pack\nworker 1 at front does pack\ngoal 1",
            Some(2),
        ),
    ];
    for (script, wanted) in rows {
        assert!(rt; refused_line(rt.alloc(), script.as_bytes())? == wanted);
    }
    Ok(())
}

// A script of so many lines of a client, and a goal.
fn crowded(alloc: Global, lines: u32) -> Result<Bytes, Fail> {
    let mut script = List::new(alloc);
    for _line in 0..lines {
        script.append(b"client 1 at front event placed\n")?;
    }
    script.append(b"goal 1\n")?;
    Ok(script)
}

#[test]
fn too_many_lines_of_clients(rt: HostRuntime) -> Result<(), Fail> {
    for (lines, wanted) in [(1000, None), (1001, Some(1001))] {
        let script = crowded(rt.alloc(), lines)?;
        assert!(rt; refused_line(rt.alloc(), script.as_slice())? == wanted);
    }
    Ok(())
}
