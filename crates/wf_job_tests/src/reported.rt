//! What came of a job, and its text.
use crate::shop::shop;
use std::alloc::Global;
use std::test::Fail;
use wf_job::{ClientReply, Report, append_report};
use wf_machine::{Ending, Place, Sight};
use wf_model::{ActId, List, NoMemory, Output, StateId, UnitId, Val, VarId};

fn sight(alloc: Global, unit: u32, admitted: u64, states: &[StateId]) -> Result<Sight, NoMemory> {
    Ok(Sight {
        unit: UnitId(unit),
        taken: 7,
        admitted,
        states: List::from_slice(alloc, states)?,
        vars: List::from_slice(
            alloc,
            &[Output {
                var: VarId(0),
                val: Val::Bool(true),
            }],
        )?,
    })
}

fn ending(alloc: Global) -> Result<Ending, NoMemory> {
    let mut sights = List::new(alloc);
    sights.push(sight(alloc, 0, 3, &[StateId(0), StateId(1)])?)?;
    sights.push(sight(alloc, 1, 1, &[])?)?;
    let mut merged = List::new(alloc);
    merged.push(List::new(alloc))?;
    merged.push(List::new(alloc))?;
    merged.push(List::from_slice(
        alloc,
        &[
            Place {
                unit: UnitId(0),
                number: 1,
            },
            Place {
                unit: UnitId(1),
                number: 1,
            },
        ],
    )?)?;
    Ok(Ending {
        recovered: List::new(alloc),
        sights,
        merged,
    })
}

fn report(alloc: Global) -> Result<Report, NoMemory> {
    let mut did = List::new(alloc);
    did.push((1, List::new(alloc)))?;
    did.push((3, List::from_slice(alloc, &[(ActId(0), 1), (ActId(0), 4)])?))?;
    Ok(Report {
        replies: List::from_slice(
            alloc,
            &[
                (1, 1, ClientReply::New(2)),
                (2, 1, ClientReply::Again(1)),
                (2, 2, ClientReply::Reused(3)),
            ],
        )?,
        did,
        ending: ending(alloc)?,
    })
}

const WANTED: &str = "before
client 1 line 1 new 2
client 2 line 1 again 1
client 2 line 2 reused 3
worker 1 did
worker 3 did judge#1 judge#4
front admitted 3 after 7 in R S vars good=true
back admitted 1 after 7 in vars good=true
step 3 front:1 back:1
";

#[test]
fn text_of_a_report(rt: HostRuntime) -> Result<(), Fail> {
    let checked = shop(rt.alloc())?;
    let report = report(rt.alloc())?;
    let mut text = List::from_slice(rt.alloc(), b"before\n")?;
    append_report(rt.alloc(), &mut text, &checked, &report)?;
    assert_eq!(rt; text.as_slice(), WANTED.as_bytes());
    Ok(())
}
