//! A script, and all that its job has.
use crate::shop::job_of;
use std::test::Fail;
use wf_model::{List, Output, Val, VarId};

const SCRIPT: &str = "worker 3 at back does judge gives good = true, price = - 2
client 2 at back event fetched
client 1 at front event placed # this one comes first
goal 400
client 2 at back event fetched
";

#[test]
fn job_of_a_script(rt: HostRuntime) -> Result<(), Fail> {
    let Ok(job) = job_of(rt.alloc(), SCRIPT.as_bytes())? else {
        return Err(Fail::from("the script was refused"));
    };
    assert!(rt; job.goal == 400);
    let lines = [(2, 1, 2), (1, 0, 1), (2, 1, 2)];
    assert!(rt; job.clients.len() == 3);
    for (line, (client, unit, event)) in job.clients.iter().zip(lines) {
        assert!(rt; line.client == client);
        assert!(rt; line.unit.0 == unit);
        assert!(rt; line.event.0 == event);
    }
    assert!(rt; job.workers.len() == 1);
    let wanted = List::from_slice(
        rt.alloc(),
        &[
            Output {
                var: VarId(0),
                val: Val::Bool(true),
            },
            Output {
                var: VarId(1),
                val: Val::Int(-2),
            },
        ],
    )?;
    for worker in job.workers.as_slice() {
        assert!(rt; worker.worker == 3);
        assert!(rt; worker.unit.0 == 1);
        assert!(rt; worker.act.0 == 0);
        assert!(rt; worker.outputs == wanted);
    }
    Ok(())
}
