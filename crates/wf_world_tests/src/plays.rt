//! A play of two units, and the world after it.
ghost use Rattle.std.specs.Prelude.{◌≤◌, length, map, IfOk};
ghost use Rattle.wf_model.specs.Limits.{max_lines};
ghost use Rattle.wf_scripts.specs.Lines.{lines_of};
ghost use Rattle.wf_world.specs.Fleets.{DoWork};
ghost use Rattle.wf_world.specs.States.{DoFit, first_state};

use std::alloc::Global;
use std::test::Fail;
use wf_check::check;
use wf_drive::drive;
use wf_machine::Line;
use wf_model::{Checked, List};
use wf_play::read_play;
use wf_scripts::line_count;
use wf_text::read_chart;
use wf_world::World;

const TWO: &str = "chart two; unit a; unit b; event go at a;
or R at a { basic P at a; basic Q at b; }
from P to Q on go;";

/// Unit a admits a request and takes three steps, unit b takes two.
const PLAY: &str = "admit a 7 event go
send b a
deliver 1
turn a
send a b
deliver 3
deliver 2
turn b
turn b
send b a
deliver 4
turn a
deliver 5
turn a
";

/// The accepted chart.
pub fn chart_two(alloc: Global) -> Option<Checked> {
    let chart = read_chart(alloc, TWO.as_bytes()).ok()?;
    check(alloc, chart).ok()
}

// The world of a chart after these lines, and after its end.
fn world_after_lines(
    rt: &HostRuntime,
    checked: Checked,
    lines: &List<(u32, Line)>,
) -> Result<World, Fail>
    requires { DoFit (first_state checked) (map (λ x. x.1) lines.now) }
    ensures { IfOk result (λ world. DoWork world.slots) }
{
    let mut world = World::start(rt.alloc(), checked)?;
    let driven = drive(rt.alloc(), &mut world, lines);
    let is_played = driven.is_ok();
    drop(driven);
    if is_played {
        Ok(world)
    } else {
        drop(world);
        Err(Fail::from("the play stopped"))
    }
}

// The world of a chart after a script of few enough lines, and after its end.
fn world_after(rt: &HostRuntime, checked: Checked, script: &[u8]) -> Result<World, Fail>
    requires short { length script.now ≤ 4000 }
    requires few { length (lines_of script.now) ≤ max_lines }
    ensures { IfOk result (λ world. DoWork world.slots) }
{
    match read_play(rt.alloc(), &checked, script) {
        Ok(lines) => world_after_lines(rt, checked, &lines),
        Err(_) => Err(Fail::from("no play")),
    }
}

/// The world after the play, and after its end.
pub fn world_after_play(rt: &HostRuntime) -> Result<World, Fail>
    ensures { IfOk result (λ world. DoWork world.slots) }
{
    let script = PLAY.as_bytes();
    if script.len() > 4000 || line_count(script) > 100 {
        Err("the script is too long")?;
    }
    let checked = chart_two(rt.alloc()).ok_or("no chart")?;
    world_after(rt, checked, script)
}
