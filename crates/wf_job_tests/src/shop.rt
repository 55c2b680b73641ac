//! A chart of two units.
use std::alloc::Global;
use std::test::Fail;
use wf_check::check;
use wf_job::{HostJob, read_host};
use wf_model::Checked;
use wf_model::limits::MAX_INPUT;
use wf_scripts::ScriptFault;
use wf_text::read_chart;

const SHOP: &str = "chart shop; unit front; unit back;
event placed at front; event fetched at back; event ready;
var good : bool = false; var price : int = 0;
activity judge at back gives good, price; activity pack at front;
or R at front { basic S at front; }";

/// The chart.
pub fn shop(alloc: Global) -> Result<Checked, Fail> {
    let chart = read_chart(alloc, SHOP.as_bytes()).ok().ok_or("no chart")?;
    Ok(check(alloc, chart).ok().ok_or("not accepted")?)
}

/// The job that a script of it says.
pub fn job_of(alloc: Global, script: &[u8]) -> Result<Result<HostJob, ScriptFault>, Fail> {
    if script.len() > MAX_INPUT {
        Err("the script is too long")?;
    }
    let checked = shop(alloc)?;
    Ok(read_host(alloc, &checked, script))
}
