//! Charts, and what a server is made of. Each function answers none if something is refused.
ghost use Rattle.std.specs.Prelude.{◌≡◌, IfSome};
ghost use Rattle.wf_parts.specs.Parts.{part_of};

use std::alloc::Global;
use wf_check::check;
use wf_disk::{Disk, MemDisk};
use wf_model::{Checked, UnitId};
use wf_ortho::orthogonalise;
use wf_partition::part_of;
use wf_parts::Part;
use wf_text::read_chart;

/// One unit, with a state.
pub const ONE: &str = "chart m; unit a; or R at a { basic S at a; }";

/// Two units, of which the first has an event.
pub const TWO: &str = "chart two; unit a; unit b; event go at a;
or R at a { basic P at a; basic Q at b; }
from P to Q on go;";

/// One unit, whose second step starts an activity.
pub const JOBS: &str =
    "chart jobs; unit a; event go at a; var n : int = 0; activity job at a gives n;
or R at a { basic X at a; basic Y at a; }
from X to Y do start job;
from Y to X on go;";

/// Unit a knows of unit b a state, a variable, an event and an activity.
pub const TALK: &str = "chart talk; unit a; unit b; unit c;
event go at b; event own at a;
var n : int = 0;
activity job at a gives n;
activity far at b gives n;
or R at a { and A at a {
  or X at a { basic X1 at a; basic X2 at a; }
  or Y at b { basic Y1 at b; basic Y2 at b; }
  or Z at c { basic Z1 at c; basic Z2 at c; }
} }
from X1 to X2 do start job;
from X2 to X1 on go if in(Y2) and in(Z2) and n > 5 and done(far);
from Y1 to Y2 on go do n := 1, start far;
from Z1 to Z2 on own;";

/// The accepted chart that a text means.
pub fn checked_of(alloc: Global, text: &str) -> Option<Checked> {
    let text = text.as_bytes();
    if text.len() > 4000 {
        return None;
    }
    let chart = read_chart(alloc, text).ok()?;
    check(alloc, chart).ok()
}

/// The part of a unit.
pub fn part_in(alloc: Global, checked: &Checked, unit: u32) -> Option<Part>
    ensures { IfSome result (λ part. part ≡ part_of checked.now unit) }
{
    if unit as usize >= checked.chart().units.len() {
        return None;
    }
    match orthogonalise(alloc, checked) {
        Ok(flat) => part_of(alloc, checked, &flat, UnitId(unit)).ok(),
        Err(_) => None,
    }
}

/// A disk with these bytes, if memory suffices, and room for some writes.
pub fn disk_with(alloc: Global, image: &[u8]) -> MemDisk {
    let mut disk = MemDisk::new(alloc);
    let _ = disk.reserve(2000, 40);
    let _ = disk.write_at(0, image);
    disk
}

/// The bytes of a disk.
pub fn bytes_of(alloc: Global, disk: &mut MemDisk) -> Option<Vec<u8>> {
    let size = disk.size().ok()?;
    let mut bytes = vec![in alloc; 0u8; size as usize].ok()?;
    disk.read_at(0, &mut bytes).ok()?;
    Some(bytes)
}
