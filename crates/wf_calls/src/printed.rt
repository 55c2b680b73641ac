//! The canonical texts of charts, each of which is read back as it is printed.
ghost use Rattle.std.specs.Prelude.{◌≤◌, length};
ghost use Rattle.wf_model.specs.Limits.{max_input};

use std::alloc::Global;
use std::test::Fail;
use wf_check::check;
use wf_model::Bytes;
use wf_print::print_chart;
use wf_text::read_chart;

/// The canonical text of the chart that the text means.
fn canonical_text(alloc: Global, text: &[u8]) -> Result<Bytes, Fail>
    requires { length text.now ≤ max_input }
{
    let chart = read_chart(alloc, text).ok().ok_or("no chart")?;
    let checked = check(alloc, chart).ok().ok_or("not accepted")?;
    Ok(print_chart(alloc, &checked)?)
}

const SINGLE: &str = "chart m; unit a; or R at a { basic S at a; }";

const FIVE_LINES: &str = "chart m;\nunit a;\nor R at a {\n  basic S at a;\n}\n";

/// A chart with all kinds of parts, as it is printed.
const CANONICAL: &str = "chart m;
unit a;
unit b;
event e at a;
event i;
var t : bool = false;
var n : int = - 5;
var w : text = \"h\";
activity job at a gives n, t;
activity rest at b;
or R at a {
  and A at a {
    or B at a {
      basic B1 at a;
      basic B2 at a;
    }
    basic C at b;
  }
  basic D at a;
}
from B1 to B2 on e if (((((((- n) + 7) - 7) * 7) / 7) % 7) < 7) do t := (in(B1) and done(job)), raise i, start rest;
from B2 to D if (not ((n <= 7) or (n > 7))) do n := count(rest);
from A to D on fault if ((n >= 7) = (w != \"x\"));
";

#[test]
fn canonical_texts_are_printed(rt: HostRuntime) -> Result<(), Fail> {
    let rows = [(SINGLE, FIVE_LINES), (CANONICAL, CANONICAL)];
    for (text, wanted) in rows {
        let found = canonical_text(rt.alloc(), text.as_bytes())?;
        assert_eq!(rt; found.as_slice(), wanted.as_bytes());
    }
    Ok(())
}
