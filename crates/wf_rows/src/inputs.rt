//! Charts and scripts, and what is written for them.

/// One state.
pub const SINGLE: &str = "chart m; unit a; or R at a { basic S at a; }\n";

pub const SINGLE_SCRIPT: &str = "---\nstep\nshow\n";

pub const SINGLE_TEXT: &str = "1: step 1 fired starts\n2: after 1 in R S vars raised\n";

/// Two sides, and a transition from one into the other.
pub const SIDES: &str = "# REG
chart reg; unit a; event e at a; event f at a;
or R at a { and A at a {
  or B at a { basic B1 at a; basic B2 at a; }
  or C at a { basic C1 at a; basic C2 at a; } } }
from B1 to B2 on e;
from B2 to C2 on f;
";

pub const SIDES_SCRIPT: &str = "---\nouter a event e\nstep\nouter a event f\nstep\nshow\n";

pub const SIDES_TEXT: &str =
    "1: ok\n2: step 1 fired t0 starts\n3: ok\n4: step 2 fired t1 starts\n5: after 2 in R A B B1 C C2 vars raised\n";

/// Two units.
pub const TWO: &str = "chart two; unit a; unit b; event go at a;
or R at a { basic P at a; basic Q at b; }
from P to Q on go;
";
