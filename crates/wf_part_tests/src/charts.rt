//! The charts of the tests.

pub const TWO: &str = "chart two; unit a; unit b; event go at a;
or R at a { basic P at a; basic Q at b; }
from P to Q on go;";

pub const REG: &str = "chart reg; unit a; event e at a; event f at a;
or R at a { and A at a {
  or B at a { basic B1 at a; basic B2 at a; }
  or C at a { basic C1 at a; basic C2 at a; } } }
from B1 to B2 on e;
from B2 to C2 on f;";

pub const WRI: &str = "chart wri; unit a; unit b; event e at b; var x : int = 0;
activity job at a gives x;
or R at a { and A at a {
  or B at a { basic B1 at a; basic B2 at a; basic B3 at a; }
  or C at b { basic C1 at b; basic C2 at b; } } }
from B1 to B2 do start job;
from B2 to B3 on e do x := x + 1;
from C1 to C2 on e do x := x + 2;";

pub const ORDER: &str = "chart order; unit sales; unit credit; unit stock;
event placed at sales; event ready;
var amount : int = 0; var good : bool = false;
activity judge at credit gives good;
activity pack at stock;
or Order at sales {
  basic New at sales;
  and Work at sales {
    or Money at credit { basic Judge at credit; basic Granted at credit; basic Denied at credit; }
    or Goods at stock { basic Wait at stock; basic Pack at stock; basic Packed at stock; }
  }
  basic Shipped at sales;
  basic Lost at sales;
}
from New to Work on placed do amount := 250, start judge;
from Judge to Granted if done(judge) and good and amount < 1000 do raise ready;
from Judge to Denied if done(judge) and not (good and amount < 1000);
from Wait to Pack on ready do start pack;
from Pack to Packed if done(pack);
from Work to Shipped if in(Packed) and in(Granted);
from Work to Lost if in(Denied);";

/// Three regions, each at a unit of its own.
pub const THREE: &str = "chart three; unit a; unit b; unit c;
event e at a; event f at b; event g at c; event i;
var x : int = 9223372036854775807; var y : int = 0;
or R at a {
  and S at a {
    or A at a { basic A1 at a; basic A2 at a; }
    or B at b { basic B1 at b; basic B2 at b; }
    or C at c { basic C1 at c; basic C2 at c; }
  }
  basic T at b;
  basic U at c;
}
from A1 to A2 on e do y := 1;
from B1 to B2 on e do y := 2;
from C1 to C2 on e do y := 3;
from A1 to A2 on f do x := x + 1;
from B1 to B2 on f do x := x + y + 1;
from C1 to C2 on fault do y := 0 - 1;
from B1 to T on g;
from C1 to U on g;
from A1 to A2 on g do y := 7;
from A2 to A1 do raise i;
from B2 to B1 on i do y := y + 10;";
