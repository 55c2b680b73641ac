//! What is to be seen in each run.
use crate::charts::{ORDER, REG, THREE, TWO, WRI};
use crate::tries::{Wanted, check_run};
use std::test::Fail;

const REG_TOLD: &str = "a 1 outer e
a 2 flips B1 B2 fired t0 outer f
a 3 flips B1 B2 C1 C2 fired t1
";

const ORDER_TOLD: &str = "sales 1 outer placed
> credit: sales 1 outer placed
> stock: sales 1 outer placed
credit 1
> sales: credit 1
> stock: credit 1
stock 1
> sales: stock 1
> credit: stock 1
sales 2 flips New Work writes amount=250@t0 starts judge@t0.1 fired t0
> credit: sales 2 flips New Work writes amount=250@t0 starts judge@t0.1
> stock: sales 2 flips New Work
credit 2 flips Money Judge outer judge#1 good=true
> sales: credit 2
> stock: credit 2
stock 2 flips Goods Wait
> sales: stock 2
> credit: stock 2
sales 3
> credit: sales 3
> stock: sales 3
credit 3 flips Judge Granted raised ready fired t1
> sales: credit 3 flips Granted
> stock: credit 3 flips Granted raised ready
stock 3
> sales: stock 3
> credit: stock 3
sales 4
> credit: sales 4
> stock: sales 4
credit 4
> sales: credit 4
> stock: credit 4
stock 4 flips Wait Pack starts pack@t3.0 fired t3 outer pack#1
> sales: stock 4
> credit: stock 4
sales 5
> credit: sales 5
> stock: sales 5
credit 5
> sales: credit 5
> stock: credit 5
stock 5 flips Pack Packed fired t4
> sales: stock 5 flips Packed
> credit: stock 5 flips Packed
sales 6 flips Work Shipped fired t5
> credit: sales 6 flips Work
> stock: sales 6 flips Work
credit 6 flips Money Granted
> sales: credit 6 flips Granted
> stock: credit 6 flips Granted
stock 6 flips Goods Packed
> sales: stock 6 flips Packed
> credit: stock 6 flips Packed
";

// The chart, its script, and what is to be seen in its run.
const RUNS: [(&str, &str, Wanted); 10] = [
    // three units write one variable; an event that one peer alone knows
    (
        THREE,
        "step\nouter a event e\nstep\nstep\nstep\nstep",
        Wanted::Central(
            "1 x=9223372036854775807 y=0
2 fired t0 t1 t2 x=9223372036854775807 y=3
3 fired t9 raised i x=9223372036854775807 y=3
4 fired t10 x=9223372036854775807 y=13
5 x=9223372036854775807 y=13
",
        ),
    ),
    // two units raise a fault
    (
        THREE,
        "step\nouter b event f\nstep\nstep\nstep",
        Wanted::Central(
            "1 x=9223372036854775807 y=0
2 fired t3 t4 raised fault x=9223372036854775807 y=0
3 fired t5 t9 raised i x=9223372036854775807 y=-1
4 fired t10 x=9223372036854775807 y=9
",
        ),
    ),
    // two units leave one state, and a third moves in it
    (
        THREE,
        "step\nouter c event g\nstep\nouter a event e\nstep",
        Wanted::Central(
            "1 x=9223372036854775807 y=0
2 fired t6 x=9223372036854775807 y=0
3 x=9223372036854775807 y=0
",
        ),
    ),
    // the same, where each could move by another event
    (
        THREE,
        "step\nouter a event e\nouter c event g\nstep\nstep",
        Wanted::Central(
            "1 x=9223372036854775807 y=0
2 fired t6 x=9223372036854775807 y=0
3 x=9223372036854775807 y=0
",
        ),
    ),
    // an item is completed in the step after its start
    (
        WRI,
        "step\nouter a done job 1 gives x = 9\nouter b event e\nstep\nstep",
        Wanted::Central(
            "1 fired t0 starts job#1 x=0
2 fired t1 t2 x=11
3 x=11
",
        ),
    ),
    (
        ORDER,
        "step\nouter sales event placed\nstep\nouter credit done judge 1 gives good = true\nstep\nstep\nouter stock done pack 1\nstep\nstep",
        Wanted::Central(
            "1 amount=0 good=false
2 fired t0 starts judge#1 amount=250 good=false
3 fired t1 raised ready amount=250 good=true
4 fired t3 starts pack#1 amount=250 good=true
5 fired t4 amount=250 good=true
6 fired t5 amount=250 good=true
",
        ),
    ),
    (
        TWO,
        "step\nouter a event go\nstep\nouter a event go\nstep",
        Wanted::Central(
            "1
2 fired t0
3
",
        ),
    ),
    (
        REG,
        "step\nouter a event e\nstep\nouter a event f\nstep",
        Wanted::Told(REG_TOLD),
    ),
    (
        ORDER,
        "step\nouter sales event placed\nstep\nouter credit done judge 1 gives good = true\nstep\nstep\nouter stock done pack 1\nstep\nstep",
        Wanted::Told(ORDER_TOLD),
    ),
    (
        WRI,
        "step\nouter a done job 1 gives x = 9\nouter b event e\nstep",
        Wanted::View,
    ),
];

#[test]
fn runs_of_charts(rt: HostRuntime) -> Result<(), Fail> {
    for (chart, script, wanted) in RUNS {
        check_run(&rt, rt.alloc(), chart, script, wanted)?;
    }
    Ok(())
}
