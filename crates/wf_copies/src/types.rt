//! Copies and comparisons of the types that every crate speaks of.
use std::alloc::Global;
use std::test::Fail;
use wf_model::{
    ActId, Duplicate, Entry, EventId, List, Name, NoMemory, Outer, Output, Same, StartAt, StateId,
    TransId, Txt, UnitId, UnitSet, Update, Val, VarId, Write,
};
use wf_text::read_chart;

/// A chart with all kinds of parts.
const ALL: &str =
    "chart m; unit a; event e at a; event i; var t : bool = false; var w : text = \"h\";
activity job at a gives t; or R at a { and A at a { or B at a { basic B1 at a; } } basic D at a; }
from B1 to D on e if not (in(B1) and count(job) < - 1) do t := done(job), raise i, start job;";

/// Whether the copy of a value is the same.
fn is_copied<T: Duplicate + Same>(alloc: Global, value: &T) -> Result<bool, NoMemory> {
    Ok(value.copy(alloc)?.is_same(value))
}

fn list_of_one<T: Drop>(alloc: Global, item: T) -> Result<List<T>, NoMemory> {
    let mut items = List::new(alloc);
    items.push(item)?;
    Ok(items)
}

fn completion(alloc: Global) -> Result<Outer, NoMemory> {
    let mut word = Txt::new();
    word.push(b'w');
    Ok(Outer::Complete {
        item: 1,
        act: ActId(0),
        outputs: list_of_one(
            alloc,
            Output {
                var: VarId(0),
                val: Val::Text(word),
            },
        )?,
    })
}

fn update(alloc: Global) -> Result<Update, NoMemory> {
    let write = Write {
        var: VarId(0),
        trans: TransId(1),
        val: Val::Int(-7),
    };
    let start = StartAt {
        act: ActId(0),
        trans: TransId(1),
        place: 2,
    };
    Ok(Update {
        from: UnitId(0),
        step: 1,
        flips: list_of_one(alloc, StateId(3))?,
        writes: list_of_one(alloc, write)?,
        raised: list_of_one(alloc, EventId(0))?,
        starts: list_of_one(alloc, start)?,
        fired: list_of_one(alloc, TransId(1))?,
        outer: list_of_one(alloc, completion(alloc)?)?,
    })
}

#[test]
fn charts(rt: HostRuntime) -> Result<(), Fail> {
    let alloc = rt.alloc();
    let chart = read_chart(alloc, ALL.as_bytes()).ok().ok_or("no chart")?;
    assert!(rt; is_copied(alloc, &chart)?);
    let mut other = chart.copy(alloc)?;
    other.name = Name::new(alloc, b"other")?;
    assert!(rt; !other.is_same(&chart));
    Ok(())
}

#[test]
fn updates(rt: HostRuntime) -> Result<(), Fail> {
    let alloc = rt.alloc();
    assert!(rt; is_copied(alloc, &update(alloc)?)?);
    let entry = Entry {
        unit: UnitId(1),
        outer: completion(alloc)?,
    };
    assert!(rt; is_copied(alloc, &entry)?);
    assert!(rt; UnitSet(2).is_same(&UnitSet(2)));
    Ok(())
}
