//! Rings: what went in comes out, in order, and a full ring hands the item back.
use std::test::Fail;
use wf_exchange::{LineItem, line_ring, settle_line};
use wf_model::{EventId, Outer};

fn item(request: u64) -> LineItem {
    LineItem {
        request,
        outer: Outer::Happen(EventId(1)),
    }
}

#[test]
fn lines_come_out_in_order(rt: HostRuntime) -> Result<(), Fail> {
    let (mut end, mut mouth) = line_ring(rt.alloc())?;
    assert!(rt; end.push(item(1)).is_ok());
    assert!(rt; end.push(item(2)).is_ok());
    let first = mouth.pop();
    assert!(rt; first.is_some_and(|found| found.request == 1));
    let second = settle_line(&mut mouth, &mut end);
    assert!(rt; second.is_some_and(|found| found.request == 2));
    assert!(rt; settle_line(&mut mouth, &mut end).is_none());
    Ok(())
}
