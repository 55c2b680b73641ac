//! Two seats draw the numbers below two, and a spent seat is told so.
use std::test::Fail;
use wf_claims::Claims;
use wf_model::List;

#[test]
fn each_number_is_drawn_once(rt: HostRuntime) -> Result<(), Fail> {
    let alloc = rt.alloc();
    let (claims, seats) = Claims::new(alloc, 1, 1)?;
    let mut seats = seats.into_vec();
    if let Some(mut seat) = seats.pop() {
        assert!(rt; claims.claim(&mut seat) == Some(0));
        assert!(rt; claims.claim(&mut seat) == None);
        let mut back = List::new(alloc);
        back.push(seat)?;
        assert!(rt; claims.end(back) == 2);
    }
    Ok(())
}
