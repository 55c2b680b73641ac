//! A board: the last assignment of an item counts.
use std::test::Fail;
use wf_worklist::Board;

#[test]
fn last_worker_has_the_item(rt: HostRuntime) -> Result<(), Fail> {
    let mut board = Board::new(rt.alloc());
    assert!(rt; board.worker_of(1) == None);
    board.assign(4, 1)?;
    board.assign(5, 1)?;
    board.assign(6, 2)?;
    assert!(rt; board.worker_of(1) == Some(5));
    assert!(rt; board.worker_of(2) == Some(6));
    Ok(())
}
