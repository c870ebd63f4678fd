use super::*;
use fort_port::{CalmSink, IdleGate};
use std::alloc::AllocError;
use std::test::*;

#[test]
fn the_first_letters_come_out(rt: HostRuntime) -> Result<(), Fail> {
    let alloc = rt.alloc();
    let machine = Counters {
        alloc,
        tasks: 40,
        times: 300,
        tries: false,
        lost: None,
        gate: IdleGate,
    };
    let mut out = CalmSink::new(alloc, 100_000, 5).map_err(|_| AllocError)?;
    let settled = printed(&rt, alloc, &machine, 3, &mut out).map_err(|_| AllocError)?;
    let written = out.bytes();
    assert!(rt; !settled.progress.failed);
    assert_eq!(rt; settled.progress.bytes, written.len() as u64);
    assert!(rt; written.len() <= settled.book.legs.len());
    for i in 0..written.len().min(settled.book.legs.len()) {
        assert_eq!(rt; u64::from(written[i]), 48 + settled.book.legs[i].to % 10);
    }
    Ok(())
}
