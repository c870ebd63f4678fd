use super::*;
use std::test::*;

#[test]
fn two_passes_write_a_hundred_lines_each(rt: HostRuntime) -> Result<(), Fail> {
    let Some(book) = two_writers(&rt, rt.alloc(), 100) else {
        panic!(rt; "no memory")
    };
    assert_eq!(rt; book.lines.len(), 200);
    Ok(())
}

#[test]
fn the_owner_takes_the_last_job_and_a_thief_the_first(rt: HostRuntime) -> Result<(), Fail> {
    let Some(row) = worked_row(rt.alloc()) else {
        panic!(rt; "no memory")
    };
    assert_eq!(rt; (row.owned.task.0, row.stolen.task.0), (3, 1));
    let Some(left) = row.left else {
        panic!(rt; "nothing is left")
    };
    assert_eq!(rt; left.task.0, 2);
    assert!(rt; row.end.is_none());
    Ok(())
}

#[test]
fn each_job_comes_out_once(rt: HostRuntime) -> Result<(), Fail> {
    let Some(sums) = share(&rt, rt.alloc(), 10_000, 10_000) else {
        panic!(rt; "no memory")
    };
    assert_eq!(rt; sums.put, 10_000);
    Ok(())
}

#[test]
fn eight_workers_count_to_a_thousand(rt: HostRuntime) -> Result<(), Fail> {
    let mut states = [Counter {
        worker: 0,
        count: 0,
    }; 8];
    begin(&mut states);
    let mut rounds = Rounds { seen: 0 };
    count_up(&rt, &mut states, &mut rounds);
    for i in 0..8u32 {
        assert_eq!(rt;
            (states[i as usize].worker, states[i as usize].count),
            (i, 1000)
        );
    }
    assert_eq!(rt; rounds.seen, 1001);
    Ok(())
}
