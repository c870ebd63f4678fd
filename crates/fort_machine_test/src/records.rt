use fort_audit_record::{AuditFault, parsed, record_of};
use fort_base::{List, Loc};
use fort_core::{Ending, Journal, Path, Pick};
use std::test::Fail;

const GREETED: &str = "fortress record 1\nfuel 4\ns - 0\ns - 0\ncompleted\noutput 2\na\n";

const RAN_OUT: &str =
    "fortress record 1\nfuel 18446744073709551615\na 0.10\na -\ns 4294967295 7\nz\nz\n\
    out\na 1\ns - 0\nz\noutput 0\n";

const THREW: &str = "fortress record 1\nfuel 0\nuncaught 3 12\noutput 0\n";

#[test]
fn a_journal_and_an_output_have_a_text(rt: HostRuntime) -> Result<(), Fail> {
    let alloc = rt.alloc();
    let mut picks = List::new(alloc);
    for _ in 0..2 {
        picks
            .push(Pick::Step(Path(List::new(alloc)), Loc(0)))
            .map_err(|_| "memory")?;
    }
    let journal = Journal {
        fuel: 4,
        picks,
        ending: Ending::Completed,
    };
    let output = List::from_slice(alloc, b"a\n").map_err(|_| "memory")?;
    let text = record_of(alloc, &journal, &output).map_err(|_| "memory")?;
    assert_eq!(rt; text.as_slice(), GREETED.as_bytes());
    Ok(())
}

#[test]
fn what_is_read_is_written_again(rt: HostRuntime) -> Result<(), Fail> {
    let alloc = rt.alloc();
    for wanted in [GREETED, RAN_OUT, THREW] {
        let record = parsed(alloc, wanted.as_bytes()).map_err(|_| "no record")?;
        let text = record_of(alloc, &record.journal, &record.output).map_err(|_| "memory")?;
        assert_eq!(rt; text.as_slice(), wanted.as_bytes());
    }
    Ok(())
}

#[test]
fn no_record_is_refused_at_its_first_wrong_byte(rt: HostRuntime) -> Result<(), Fail> {
    let alloc = rt.alloc();
    for (text, at) in [
        ("", 0),
        ("fortress record 2\n", 16),
        ("fortress record 1\nfuel 04\n", 24),
        ("fortress record 1\nfuel 18446744073709551616\n", 42),
        ("fortress record 1\nfuel 4\nz\n", 25),
        ("fortress record 1\nfuel 4\ns - 0\n", 31),
        ("fortress record 1\nfuel 4\ncompleted\noutput 0\na", 44),
    ] {
        match parsed(alloc, text.as_bytes()) {
            Err(AuditFault::Form(found)) => assert_eq!(rt; found, at),
            _ => return Err("no fault of form".into()),
        }
    }
    Ok(())
}
