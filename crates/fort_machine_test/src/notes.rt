use fort_base::rules::{MIXED_SPACING, UNKNOWN_NAME};
use fort_base::{List, Place};
use fort_diag::{fixed, refused};
use std::test::Fail;

#[test]
fn a_refusal_names_the_file_the_place_and_the_rule(rt: HostRuntime) -> Result<(), Fail> {
    let alloc = rt.alloc();
    let place = Place {
        line: 12,
        column: 4_000_000_000,
    };
    for (rule, wanted) in [
        (MIXED_SPACING, "a:b:12:4000000000: rule 301 MixedSpacing\n"),
        (UNKNOWN_NAME, "a:b:12:4000000000: rule 601 UnknownName\n"),
    ] {
        let file = List::from_slice(alloc, b"a:b").map_err(|_| "memory")?;
        let note = refused(file, rule, place).map_err(|_| "memory")?;
        assert_eq!(rt; note.as_slice(), wanted.as_bytes());
    }
    Ok(())
}

#[test]
fn some_statuses_have_one_note(rt: HostRuntime) -> Result<(), Fail> {
    for status in [0, 1, 5, 9, 255] {
        assert_eq!(rt; fixed(status), "");
    }
    assert_eq!(rt; fixed(8), "file too large\n");
    Ok(())
}
