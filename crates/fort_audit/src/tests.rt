use crate::{Why, note};
use std::test::Fail;

#[test]
fn a_refused_record_is_told_with_the_place(rt: HostRuntime) -> Result<(), Fail> {
    for (why, wanted) in [
        (Why::Form(0), "record refused: form at byte 0\n"),
        (Why::Pick(1), "record refused: pick 1\n"),
        (
            Why::Output(18_446_744_073_709_551_615),
            "record refused: output at byte 18446744073709551615\n",
        ),
    ] {
        let told = note(rt.alloc(), why).map_err(|_| "memory")?;
        assert_eq!(rt; told.as_slice(), wanted.as_bytes());
    }
    Ok(())
}
