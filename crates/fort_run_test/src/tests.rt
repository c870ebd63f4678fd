use crate::Meeting;
use fort_base::{Bytes, List};
use fort_port::{CalmShelf, CalmSink};
use fort_run::fortress;
use std::alloc::{AllocError, AllocGlobal, Global};
use std::process::Abort;
use std::sync::Wait;
use std::test::Fail;
use std::thread::Threads;

/// Two blocks side by side, at the root and inside an attempt, each far longer than the first legs
/// of a hall.
const BLOCKS: &str = "component T
export Executable
run(): () = do
  var x: ZZ32 := 0
  var y: ZZ32 := 0
  do
    while x < 10000 do x := x + 1 end
  also do
    while y < 20000 do y := y + 2 end
  end
  println(x + y)
end
end
";

const INSIDE: &str = "component T
export Executable
run(): () = do
  var x: ZZ32 := 0
  var y: ZZ32 := 0
  atomic do
    do
      while x < 10000 do x := x + 1 end
    also do
      while y < 20000 do y := y + 2 end
    end
  end
  println(x + y)
end
end
";

/// Runs a file with two workers past a gate at which the parts of a form below so many attempts
/// meet.
fn expect_meeting<R: Threads + Wait + Sync + Abort + AllocGlobal>(
    rt: &R,
    file: &str,
    depth: u32,
) -> Result<(), Fail> {
    let alloc = rt.alloc();
    let gate = Meeting::new(alloc, depth).map_err(|_| AllocError)?;
    let mut files = List::new(alloc);
    let name: Bytes = List::from_slice(alloc, b"T.fss").map_err(|_| AllocError)?;
    let text: Bytes = List::from_slice(alloc, file.as_bytes()).map_err(|_| AllocError)?;
    files.push((name, text)).map_err(|_| AllocError)?;
    let mut words = Vec::new(alloc);
    for word in ["run", "T.fss", "--workers", "2"] {
        words.push(String::from_str(alloc, word)?)?;
    }
    let mut shelf = CalmShelf::new(files, 1000);
    let mut out = CalmSink::new(alloc, 100, 100).map_err(|_| AllocError)?;
    let mut notes = CalmSink::new(alloc, 100, 100).map_err(|_| AllocError)?;
    let finish = fortress(rt, alloc, &words, &mut shelf, &mut out, &mut notes, &gate);
    assert_eq!(rt; notes.bytes(), b"".as_slice());
    assert_eq!(rt; finish.status, 0);
    assert_eq!(rt; out.bytes(), b"30000\n".as_slice());
    assert!(rt; gate.have_met());
    Ok(())
}

#[test]
fn two_blocks_begin_before_either_goes_on(rt: HostRuntime) -> Result<(), Fail> {
    expect_meeting(&rt, BLOCKS, 0)
}

#[test]
fn so_do_two_blocks_inside_an_attempt(rt: HostRuntime) -> Result<(), Fail> {
    expect_meeting(&rt, INSIDE, 1)
}
