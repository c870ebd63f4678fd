//! The top call with its words and files, over shelves and outputs that fail, and over real ones.
use fort_base::{Bytes, List, Loc};
use fort_core::{Ending, Pick};
use fort_port::{
    CalmShelf, CalmSink, FileShelf, IdleGate, MemoryShelf, MemorySink, Shelf, Sink, StreamSink,
};
use fort_run::{Finish, fortress};
use std::alloc::{AllocError, Global};
use std::fs::{self, OpenOptions};
use std::io::{self, Write};
use std::process::Abort;
use std::sync::Wait;
use std::test::Fail;
use std::thread::Threads;

const GREETING: &str =
    "component T\nexport Executable\nrun(): () = println(\"Hello, World!\")\nend\n";

const USAGE: &str = "usage: fortress check FILE | show FILE \
    | run FILE [--workers N] [--fuel N] | bench N \
    | record FILE [--workers N] [--fuel N] | audit FILE RECORD \
    | link FILE... [--workers N] [--fuel N]\n";

/// The record of a run of `LETTER` with a fuel of 4.
const RECORD: &str = "fortress record 1\nfuel 4\ns - 0\ns - 0\ncompleted\noutput 2\na\n";

// An inner attempt that fails gives back what is older than itself.
const NESTED: &str = "component T
object Oops(n: ZZ32) extends Exception
  var seen: ZZ32 := 0
end
run(): () = do
  var x: ZZ32 := 0
  atomic do
    x := 1
    try
      atomic do
        x := 5
      also do
        o: Oops = Oops(7)
        o.seen := 6
        throw o
      end
    catch e
      Oops => println(e.seen)
    end
    println(x)
  end
  println(x)
end
end";

fn bytes(alloc: Global, text: &[u8]) -> Result<Bytes, AllocError> {
    Ok(List::from_vec(Vec::from_slice(alloc, text)?))
}

/// A shelf's files: one of the name `T.fss`.
fn one_file(alloc: Global, file: &[u8]) -> Result<List<(Bytes, Bytes)>, AllocError> {
    let mut files = Vec::new(alloc);
    files.push((bytes(alloc, b"T.fss")?, bytes(alloc, file)?))?;
    Ok(List::from_vec(files))
}

fn texts(alloc: Global, words: &[&str]) -> Result<Vec<String>, AllocError> {
    let mut all = Vec::new(alloc);
    for word in words {
        all.push(String::from_str(alloc, word)?)?;
    }
    Ok(all)
}

/// The file with a text behind it over and over, up to so many bytes in all.
fn padded(alloc: Global, file: &str, more: &str, len: usize) -> Result<Vec<u8>, AllocError> {
    let mut all = Vec::from_slice(alloc, file.as_bytes())?;
    for _ in 0..len {
        if all.len() < len {
            all.extend_from_slice(more.as_bytes())?;
        }
    }
    Ok(all)
}

/// Runs the words over a shelf of one file that gives `most` bytes a call, compares all that comes
/// out, and answers how the call ended.
fn expect_finish<R: Threads + Wait + Sync + Abort + AllocGlobal>(
    rt: &R,
    words: &[&str],
    file: &[u8],
    most: u64,
    status: u8,
    out: &str,
    note: &str,
) -> Result<Finish, Fail> {
    let alloc = rt.alloc();
    let mut shelf = CalmShelf::new(one_file(alloc, file)?, most.max(1));
    let mut printed = CalmSink::new(alloc, 1000, 3).map_err(|_| AllocError)?;
    let mut notes = CalmSink::new(alloc, 1000, 1000).map_err(|_| AllocError)?;
    let finish = fortress(
        rt,
        alloc,
        &texts(alloc, words)?,
        &mut shelf,
        &mut printed,
        &mut notes,
        &IdleGate,
    );
    assert_eq!(rt; finish.status, status, "{words:?}");
    assert_eq!(rt; printed.bytes(), out.as_bytes(), "{words:?}");
    assert_eq!(rt; notes.bytes(), note.as_bytes(), "{words:?}");
    Ok(finish)
}

/// The same, of which only what comes out is compared.
fn expect<R: Threads + Wait + Sync + Abort + AllocGlobal>(
    rt: &R,
    words: &[&str],
    file: &[u8],
    most: u64,
    status: u8,
    out: &str,
    note: &str,
) -> Result<(), Fail> {
    expect_finish(rt, words, file, most, status, out, note)?;
    Ok(())
}

/// Whether a pick is a step of the root thread that makes no location.
fn is_root_step(pick: &Pick) -> bool {
    match pick {
        Pick::Step(path, loc) => path.0.is_empty() && *loc == Loc(0),
        Pick::Attempt(_, _) => false,
    }
}

const LETTER: &[u8] = b"component T export Executable run(): () = println(\"a\") end";

#[test]
fn a_run_costs_what_its_steps_cost(rt: HostRuntime) -> Result<(), Fail> {
    let short = ["run", "T.fss", "--fuel", "3"];
    let some = expect_finish(&rt, &short, LETTER, 100, 6, "", "out of fuel\n")?;
    assert_eq!(rt; some.journal.fuel, 3);
    assert_eq!(rt; some.journal.picks.len(), 1);
    for pick in some.journal.picks.as_slice() {
        assert!(rt; is_root_step(pick));
    }
    assert!(rt; matches!(&some.journal.ending, Ending::OutOfFuel(pick) if is_root_step(pick)));
    let enough = ["run", "T.fss", "--fuel", "4"];
    let all = expect_finish(&rt, &enough, LETTER, 100, 0, "a\n", "")?;
    assert_eq!(rt; all.journal.fuel, 4);
    assert_eq!(rt; all.journal.picks.len(), 2);
    for pick in all.journal.picks.as_slice() {
        assert!(rt; is_root_step(pick));
    }
    assert!(rt; matches!(all.journal.ending, Ending::Completed));
    let usual = expect_finish(&rt, &["run", "T.fss"], LETTER, 100, 0, "a\n", "")?;
    assert_eq!(rt; usual.journal.fuel, 2_000_000);
    let refused = expect_finish(
        &rt,
        &enough,
        b"",
        100,
        1,
        "",
        "T.fss:1:1: rule 201 Syntax\n",
    )?;
    assert!(rt; refused.journal.picks.is_empty());
    assert!(rt; matches!(refused.journal.ending, Ending::NotRun));
    Ok(())
}

/// Audits a record of `LETTER`, and compares all that comes out.
fn expect_audit<R: Threads + Wait + Sync + Abort + AllocGlobal>(
    rt: &R,
    record: &str,
    status: u8,
    out: &str,
    note: &str,
) -> Result<(), Fail> {
    let alloc = rt.alloc();
    let mut files = Vec::new(alloc);
    files.push((bytes(alloc, b"T.fss")?, bytes(alloc, LETTER)?))?;
    files.push((bytes(alloc, b"R")?, bytes(alloc, record.as_bytes())?))?;
    let mut shelf = CalmShelf::new(List::from_vec(files), 10);
    let mut printed = CalmSink::new(alloc, 1000, 3).map_err(|_| AllocError)?;
    let mut notes = CalmSink::new(alloc, 1000, 1000).map_err(|_| AllocError)?;
    let finish = fortress(
        rt,
        alloc,
        &texts(alloc, &["audit", "T.fss", "R"])?,
        &mut shelf,
        &mut printed,
        &mut notes,
        &IdleGate,
    );
    assert_eq!(rt; finish.status, status, "{record}");
    assert_eq!(rt; printed.bytes(), out.as_bytes(), "{record}");
    assert_eq!(rt; notes.bytes(), note.as_bytes(), "{record}");
    assert!(rt; matches!(finish.journal.ending, Ending::NotRun));
    Ok(())
}

#[test]
fn a_run_is_recorded_and_its_record_audited(rt: HostRuntime) -> Result<(), Fail> {
    let words = ["record", "T.fss", "--fuel", "4"];
    let kept = expect_finish(&rt, &words, LETTER, 100, 0, RECORD, "")?;
    assert_eq!(rt; kept.journal.picks.len(), 2);
    expect_audit(&rt, RECORD, 0, "a\n", "")?;
    let rows = [
        ("", "record refused: form at byte 0\n"),
        (
            "fortress record 1\nfuel 4\ns - 0\ncompleted\noutput 2\na\n",
            "record refused: pick 1\n",
        ),
        (
            "fortress record 1\nfuel 4\ns - 0\ns - 0\ncompleted\noutput 2\nb\n",
            "record refused: output at byte 0\n",
        ),
    ];
    for (record, note) in rows {
        expect_audit(&rt, record, 9, "", note)?;
    }
    Ok(())
}

#[test]
fn each_command_answers(rt: HostRuntime) -> Result<(), Fail> {
    let overflow = "component T run(): () = println(2147483647 + 1) end";
    let rows: [(&[&str], &str, u8, &str, &str); 7] = [
        (&["run", "T.fss"], GREETING, 0, "Hello, World!\n", ""),
        (&["run", "T.fss"], NESTED, 0, "6\n1\n1\n", ""),
        (
            &["run", "T.fss"],
            overflow,
            5,
            "",
            "uncaught exception IntegerOverflow\n",
        ),
        (&["check", "T.fss"], overflow, 0, "accepted\n", ""),
        (
            &["show", "T.fss"],
            "component A (* c *) run( ):()=println \"x\"  end",
            0,
            "component A run( ):()=println \"x\" end\n",
            "",
        ),
        (&["bench", "7"], "", 0, "total 700\n", ""),
        (&["run", "T.fss", "--workers"], "", 2, "", USAGE),
    ];
    for (words, file, status, out, note) in rows {
        expect(&rt, words, file.as_bytes(), 100, status, out, note)?;
    }
    Ok(())
}

#[test]
fn a_file_may_have_as_many_bytes_as_the_limit(rt: HostRuntime) -> Result<(), Fail> {
    let run = ["run", "T.fss"];
    let whole = padded(rt.alloc(), GREETING, " ", 1_048_576)?;
    expect(&rt, &run, &whole, 100_000, 0, "Hello, World!\n", "")?;
    let longer = padded(rt.alloc(), GREETING, " ", 1_048_577)?;
    expect(&rt, &run, &longer, 100_000, 8, "", "file too large\n")
}

/// Links two files of the names `a` and `b`, and compares all that comes out.
fn expect_link<R: Threads + Wait + Sync + Abort + AllocGlobal>(
    rt: &R,
    a: &[u8],
    b: &[u8],
    status: u8,
    out: &str,
    note: &str,
) -> Result<(), Fail> {
    let alloc = rt.alloc();
    let mut files = Vec::new(alloc);
    files.push((bytes(alloc, b"a")?, bytes(alloc, a)?))?;
    files.push((bytes(alloc, b"b")?, bytes(alloc, b)?))?;
    let mut shelf = CalmShelf::new(List::from_vec(files), 100_000);
    let mut printed = CalmSink::new(alloc, 1000, 3).map_err(|_| AllocError)?;
    let mut notes = CalmSink::new(alloc, 1000, 1000).map_err(|_| AllocError)?;
    let finish = fortress(
        rt,
        alloc,
        &texts(alloc, &["link", "a", "b"])?,
        &mut shelf,
        &mut printed,
        &mut notes,
        &IdleGate,
    );
    assert_eq!(rt; finish.status, status);
    assert_eq!(rt; printed.bytes(), out.as_bytes());
    assert_eq!(rt; notes.bytes(), note.as_bytes());
    Ok(())
}

#[test]
fn files_are_linked_and_run(rt: HostRuntime) -> Result<(), Fail> {
    let main = b"component A\nexport Executable\nrun(): () = println(1 + 2)\nend\n";
    let other = b"component B\nend\n";
    expect_link(&rt, main, other, 0, "3\n", "")?;
    expect_link(&rt, main, main, 1, "", "b:1:11: rule 701 DuplicateUnit\n")?;
    let long = padded(rt.alloc(), "component B\nend\n", " ", 1_048_576)?;
    expect_link(&rt, main, &long, 8, "", "file too large\n")
}

#[test]
fn a_read_that_fails_ends_the_call(rt: HostRuntime) -> Result<(), Fail> {
    let alloc = rt.alloc();
    let words = texts(alloc, &["run", "T.fss"])?;
    for call in [1, 2, 3] {
        let mut shelf = MemoryShelf::new(
            one_file(alloc, GREETING.as_bytes())?,
            50,
            List::from_vec(vec![in alloc; call]?),
        );
        let mut out = CalmSink::new(alloc, 100, 100).map_err(|_| AllocError)?;
        let mut notes = CalmSink::new(alloc, 100, 100).map_err(|_| AllocError)?;
        let finish = fortress(
            &rt, alloc, &words, &mut shelf, &mut out, &mut notes, &IdleGate,
        );
        assert_eq!(rt; finish.status, 3);
        assert_eq!(rt; out.bytes(), b"".as_slice());
        assert_eq!(rt; notes.bytes(), b"read fault\n".as_slice());
        assert_eq!(rt; shelf.calls, call);
    }
    Ok(())
}

#[test]
fn a_write_that_fails_is_told_and_not_tried_again(rt: HostRuntime) -> Result<(), Fail> {
    let alloc = rt.alloc();
    let file = b"component T\nexport Executable\nrun(): () = println(\"abcdef\")\nend\n";
    let words = texts(alloc, &["run", "T.fss"])?;
    for (room, most, fails, wanted, calls) in [
        (100, 3, 2, "abc", 2),
        (5, 3, 9, "abcde", 3),
        (100, 3, 1, "", 1),
    ] {
        let mut shelf = CalmShelf::new(one_file(alloc, file)?, 100);
        let mut out = MemorySink::new(
            alloc,
            room,
            most,
            List::from_vec(vec![in alloc; fails]?),
        ).map_err(|_| AllocError)?;
        let mut notes = CalmSink::new(alloc, 100, 1).map_err(|_| AllocError)?;
        let finish = fortress(
            &rt, alloc, &words, &mut shelf, &mut out, &mut notes, &IdleGate,
        );
        assert_eq!(rt; finish.status, 4);
        assert_eq!(rt; out.bytes(), wanted.as_bytes());
        assert_eq!(rt; out.calls(), calls);
        assert_eq!(rt; notes.bytes(), b"write fault\n".as_slice());
    }
    let mut shelf = CalmShelf::new(one_file(alloc, b"")?, 100);
    let mut out = CalmSink::new(alloc, 100, 100).map_err(|_| AllocError)?;
    let mut notes = CalmSink::new(alloc, 7, 100).map_err(|_| AllocError)?;
    let finish = fortress(
        &rt, alloc, &words, &mut shelf, &mut out, &mut notes, &IdleGate,
    );
    assert_eq!(rt; finish.status, 4);
    assert_eq!(rt; notes.bytes(), b"T.fss:1".as_slice());
    Ok(())
}

/// What stands before the letters in a component that prints one text.
const BEFORE: &str = "component T export Executable run(): () = print(\"";

/// What stands behind them.
const BEHIND: &str = "\") end";

#[test]
fn a_long_text_is_written_in_pieces(rt: HostRuntime) -> Result<(), Fail> {
    let alloc = rt.alloc();
    let mut file = padded(alloc, BEFORE, "a", 70_049)?;
    file.extend_from_slice(BEHIND.as_bytes())?;
    for (workers, fails, status, wanted, calls) in [
        ("1", 5, 4, 28, 5),
        ("1", 0, 0, 70_000, 10_000),
        ("4", 5, 4, 28, 5),
        ("4", 0, 0, 70_000, 10_000),
    ] {
        let words = texts(alloc, &["run", "T.fss", "--workers", workers])?;
        let mut shelf = CalmShelf::new(one_file(alloc, &file)?, 100_000);
        let mut out = MemorySink::new(
            alloc,
            100_000,
            7,
            List::from_vec(vec![in alloc; fails]?),
        ).map_err(|_| AllocError)?;
        let mut notes = CalmSink::new(alloc, 100, 100).map_err(|_| AllocError)?;
        let finish = fortress(
            &rt, alloc, &words, &mut shelf, &mut out, &mut notes, &IdleGate,
        );
        assert_eq!(rt; finish.status, status);
        assert_eq!(rt; out.bytes().len(), wanted);
        assert_eq!(rt; out.calls(), calls);
    }
    Ok(())
}

#[test]
fn a_real_file_is_read_and_what_is_none_is_a_fault(rt: HostRuntime) -> Result<(), Fail> {
    let alloc = rt.alloc();
    fs::write(&rt, "three.txt", "abc")?;
    let mut shelf = FileShelf::new(&rt);
    let mut piece = [0u8; 2];
    let name = bytes(alloc, b"three.txt")?;
    for (at, wanted) in [(0, "ab"), (2, "c"), (3, ""), (9, "")] {
        let count = shelf.read_at(&name, at, &mut piece).map_err(|_| "fault")?;
        assert_eq!(rt; &piece[..count], wanted.as_bytes());
    }
    let others: [&[u8]; 4] = [b"no such file", b".", b"", b"\xff\xfe"];
    for other in others {
        assert!(rt; shelf.read_at(&bytes(alloc, other)?, 0, &mut piece).is_err());
    }
    Ok(())
}

/// An output that takes nothing.
#[derive(Drop)]
struct Stuck;

impl Write for Stuck {
    fn write(&mut self, _bytes: &[u8]) -> io::Result<usize> {
        Ok(0)
    }

    fn flush(&mut self) -> io::Result<()> {
        Ok(())
    }
}

#[test]
fn a_real_output_takes_bytes_and_a_full_one_is_a_fault(rt: HostRuntime) -> Result<(), Fail> {
    let mut file = StreamSink::new(fs::create(&rt, "written.txt")?);
    assert_eq!(rt; file.write(b"abc").map_err(|_| "fault")?, 3);
    assert_eq!(rt; fs::read_to_string(&rt, "written.txt")?.as_str(), "abc");
    let full = OpenOptions::new().write(true).open(&rt, "/dev/full")?;
    assert!(rt; StreamSink::new(full).write(b"abc").is_err());
    assert!(rt; StreamSink::new(Stuck).write(b"abc").is_err());
    Ok(())
}
