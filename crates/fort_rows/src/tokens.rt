//! The token chapter by examples from outside: spellings, gaps, places and refusals.
use fort_base::{CheckFault, Gap, List, NameId, Place, Rule};
use fort_lex::tokens;
use fort_lex_token::{Kind, Mark, Reserved, Token, Tokens};
use fort_ops::Op;
use std::alloc::Global;
use std::process::Abort;
use std::test::Fail;

fn read(rt: &impl Abort, alloc: Global, source: &[u8]) -> Result<Tokens, CheckFault> {
    assert!(rt; source.len() <= 1_048_576);
    tokens(alloc, source)
}

fn texts(list: &List<List<u8>>, at: usize) -> &[u8] {
    match list.get(at) {
        Some(bytes) => bytes.as_slice(),
        None => &[],
    }
}

const WORDS: [(&str, Kind); 41] = [
    ("component", Kind::Word(Reserved::Component)),
    ("export", Kind::Word(Reserved::Export)),
    ("import", Kind::Word(Reserved::Import)),
    ("api", Kind::Word(Reserved::Api)),
    ("end", Kind::Word(Reserved::End)),
    ("trait", Kind::Word(Reserved::Trait)),
    ("object", Kind::Word(Reserved::Object)),
    ("extends", Kind::Word(Reserved::Extends)),
    ("excludes", Kind::Word(Reserved::Excludes)),
    ("comprises", Kind::Word(Reserved::Comprises)),
    ("opr", Kind::Word(Reserved::Opr)),
    ("self", Kind::Word(Reserved::Self_)),
    ("var", Kind::Word(Reserved::Var)),
    ("do", Kind::Word(Reserved::Do)),
    ("also", Kind::Word(Reserved::Also)),
    ("if", Kind::Word(Reserved::If)),
    ("then", Kind::Word(Reserved::Then)),
    ("elif", Kind::Word(Reserved::Elif)),
    ("else", Kind::Word(Reserved::Else)),
    ("while", Kind::Word(Reserved::While)),
    ("for", Kind::Word(Reserved::For)),
    ("seq", Kind::Word(Reserved::Seq)),
    ("case", Kind::Word(Reserved::Case)),
    ("typecase", Kind::Word(Reserved::Typecase)),
    ("of", Kind::Word(Reserved::Of)),
    ("try", Kind::Word(Reserved::Try)),
    ("catch", Kind::Word(Reserved::Catch)),
    ("finally", Kind::Word(Reserved::Finally)),
    ("throw", Kind::Word(Reserved::Throw)),
    ("fn", Kind::Word(Reserved::Fn)),
    ("atomic", Kind::Word(Reserved::Atomic)),
    ("tryatomic", Kind::Word(Reserved::Tryatomic)),
    ("spawn", Kind::Word(Reserved::Spawn)),
    ("true", Kind::Word(Reserved::True)),
    ("false", Kind::Word(Reserved::False)),
    ("array", Kind::Word(Reserved::Array)),
    ("BIG", Kind::Word(Reserved::Big)),
    ("SUM", Kind::Word(Reserved::Sum)),
    ("PROD", Kind::Word(Reserved::Prod)),
    ("∑", Kind::Word(Reserved::Sum)),
    ("∏", Kind::Word(Reserved::Prod)),
];

const OPERATORS: [(&str, Kind); 38] = [
    ("TIMES", Kind::Op(Op::Times)),
    ("×", Kind::Op(Op::Times)),
    ("DOT", Kind::Op(Op::Dot)),
    ("·", Kind::Op(Op::Dot)),
    ("DIV", Kind::Op(Op::Div)),
    ("REM", Kind::Op(Op::Rem)),
    ("MOD", Kind::Op(Op::Mod)),
    ("MAX", Kind::Op(Op::Max)),
    ("MIN", Kind::Op(Op::Min)),
    ("GCD", Kind::Op(Op::Gcd)),
    ("LCM", Kind::Op(Op::Lcm)),
    ("+", Kind::Op(Op::Plus)),
    ("-", Kind::Op(Op::Minus)),
    ("BITAND", Kind::Op(Op::BitAnd)),
    ("BITOR", Kind::Op(Op::BitOr)),
    ("BITXOR", Kind::Op(Op::BitXor)),
    ("LSHIFT", Kind::Op(Op::LShift)),
    ("RSHIFT", Kind::Op(Op::RShift)),
    (":", Kind::Op(Op::Range)),
    ("#", Kind::Op(Op::Count)),
    ("=", Kind::Op(Op::Eq)),
    ("=/=", Kind::Op(Op::Ne)),
    ("≠", Kind::Op(Op::Ne)),
    ("<", Kind::Op(Op::Lt)),
    ("<=", Kind::Op(Op::Le)),
    ("≤", Kind::Op(Op::Le)),
    (">", Kind::Op(Op::Gt)),
    (">=", Kind::Op(Op::Ge)),
    ("≥", Kind::Op(Op::Ge)),
    ("===", Kind::Op(Op::Same)),
    ("≡", Kind::Op(Op::Same)),
    ("AND", Kind::Op(Op::And)),
    ("∧", Kind::Op(Op::And)),
    ("OR", Kind::Op(Op::Or)),
    ("∨", Kind::Op(Op::Or)),
    ("NOT", Kind::Op(Op::Not)),
    ("¬", Kind::Op(Op::Not)),
    ("^", Kind::Op(Op::Power)),
];

const MARKS: [(&str, Kind); 22] = [
    ("[\\", Kind::Mark(Mark::OpenStatic)),
    ("⟦", Kind::Mark(Mark::OpenStatic)),
    ("\\]", Kind::Mark(Mark::CloseStatic)),
    ("⟧", Kind::Mark(Mark::CloseStatic)),
    ("<-", Kind::Mark(Mark::LeftArrow)),
    ("←", Kind::Mark(Mark::LeftArrow)),
    ("->", Kind::Mark(Mark::RightArrow)),
    ("→", Kind::Mark(Mark::RightArrow)),
    ("=>", Kind::Mark(Mark::DoubleArrow)),
    ("⇒", Kind::Mark(Mark::DoubleArrow)),
    (":=", Kind::Mark(Mark::Becomes)),
    ("+=", Kind::Mark(Mark::AddBecomes)),
    ("-=", Kind::Mark(Mark::SubtractBecomes)),
    ("(", Kind::Mark(Mark::OpenParen)),
    (")", Kind::Mark(Mark::CloseParen)),
    ("[", Kind::Mark(Mark::OpenBracket)),
    ("]", Kind::Mark(Mark::CloseBracket)),
    ("{", Kind::Mark(Mark::OpenBrace)),
    ("}", Kind::Mark(Mark::CloseBrace)),
    (",", Kind::Mark(Mark::Comma)),
    (";", Kind::Mark(Mark::Semicolon)),
    (".", Kind::Mark(Mark::Dot)),
];

const OTHERS: [(&str, Kind); 12] = [
    ("_x", Kind::Name(NameId(0))),
    ("élan·2", Kind::Name(NameId(0))),
    ("juxtaposition", Kind::Name(NameId(0))),
    ("AA", Kind::Name(NameId(0))),
    ("A_", Kind::Name(NameId(0))),
    ("_AB", Kind::Name(NameId(0))),
    ("AB1", Kind::Name(NameId(0))),
    ("times", Kind::Name(NameId(0))),
    ("A_B", Kind::Op(Op::Word(0))),
    ("FOO", Kind::Op(Op::Word(0))),
    ("007", Kind::Number(7)),
    (
        "9223372036854775807",
        Kind::Number(9_223_372_036_854_775_807),
    ),
];

fn are_read(rt: &impl Abort, alloc: Global, table: &[(&str, Kind)]) -> Result<(), CheckFault> {
    for (spelling, kind) in table {
        let all = read(rt, alloc, spelling.as_bytes())?;
        assert_eq!(rt; all.list.len(), 1, "{spelling}");
        assert_eq!(rt; all.list.get(0).map(|t| t.kind), Some(*kind), "{spelling}");
    }
    Ok(())
}

#[test]
fn each_spelling_is_its_token(rt: HostRuntime) -> Result<(), Fail> {
    are_read(&rt, rt.alloc(), &WORDS)?;
    are_read(&rt, rt.alloc(), &OPERATORS)?;
    are_read(&rt, rt.alloc(), &MARKS)?;
    are_read(&rt, rt.alloc(), &OTHERS)?;
    Ok(())
}

#[test]
fn tokens_have_their_gaps_and_places(rt: HostRuntime) -> Result<(), Fail> {
    let source = "\u{feff}a<-b (* x (* y\n *) (*) *) *)AB (*) z\n\"a\\n\\\"é\"a";
    let all = read(&rt, rt.alloc(), source.as_bytes())?;
    let want = [
        (Kind::Name(NameId(0)), Gap::Space, 1, 2),
        (Kind::Mark(Mark::LeftArrow), Gap::Empty, 1, 3),
        (Kind::Name(NameId(1)), Gap::Empty, 1, 5),
        (Kind::Op(Op::Word(2)), Gap::Line, 2, 14),
        (Kind::Text(0), Gap::Line, 3, 1),
        (Kind::Name(NameId(0)), Gap::Empty, 3, 9),
    ];
    assert_eq!(rt; all.list.len(), want.len());
    for i in 0..want.len() {
        let (kind, gap, line, column) = want[i];
        let place = Place { line, column };
        assert_eq!(rt;
            all.list.get(i).copied(),
            Some(Token { kind, gap, place }),
            "at {i}"
        );
    }
    assert_eq!(rt; all.names.len(), 3);
    assert_eq!(rt; texts(&all.names, 2), b"AB".as_slice());
    assert_eq!(rt; texts(&all.texts, 0), "a\n\"é".as_bytes());
    Ok(())
}

const FAULTS: [(&[u8], u16, u32, u32); 18] = [
    (b"ab\n\xc3\x28", 101, 2, 1),
    (b"\"a \xe2\x89", 101, 1, 4),
    (b"a \\ b", 102, 1, 3),
    (b"a * b", 102, 1, 3),
    (b"12x", 102, 1, 3),
    (b"2\xc2\xb73", 102, 1, 2),
    (b"a\xef\xbb\xbf", 102, 1, 2),
    (b"\"a\tb\"", 102, 1, 3),
    (b"\n (* a (* b *)", 103, 2, 2),
    (b"(* (*) *)", 103, 1, 1),
    (b"a \"b\n\"", 104, 1, 3),
    (b"\"a\\qb", 104, 1, 1),
    (b"\"\\", 104, 1, 1),
    (b"\"a\\qb\" \"", 105, 1, 3),
    (b"\"\\q\\r\"", 105, 1, 2),
    (b"9223372036854775808", 106, 1, 1),
    (b"a 9223372036854775808x", 106, 1, 3),
    (b"\xc3\xa9 \xc3\xa9 1\xc3\xa9", 102, 1, 6),
];

#[test]
fn faults_have_their_places(rt: HostRuntime) -> Result<(), Fail> {
    for (source, rule, line, column) in &FAULTS {
        let answer = read(&rt, rt.alloc(), source).err();
        let place = Place {
            line: *line,
            column: *column,
        };
        let want = CheckFault::Refused(Rule(*rule), place);
        assert_eq!(rt; answer, Some(want), "{source:?}");
    }
    Ok(())
}

#[test]
fn the_token_too_many_is_counted_before_the_earliest_fault(rt: HostRuntime) -> Result<(), Fail> {
    let mut source = Vec::new(rt.alloc());
    for _ in 0..262_144u32 {
        source.push(b'1')?;
        source.push(b' ')?;
    }
    assert_eq!(rt; read(&rt, rt.alloc(), &source)?.list.len(), 262_144);
    let place = Place {
        line: 1,
        column: 524_289,
    };
    source.push(b'"')?;
    let open = CheckFault::Refused(Rule(104), place);
    assert_eq!(rt; read(&rt, rt.alloc(), &source).err(), Some(open));
    source.pop();
    source.push(b'1')?;
    source.push(b'x')?;
    let many = CheckFault::Refused(Rule(107), place);
    assert_eq!(rt; read(&rt, rt.alloc(), &source).err(), Some(many));
    Ok(())
}
