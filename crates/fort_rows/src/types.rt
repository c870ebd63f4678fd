//! That types are read where there is memory, by examples of the chapter "Grammar", and that depth
//! has a bound.
use fort_base::{Bytes, Gap, List, Memory, NameId, Place};
use fort_lex_token::{Kind, Mark, Token};
use fort_parse_reading::Cursor;
use fort_parse_types::{TypeGrammar, longest_type};
use std::alloc::Global;

const ARRAY: Kind = Kind::Name(NameId(0));

const ZZ32: Kind = Kind::Name(NameId(1));

const T: Kind = Kind::Name(NameId(2));

const OPEN: Kind = Kind::Mark(Mark::OpenParen);

const CLOSE: Kind = Kind::Mark(Mark::CloseParen);

const OPEN_STATIC: Kind = Kind::Mark(Mark::OpenStatic);

const CLOSE_STATIC: Kind = Kind::Mark(Mark::CloseStatic);

const COMMA: Kind = Kind::Mark(Mark::Comma);

const ARROW: Kind = Kind::Mark(Mark::RightArrow);

const COLON: Kind = Kind::Op(fort_ops::Op::Range);

fn names(alloc: Global) -> Result<List<Bytes>, Memory> {
    let mut names = List::new(alloc);
    names.push(List::from_slice(alloc, b"Array")?)?;
    names.push(List::from_slice(alloc, b"ZZ32")?)?;
    names.push(List::from_slice(alloc, b"T")?)?;
    Ok(names)
}

fn token(kind: Kind) -> Token {
    Token {
        kind,
        gap: Gap::Space,
        place: Place { line: 1, column: 1 },
    }
}

fn tokens(alloc: Global, kinds: &[Kind]) -> Result<List<Token>, Memory> {
    let mut tokens = List::new(alloc);
    for kind in kinds {
        tokens.push(token(*kind))?;
    }
    Ok(tokens)
}

fn count(alloc: Global, kinds: &[Kind]) -> Result<Option<usize>, Memory> {
    let names = names(alloc)?;
    let tokens = tokens(alloc, kinds)?;
    match longest_type(alloc, names.as_slice(), tokens.as_slice())? {
        Some((_ty, count)) => Ok(Some(count)),
        None => Ok(None),
    }
}

const LONGEST: [(&[Kind], Option<usize>); 9] = [
    (&[], None),
    (&[T], Some(1)),
    (&[T, ARROW, T, ARROW, T], Some(3)),
    (&[T, ARROW, CLOSE], Some(1)),
    (
        &[OPEN, CLOSE, ARROW, OPEN, T, COMMA, T, CLOSE, COMMA],
        Some(8),
    ),
    (&[OPEN, T, COMMA, CLOSE], None),
    (
        &[ARRAY, OPEN_STATIC, T, COMMA, ZZ32, CLOSE_STATIC, ARROW, T],
        Some(8),
    ),
    (&[ARRAY, OPEN_STATIC, T, COMMA, T, CLOSE_STATIC], Some(1)),
    (&[T, OPEN_STATIC, T, COMMA, ZZ32, CLOSE_STATIC], Some(1)),
];

#[test]
fn the_longest_type_is_read(rt: HostRuntime) -> Result<(), Memory> {
    for (kinds, wanted) in &LONGEST {
        assert!(rt; count(rt.alloc(), kinds)? == *wanted);
    }
    Ok(())
}

#[test]
fn parameters_are_read(rt: HostRuntime) -> Result<(), Memory> {
    let alloc = rt.alloc();
    let names = names(alloc)?;
    let tokens = tokens(alloc, &[T, COLON, T, COMMA, ZZ32, COLON, ARRAY, CLOSE])?;
    let grammar = TypeGrammar {
        alloc,
        names: names.as_slice(),
        depth: 9,
        floor: 0,
    };
    let mut cursor = Cursor::new(tokens.as_slice());
    match grammar.maybe_parameters(&mut cursor) {
        Ok(Some(list)) => assert!(rt; list.others.len() == 1),
        _ => assert!(rt; false),
    }
    assert!(rt; cursor.left() == 1);
    assert!(rt; matches!(grammar.maybe_parameters(&mut cursor), Ok(None)));
    Ok(())
}

#[test]
fn a_type_in_a_hundred_parentheses_is_read_and_one_in_a_million_is_given_up(
    rt: HostRuntime,
) -> Result<(), Memory> {
    let alloc = rt.alloc();
    let names = names(alloc)?;
    let mut tokens = List::new(alloc);
    for _ in 0..100 {
        tokens.push(token(OPEN))?;
    }
    for _ in 0..100 {
        tokens.push(token(CLOSE))?;
    }
    match longest_type(alloc, names.as_slice(), tokens.as_slice())? {
        Some((_ty, count)) => assert!(rt; count == 200),
        None => assert!(rt; false),
    }
    let mut deep = List::new(alloc);
    for _ in 0..1_000_000 {
        deep.push(token(OPEN))?;
    }
    assert!(rt; longest_type(alloc, names.as_slice(), deep.as_slice()).is_err());
    Ok(())
}
