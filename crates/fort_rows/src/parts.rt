//! The longest expression and type at a token, by examples of the chapter "Grammar".
use fort_base::CheckFault;
use fort_lex::tokens;
use fort_parse_longest::{expr_at, type_at};
use std::alloc::Global;
use std::process::Abort;
use std::test::Fail;

/// The number of the token behind the longest expression at a token of a source.
fn behind_expr(
    rt: &impl Abort,
    alloc: Global,
    source: &str,
    at: usize,
) -> Result<usize, CheckFault> {
    assert!(rt; source.len() <= 1_048_576);
    let all = tokens(alloc, source.as_bytes())?;
    assert!(rt; at <= all.list.len());
    let (_expr, behind) = expr_at(alloc, &all, at)?;
    Ok(behind)
}

/// The number of the token behind the longest type at a token of a source.
fn behind_type(
    rt: &impl Abort,
    alloc: Global,
    source: &str,
    at: usize,
) -> Result<usize, CheckFault> {
    assert!(rt; source.len() <= 1_048_576);
    let all = tokens(alloc, source.as_bytes())?;
    assert!(rt; at <= all.list.len());
    let (_ty, behind) = type_at(alloc, &all, at)?;
    Ok(behind)
}

#[test]
fn an_expression_goes_as_far_as_it_can(rt: HostRuntime) -> Result<(), Fail> {
    let rows: [(&str, usize, usize); 9] = [
        ("do a; b end", 0, 5),
        ("a + )", 0, 1),
        ("f(a, b) c := atomic d e", 0, 11),
        ("f(a, b) c := atomic )", 0, 7),
        ("(a + ) b", 1, 2),
        ("(a\n+ b) c", 0, 6),
        ("(a\n+ b) c", 1, 2),
        ("a = if b then c", 0, 1),
        ("x := 1 := 2", 0, 3),
    ];
    for (source, at, behind) in rows {
        assert_eq!(rt;
            behind_expr(&rt, rt.alloc(), source, at),
            Ok(behind),
            "{source}"
        );
    }
    Ok(())
}

#[test]
fn a_type_goes_as_far_as_it_can(rt: HostRuntime) -> Result<(), Fail> {
    let rows: [(&str, usize, usize); 5] = [
        ("A -> B -> C", 0, 3),
        ("A -> )", 0, 1),
        ("x: (A, B) -> Array[\\C, ZZ32\\] = 1", 2, 14),
        ("Array[\\C, D\\]", 0, 1),
        ("A\n-> B", 0, 3),
    ];
    for (source, at, behind) in rows {
        assert_eq!(rt;
            behind_type(&rt, rt.alloc(), source, at),
            Ok(behind),
            "{source}"
        );
    }
    Ok(())
}

/// The number of the rule that is broken and its place, or three zeros.
fn broken(answer: Result<usize, CheckFault>) -> (u16, u32, u32) {
    match answer {
        Err(CheckFault::Refused(rule, place)) => (rule.0, place.line, place.column),
        _ => (0, 0, 0),
    }
}

const DEEP: &str =
    "a ((((((((((((((((((((((((((((((((((((((((((((((((((((((((((((((((((((((((((((((((((((((((((((((((((((( 1";

const BROKEN_EXPRESSIONS: [(&str, usize, u16, u32, u32); 5] = [
    ("a\n if b then", 1, 201, 2, 2),
    ("a\n b c", 3, 201, 2, 4),
    ("", 0, 201, 1, 1),
    ("do a;; b end", 0, 201, 1, 1),
    (DEEP, 0, 202, 1, 105),
];

#[test]
fn no_expression_is_201_at_the_token_and_depth_is_202(rt: HostRuntime) -> Result<(), Fail> {
    for (source, at, rule, line, column) in &BROKEN_EXPRESSIONS {
        let answer = broken(behind_expr(&rt, rt.alloc(), source, *at));
        assert_eq!(rt; answer, (*rule, *line, *column), "{source}");
    }
    Ok(())
}

const BROKEN_TYPES: [(&str, usize, u16, u32, u32); 3] = [
    ("a: (A, ) B", 2, 201, 1, 4),
    ("a\n B", 2, 201, 2, 2),
    (DEEP, 1, 202, 1, 105),
];

#[test]
fn no_type_is_201_at_the_token_and_depth_is_202(rt: HostRuntime) -> Result<(), Fail> {
    for (source, at, rule, line, column) in &BROKEN_TYPES {
        let answer = broken(behind_type(&rt, rt.alloc(), source, *at));
        assert_eq!(rt; answer, (*rule, *line, *column), "{source}");
    }
    Ok(())
}
