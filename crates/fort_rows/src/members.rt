//! The members of components, by examples of the chapter "Members".
use fort_base::{CheckFault, Place};
use fort_hier::hierarchy;
use fort_lex::tokens;
use fort_member::members;
use fort_syntax::component;
use fort_types_builtin::{DECLARATION_COUNT, TYPE_COUNT};
use fort_types_sets::{Field, Member, MemberKind, MemberSet, Members};
use std::alloc::Global;
use std::process::Abort;
use std::test::Fail;

/// The members of a source.
fn members_of(rt: &impl Abort, alloc: Global, source: &str) -> Result<Members, CheckFault> {
    assert!(rt; source.len() <= 1_048_576);
    let all = tokens(alloc, source.as_bytes())?;
    let tree = component(alloc, &all)?;
    let types = hierarchy(alloc, &tree.component)?;
    members(alloc, &tree.component, &types)
}

/// How a source is answered: the number of its rule and its place, or three zeros where it is
/// accepted.
fn answer(rt: &impl Abort, alloc: Global, source: &str) -> (u16, u32, u32) {
    match members_of(rt, alloc, source) {
        Err(CheckFault::Refused(rule, place)) => (rule.0, place.line, place.column),
        _ => (0, 0, 0),
    }
}

const FIELDS: [(&str, u16, u32, u32); 6] = [
    (
        "component T\nobject O(a: ZZ32)\nvar a: ZZ32 = 1\nend\nend",
        451,
        3,
        1,
    ),
    (
        "component T\ntrait A\nf: ZZ32\nend\ntrait B\nf: String\nend\ntrait C extends { A, B } end\nend",
        451,
        8,
        7,
    ),
    (
        "component T\nobject O extends A end\ntrait A\nf: ZZ32\nf: ZZ32\nend\nend",
        451,
        5,
        1,
    ),
    (
        "component T\ntrait A\nf: ZZ32\nend\ntrait B extends A end\nobject O extends B end\nend",
        452,
        6,
        8,
    ),
    (
        "component T\ntrait A\nf: ZZ32\nend\ntrait B extends A\nf: Any\nend\nend",
        452,
        5,
        7,
    ),
    (
        "component T\ntrait A\nf: (Object, ZZ32)\nend\nobject O extends A\nf: (String, ZZ32) = (\"\", 1)\nend\nend",
        0,
        0,
        0,
    ),
];

#[test]
fn a_rule_on_fields_is_broken(rt: HostRuntime) -> Result<(), Fail> {
    for (source, rule, line, column) in &FIELDS {
        assert_eq!(rt;
            answer(&rt, rt.alloc(), source),
            (*rule, *line, *column),
            "{source}"
        );
    }
    Ok(())
}

/// Traits that inherit fields from those above them; the last one declares two of its own.
const INHERITED: &str =
    "component T\ntrait D extends { B, C } end\ntrait B extends A end\ntrait C extends A end\ntrait A\nf: Any; g: Object\nend\ntrait E extends B\nh: ZZ32\nf: String\nend\nend";

/// The fields of the type of that number; the component's types are numbered behind the built-in
/// ones.
fn fields_of(all: &Members, number: usize) -> &[Field] {
    match all.fields.get(number) {
        Some(fields) => fields.as_slice(),
        None => &[],
    }
}

/// The place of a field of the type of that number, by the fields' order.
fn field_at(all: &Members, number: usize, at: usize) -> Option<Place> {
    Some(fields_of(all, number).get(at)?.place)
}

#[test]
fn a_trait_inherits_what_it_does_not_declare(rt: HostRuntime) -> Result<(), Fail> {
    let all = members_of(&rt, rt.alloc(), INHERITED)?;
    let counts: [usize; 5] = [2, 2, 2, 2, 3];
    for (at, count) in counts.iter().enumerate() {
        assert_eq!(rt;
            fields_of(&all, TYPE_COUNT.saturating_add(at)).len(),
            *count
        );
    }
    Ok(())
}

#[test]
fn declared_fields_stand_before_inherited_ones(rt: HostRuntime) -> Result<(), Fail> {
    let all = members_of(&rt, rt.alloc(), INHERITED)?;
    let rows: [(usize, u32, u32); 3] = [(0, 9, 1), (1, 10, 1), (2, 6, 9)];
    for (at, line, column) in rows {
        assert_eq!(rt; field_at(&all, 21, at), Some(Place { line, column }));
    }
    Ok(())
}

/// A component with declarations of each kind.
const DECLARED: &str =
    "component T\nlength(x: ZZ32): ZZ32 = 1\ntrait A\nm(x: ZZ32): String\nm(x: ZZ32, self): String = \"\"\nopr +(self, other: A): A = self\nend\nobject O(x: ZZ32, var y: String) extends A\nm(x: ZZ32): String = \"\"\nend\nobject P end\nobject Q() end\nvar v: (ZZ32) := 1\nm(x: Any, y: A): Any = 1\nopr ×(a: A, b: A): A = a\nend";

/// The number of parameters of a set's declarations.
fn width_of(set: &MemberSet) -> usize {
    match set.members.get(0) {
        Some(member) => member.parameters.len(),
        None => 0,
    }
}

/// The declarations of a name, kind and number of parameters, in their order.
fn declared<'a>(all: &'a Members, name: &str, dotted: bool, width: usize) -> &'a [Member] {
    for set in all.sets.as_slice() {
        if set.name.as_slice() == name.as_bytes()
            && set.dotted == dotted
            && width_of(set) == width
        {
            return set.members.as_slice();
        }
    }
    &[]
}

#[test]
fn declarations_stand_in_their_sets(rt: HostRuntime) -> Result<(), Fail> {
    let all = members_of(&rt, rt.alloc(), DECLARED)?;
    let rows: [(&str, bool, usize, usize); 12] = [
        ("length", false, 1, 2),
        ("+", false, 2, 3),
        ("m", false, 2, 2),
        ("m", true, 2, 2),
        ("O", false, 2, 1),
        ("P", false, 0, 0),
        ("Q", false, 0, 1),
        ("TIMES", false, 2, 3),
        ("juxtaposition", false, 2, 5),
        ("-", false, 1, 2),
        ("-", false, 2, 2),
        ("=", false, 2, 4),
    ];
    for (name, dotted, width, count) in rows {
        assert_eq!(rt; declared(&all, name, dotted, width).len(), count, "{name}");
    }
    Ok(())
}

/// How many built-in declarations there are.
fn built_in(all: &Members) -> usize {
    let mut count = 0usize;
    for set in all.sets.as_slice() {
        for member in set.members.as_slice() {
            if member.kind == MemberKind::BuiltIn {
                count = count.saturating_add(1);
            }
        }
    }
    count
}

#[test]
fn each_built_in_declaration_is_a_member(rt: HostRuntime) -> Result<(), Fail> {
    let all = members_of(&rt, rt.alloc(), "component T end")?;
    assert_eq!(rt; built_in(&all), DECLARATION_COUNT);
    Ok(())
}
