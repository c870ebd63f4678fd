//! Yields and canonical texts by examples from outside the code.
use fort_base::{Bytes, Gap, List, Memory, NameId, Place};
use fort_lex::tokens;
use fort_lex_canonical::shown;
use fort_lex_token::{Kind, Reserved, Token};
use fort_tree::{Component, Name, Spot};
use fort_yield::yield_of;
use std::alloc::Global;
use std::process::Abort;
use std::test::Fail;

fn shown_again(rt: &impl Abort, alloc: Global, source: &[u8]) -> Result<Bytes, Memory> {
    assert!(rt; source.len() <= 1_048_576);
    match tokens(alloc, source) {
        Ok(all) => shown(alloc, &all),
        Err(_) => Ok(List::new(alloc)),
    }
}

const SOURCE: &str = "\u{feff}component  T (* c *) export Executable\n\n
run():()=println(\"a\\n\\t\\\"\\\\é\")
  x:Array[\\ZZ32,ZZ32\\]=SUM[i<-0#007] i TIMES 2 DOT 3 DIV FOO
f(a:ZZ32->ZZ64):()=if a=/=b AND a<=b OR a>=b then fn (x:T)=>NOT x end; y:=x===z x-=1 PROD[i<-a]1 end (*) the end";

const CANONICAL: &str = "component T export Executable
run():()=println(\"a\\n\\t\\\"\\\\é\")
x:Array⟦ZZ32,ZZ32⟧=∑[i←0#7] i × 2 · 3 DIV FOO
f(a:ZZ32→ZZ64):()=if a≠b ∧ a≤b ∨ a≥b then fn (x:T)⇒¬ x end; y:=x≡z x-=1 ∏[i←a]1 end\n";

#[test]
fn what_has_a_sign_is_shown_by_it(rt: HostRuntime) -> Result<(), Fail> {
    let once = shown_again(&rt, rt.alloc(), SOURCE.as_bytes())?;
    assert_eq!(rt; once.as_slice(), CANONICAL.as_bytes());
    Ok(())
}

#[test]
fn showing_twice_is_showing_once(rt: HostRuntime) -> Result<(), Fail> {
    let twice = shown_again(&rt, rt.alloc(), CANONICAL.as_bytes())?;
    assert_eq!(rt; twice.as_slice(), CANONICAL.as_bytes());
    Ok(())
}

#[test]
fn the_smallest_component_yields_its_tokens(rt: HostRuntime) -> Result<(), Fail> {
    let alloc = rt.alloc();
    let at = |column: u32| Spot {
        gap: Gap::Space,
        place: Place { line: 1, column },
    };
    let mut names = List::new(alloc);
    names.push(List::from_slice(alloc, b"T")?)?;
    let component = Component {
        component: at(2),
        name: Name {
            id: NameId(0),
            spot: at(12),
        },
        export: None,
        declarations: List::new(alloc),
        end: at(14),
        names,
        texts: List::new(alloc),
    };
    let all = yield_of(alloc, &component)?;
    let kinds = [
        Kind::Word(Reserved::Component),
        Kind::Name(NameId(0)),
        Kind::Word(Reserved::End),
    ];
    assert_eq!(rt; all.list.len(), 3);
    for i in 0..3usize {
        assert_eq!(rt;
            all.list.get(i).map(|token: &Token| token.kind),
            Some(kinds[i])
        );
    }
    assert_eq!(rt; all.names.len(), 1);
    Ok(())
}
