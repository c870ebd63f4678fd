//! The declared types by numbers.
ghost use Rattle.std.specs.Prelude.{◌≡◌, ◌++◌, length, map, IfOk, List as Seq};
ghost use Rattle.fort_types_builtin.specs.Types.{built_in_declared};
ghost use Rattle.fort_hier.specs.Names.{Spelling};
ghost use Rattle.fort_hier.specs.Numbers.{HoldsNumbers, declared_by, extends_numbers, number};

use crate::heads::TypeHead;
use crate::numbers::Numbers;
use crate::spellings::spelled;
use fort_base::{Bytes, List, Memory};
use fort_tree::Name;
use fort_types::DeclaredType;
use fort_types_builtin::{OBJECT, declared_types};
use std::alloc::Global;

/// The declared types that heads declare, built-in ones first; the size is that of the list of
/// numbered names.
pub fn types_in(
    alloc: Global,
    names: &[Bytes],
    numbers: &Numbers,
    size: usize,
    heads: &[TypeHead],
) -> Result<List<DeclaredType>, Memory>
    ensures { IfOk result (λ types. (list : Seq Spelling) → HoldsNumbers list numbers.now
        → length list ≡ size
        → types ≡ built_in_declared ++ map (declared_by list names.now) heads.now) }
{
    let mut types = declared_types(alloc)?;
    for i in 0..heads.len() {
        types.push(declared(alloc, names, numbers, size, &heads[i])?)?;
    }
    Ok(types)
}

/// What a head declares.
fn declared(
    alloc: Global,
    names: &[Bytes],
    numbers: &Numbers,
    size: usize,
    head: &TypeHead,
) -> Result<DeclaredType, Memory>
    ensures { IfOk result (λ declared. (list : Seq Spelling) → HoldsNumbers list numbers.now
        → length list ≡ size
        → declared ≡ declared_by list names.now head.now) }
{
    let extends = extended(alloc, names, numbers, size, &head.extends)?;
    let excludes = numbered(alloc, names, numbers, size, head.excludes.as_slice())?;
    let comprises = numbered(alloc, names, numbers, size, head.comprises.as_slice())?;
    Ok(DeclaredType {
        kind: head.kind,
        extends,
        excludes,
        comprises,
    })
}

/// The numbers of an `extends`; `Object` where there is none.
fn extended(
    alloc: Global,
    names: &[Bytes],
    numbers: &Numbers,
    size: usize,
    extends: &Option<List<Name>>,
) -> Result<List<usize>, Memory>
    ensures { IfOk result (λ found. (list : Seq Spelling) → HoldsNumbers list numbers.now
        → length list ≡ size
        → found ≡ extends_numbers list names.now extends.now) }
{
    match extends {
        Some(list) => numbered(alloc, names, numbers, size, list.as_slice()),
        None => List::from_slice(alloc, &[OBJECT.0 as usize]),
    }
}

/// The numbers of names.
fn numbered(
    alloc: Global,
    names: &[Bytes],
    numbers: &Numbers,
    size: usize,
    written: &[Name],
) -> Result<List<usize>, Memory>
    ensures { IfOk result (λ found. (list : Seq Spelling) → HoldsNumbers list numbers.now
        → length list ≡ size
        → found ≡ map (number list names.now) written.now) }
{
    let mut found = List::new(alloc);
    for name in written {
        found.push(numbers.number(spelled(names, *name), size))?;
    }
    Ok(found)
}
