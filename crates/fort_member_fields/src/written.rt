//! The types that are written.
ghost use Rattle.std.specs.Prelude.{◌≡◌, ◌++◌, length, map, option_map, IfOk, OnOk, List as Seq};
ghost use Rattle.std.specs.Str.{bytes_eq};
ghost use Rattle.fort_types_builtin.specs.Types.{any_spelling};
ghost use Rattle.fort_hier.specs.Names.{Spelling, spelling};
ghost use Rattle.fort_hier.specs.Numbers.{HoldsNumbers};
ghost use Rattle.fort_member_fields.specs.Written.{named, parts, written, written_simple, written_next, written_list};

use fort_base::{Boxed, Bytes, List, Memory, Ty, TypeId};
use fort_hier::{Numbers, spelled};
use fort_tree::{Name, NextType, SimpleType, TypeList, TypeTree};
use fort_types_builtin::ANY;
use std::alloc::Global;

/// The type that a tree writes; the size is that of the list of numbered names.
#[cycle(written)]
pub fn written_type(
    alloc: Global,
    names: &[Bytes],
    numbers: &Numbers,
    size: usize,
    tree: &TypeTree,
) -> Result<Ty, Memory>
    ensures { IfOk result (λ ty. (list : Seq Spelling) → HoldsNumbers list numbers.now
        → length list ≡ size
        → ty ≡ written list names.now tree.now) }
{
    match tree {
        TypeTree::Simple(simple) => {
            let ty = simple_type(alloc, names, numbers, size, simple)?;
            Ok(ty)
        }
        TypeTree::Arrow(domain, _, result) => {
            let from = simple_type(alloc, names, numbers, size, domain)?;
            let to = simple_type(alloc, names, numbers, size, result)?;
            Ok(Ty::Arrow(Boxed::new(alloc, from)?, Boxed::new(alloc, to)?))
        }
    }
}

#[cycle(written)]
fn simple_type(
    alloc: Global,
    names: &[Bytes],
    numbers: &Numbers,
    size: usize,
    simple: &SimpleType,
) -> Result<Ty, Memory>
    ensures { IfOk result (λ ty. (list : Seq Spelling) → HoldsNumbers list numbers.now
        → length list ≡ size
        → ty ≡ written_simple list names.now simple.now) }
{
    match simple {
        SimpleType::Named(name) => {
            let ty = named_type(names, numbers, size, *name)?;
            Ok(ty)
        }
        SimpleType::Array { element, .. } => {
            let inner = written_type(alloc, names, numbers, size, element.get())?;
            Ok(Ty::Array(Boxed::new(alloc, inner)?))
        }
        SimpleType::Parts { parts, .. } => {
            let ty = maybe_parts(alloc, names, numbers, size, parts)?;
            Ok(ty)
        }
    }
}

/// The types between parentheses.
#[cycle(written)]
fn maybe_parts(
    alloc: Global,
    names: &[Bytes],
    numbers: &Numbers,
    size: usize,
    types: &Option<TypeList>,
) -> Result<Ty, Memory>
    ensures { IfOk result (λ ty. (list : Seq Spelling) → HoldsNumbers list numbers.now
        → length list ≡ size
        → ty ≡ parts (option_map (written_list list names.now) types.now)) }
{
    match types {
        Some(list) => {
            let first = written_type(alloc, names, numbers, size, list.first.get())?;
            if list.others.is_empty() {
                return Ok(first);
            }
            let mut all = List::new(alloc);
            all.push(first)?;
            add_next_types(
                alloc,
                names,
                numbers,
                size,
                list.others.as_slice(),
                &mut all,
            )?;
            Ok(Ty::Tuple(all))
        }
        None => Ok(Ty::Tuple(List::new(alloc))),
    }
}

/// Adds the further types of a list.
#[cycle(written)]
fn add_next_types(
    alloc: Global,
    names: &[Bytes],
    numbers: &Numbers,
    size: usize,
    others: &[NextType],
    types: &mut List<Ty>,
) -> Result<(), Memory>
    ensures { OnOk result ((list : Seq Spelling) → HoldsNumbers list numbers.now
        → length list ≡ size
        → types.new ≡ types.old ++ map (written_next list names.now) others.now) }
{
    for next in others {
        types.push(written_type(alloc, names, numbers, size, &next.ty)?)?;
    }
    Ok(())
}

/// The type that a name names; want of memory where its number is none of 32 bits.
fn named_type(names: &[Bytes], numbers: &Numbers, size: usize, name: Name) -> Result<Ty, Memory>
    ensures { IfOk result (λ ty. (list : Seq Spelling) → HoldsNumbers list numbers.now
        → length list ≡ size
        → ty ≡ named list (spelling names.now name)) }
{
    let written = spelled(names, name);
    if is_any(written) {
        return Ok(Ty::Any);
    }
    Ok(Ty::Named(type_id(numbers.number(written, size))?))
}

/// Whether a spelling is that of `Any`.
#[tactic(auto, unfolding(fort_types_builtin::specs::Types::any_spelling))]
fn is_any(spelling: &[u8]) -> bool
    ensures { result ≡ bytes_eq spelling.now any_spelling }
{
    spelling == ANY
}

/// A type's number, or want of memory where it is none of 32 bits.
pub fn type_id(number: usize) -> Result<TypeId, Memory>
    ensures { IfOk result (λ id. id ≡ record { 0 = number }) }
{
    if number > u32::MAX as usize {
        return Err(Memory);
    }
    Ok(TypeId(number as u32))
}
