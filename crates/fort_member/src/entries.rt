//! The declarations that stand in overload sets.
ghost use Rattle.std.specs.Prelude.{◌≡◌, ◌++◌, length, IfOk, OnOk, List as Seq};
ghost use Rattle.std.specs.List.{flat_map};
ghost use Rattle.fort_hier.specs.Names.{Spelling};
ghost use Rattle.fort_hier.specs.Numbers.{HoldsNumbers};
ghost use Rattle.fort_member.specs.BuiltIn.{built_in_entries};
ghost use Rattle.fort_member.specs.Declarations.{entries_at, declared_entries};

use crate::built_in::built_in;
use crate::functions::{add_constructor, add_function};
use crate::methods::{add_object_methods, add_trait_methods};
use fort_base::{Bytes, List, Memory};
use fort_hier::{Numbers, spelled};
use fort_member_fields::type_id;
use fort_tree::{Declaration, Declared};
use fort_types_sets::Member;
use std::alloc::Global;

/// A declaration with what its set has in common beside the number of parameters.
#[derive(Drop)]
pub struct Entry {
    pub name: Bytes,
    pub dotted: bool,
    pub member: Member,
}

/// All declarations that stand in overload sets, built-in ones first and then the component's in
/// source order; the size is that of the list of numbered names.
pub fn entries_in(
    alloc: Global,
    names: &[Bytes],
    numbers: &Numbers,
    size: usize,
    declarations: &[Declared],
) -> Result<List<Entry>, Memory>
    ensures { IfOk result (λ entries. (list : Seq Spelling) → HoldsNumbers list numbers.now
        → length list ≡ size
        → entries
        ≡ built_in_entries ++ flat_map (declared_entries list names.now) declarations.now) }
{
    let mut entries = built_in(alloc)?;
    for declared in declarations {
        add_entries(
            alloc,
            names,
            numbers,
            size,
            &declared.declaration,
            &mut entries,
        )?;
    }
    Ok(entries)
}

/// Adds what a declaration declares.
fn add_entries(
    alloc: Global,
    names: &[Bytes],
    numbers: &Numbers,
    size: usize,
    declaration: &Declaration,
    entries: &mut List<Entry>,
) -> Result<(), Memory>
    ensures { OnOk result ((list : Seq Spelling) → HoldsNumbers list numbers.now
        → length list ≡ size
        → entries.new ≡ entries.old ++ entries_at list names.now declaration.now) }
{
    match declaration {
        Declaration::Function(function) => {
            add_function(alloc, names, numbers, size, function, entries)
        }
        Declaration::Trait(declared) => {
            let id = type_id(numbers.number(spelled(names, declared.name), size))?;
            add_trait_methods(
                alloc,
                names,
                numbers,
                size,
                id,
                declared.members.as_slice(),
                entries,
            )
        }
        Declaration::Object(declared) => {
            let id = type_id(numbers.number(spelled(names, declared.name), size))?;
            add_constructor(alloc, names, numbers, size, id, declared, entries)?;
            add_object_methods(
                alloc,
                names,
                numbers,
                size,
                id,
                declared.members.as_slice(),
                entries,
            )
        }
        Declaration::Variable(_) => Ok(()),
    }
}
