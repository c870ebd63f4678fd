//! The forms of a component.
ghost use Rattle.std.specs.Prelude.{◌≡◌, ◌≤◌, length, IfOk};
ghost use Rattle.fort_hier.specs.Heads.{heads_of};
ghost use Rattle.fort_hier.specs.Numbers.{HoldsNumbers, all_types};
ghost use Rattle.fort_form_walk.specs.FormsOf.{forms_by, forms_of};
ghost use Rattle.fort_form_walk.specs.Reading.{tables};

use crate::bodies::bodies;
use crate::groupings::GroupsByPlace;
use crate::initials::initials;
use crate::spawning::spawn_name;
use crate::tables::Tables;
use fort_base::Memory;
use fort_form::Forms;
use fort_hier::{Numbers, TypeHead, heads_in, numbers_in};
use fort_tree::{Component, Groups};
use fort_types_builtin::TYPE_NAME_COUNT;
use std::alloc::Global;

/// More types than this have no numbers.
const MOST_TYPES: usize = 0x4000_0000;

/// The forms of a component over the groupings of its flat expressions; or want of memory, which
/// it also answers where the component has more than 2^30 types.
///
/// No rule is asked here: a name that is no type's has the number behind all of them. The chapter
/// is "Typing".
pub fn forms(alloc: Global, component: &Component, groups: &Groups) -> Result<Forms, Memory>
    ensures { IfOk result (λ forms. forms ≡ forms_of component.now groups.now) }
{
    let heads = heads_in(alloc, component)?;
    if heads.len() > MOST_TYPES {
        return Err(Memory);
    }
    let numbers = numbers_in(alloc, component.names.as_slice(), heads.as_slice())?;
    forms_by_heads(alloc, component, groups, heads.as_slice(), &numbers)
}

/// The same with the heads of the types and the numbers of their names.
fn forms_by_heads(
    alloc: Global,
    component: &Component,
    groups: &Groups,
    heads: &[TypeHead],
    numbers: &Numbers,
) -> Result<Forms, Memory>
    requires heads { heads.now ≡ heads_of component.now }
    requires few { length heads.now ≤ 1073741824 }
    requires numbers { HoldsNumbers (all_types component.now.names heads.now) numbers.now }
    ensures { IfOk result (λ forms. forms ≡ forms_of component.now groups.now) }
{
    let names = component.names.as_slice();
    let spawning = spawn_name(names)?;
    let tables = Tables {
        heads,
        names,
        size: TYPE_NAME_COUNT + heads.len(),
        numbers,
        groups: GroupsByPlace::new(groups.list.as_slice()),
        spawning,
    };
    let forms = forms_over(alloc, component, &tables)?;
    Ok(forms)
}

/// The forms of a component, by its tables.
fn forms_over(alloc: Global, component: &Component, lookup: &Tables) -> Result<Forms, Memory>
    ensures { IfOk result (λ forms. forms ≡ forms_by (tables lookup.now) component.now) }
{
    let declarations = component.declarations.as_slice();
    let initials = initials(alloc, lookup, declarations)?;
    let bodies = bodies(alloc, lookup, declarations)?;
    Ok(Forms {
        name: component.name.spot.place,
        initials,
        bodies,
    })
}
