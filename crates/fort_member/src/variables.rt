//! The variables at the top of a component.
ghost use Rattle.std.specs.Prelude.{◌≡◌, ◌++◌, length, IfOk, OnOk, List as Seq};
ghost use Rattle.std.specs.List.{flat_map};
ghost use Rattle.fort_hier.specs.Names.{Spelling};
ghost use Rattle.fort_hier.specs.Numbers.{HoldsNumbers};
ghost use Rattle.fort_member_fields.specs.Own.{variables_at, declared_variables};

use fort_base::{Bytes, List, Memory};
use fort_hier::Numbers;
use fort_member_fields::field_of_variable;
use fort_tree::{Declaration, Declared};
use fort_types_sets::Field;
use std::alloc::Global;

/// The variables at the top, in source order; the size is that of the list of numbered names.
pub fn variables_in(
    alloc: Global,
    names: &[Bytes],
    numbers: &Numbers,
    size: usize,
    declarations: &[Declared],
) -> Result<List<Field>, Memory>
    ensures { IfOk result (λ variables. (list : Seq Spelling) → HoldsNumbers list numbers.now
        → length list ≡ size
        → variables ≡ flat_map (declared_variables list names.now) declarations.now) }
{
    let mut variables = List::new(alloc);
    for declared in declarations {
        add_variable(
            alloc,
            names,
            numbers,
            size,
            &declared.declaration,
            &mut variables,
        )?;
    }
    Ok(variables)
}

/// Adds a declaration, where it is a variable.
fn add_variable(
    alloc: Global,
    names: &[Bytes],
    numbers: &Numbers,
    size: usize,
    declaration: &Declaration,
    variables: &mut List<Field>,
) -> Result<(), Memory>
    ensures { OnOk result ((list : Seq Spelling) → HoldsNumbers list numbers.now
        → length list ≡ size
        → variables.new ≡ variables.old ++ variables_at list names.now declaration.now) }
{
    match declaration {
        Declaration::Variable(variable) => {
            variables.push(field_of_variable(alloc, names, numbers, size, variable)?)
        }
        Declaration::Function(_) => Ok(()),
        Declaration::Trait(_) => Ok(()),
        Declaration::Object(_) => Ok(()),
    }
}
