//! What a name stands for.
ghost use Rattle.std.specs.Prelude.{◌≡◌, ◌<◌, length};
ghost use Rattle.std.specs.Option.{option_copied};
ghost use Rattle.std.specs.Str.{bytes_eq};
ghost use Rattle.fort_typing_known.specs.Names.{bound, field_in, number_in, type_number, field_of, own_field};
ghost use Rattle.fort_typing_known.specs.Read.{facts};

use crate::known::Known;
use fort_base::{NameId, TypeId};
use fort_scope::{Binding, Scope};
use fort_types_sets::Field;

/// The binding of a name.
#[tactic(auto, using(crate::proofs::Bound::finds))]
pub fn binding(scope: &Scope, name: NameId) -> Option<&Binding>
    ensures { option_copied result ≡ bound scope.now name }
{
    let _mark = scope.enter();
    scope.find(name)
}

/// The field, or the variable at the top, of a name.
pub fn field_in(fields: &[Field], name: NameId) -> Option<&Field>
    ensures { option_copied result ≡ field_in fields.now name }
{
    for field in fields {
        if field.name.0 == name.0 {
            return Some(field);
        }
    }
    None
}

/// The number of the variable of a name; past the last one where there is none.
pub fn number_in(fields: &[Field], name: NameId) -> usize
    ensures { result ≡ number_in fields.now name }
{
    let mut number = 0;
    for field in fields {
        if field.name.0 == name.0 {
            return number;
        }
        number += 1;
    }
    number
}

/// The number of the type that is spelled so; past the last one where there is none.
pub fn type_number(known: &Known, spelling: &[u8]) -> usize
    ensures { result ≡ type_number (facts known.now).types spelling.now }
{
    match known.index.type_named(spelling) {
        Some(number) => number,
        None => known.index.types.len(),
    }
}

/// The field of a name that a declared type has.
pub fn field_of<'a>(known: &Known<'a>, ty: TypeId, name: NameId) -> Option<&'a Field>
    ensures { option_copied result ≡ field_of (facts known.now) ty name }
{
    match known.index.members.fields.get(ty.0 as usize) {
        Some(fields) => field_in(fields.as_slice(), name),
        None => None,
    }
}

/// The field of a name that the enclosing type has.
pub fn own_field<'a>(known: &Known<'a>, name: NameId) -> Option<&'a Field>
    ensures { option_copied result ≡ own_field (facts known.now) name }
{
    match known.owner {
        Some(ty) => field_of(known, ty, name),
        None => None,
    }
}
