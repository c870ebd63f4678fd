//! The built-in declarations, as members.
ghost use Rattle.std.specs.Prelude.{◌≡◌, IfOk};
ghost use Rattle.fort_member.specs.BuiltIn.{built_in_entries, built_in_entry};

use crate::entries::Entry;
use fort_base::{List, Memory};
use fort_types_builtin::{BuiltInDeclaration, declarations};
use fort_types_sets::{Member, MemberKind};
use std::alloc::Global;

/// The built-in declarations, in their order.
pub fn built_in(alloc: Global) -> Result<List<Entry>, Memory>
    ensures { IfOk result (λ entries. entries ≡ built_in_entries) }
{
    let mut entries = List::new(alloc);
    for declaration in declarations(alloc)?.into_vec() {
        entries.push(entry(declaration))?;
    }
    Ok(entries)
}

/// A built-in declaration, as a member of the set that its name and its number of parameters tell.
fn entry(declaration: BuiltInDeclaration) -> Entry
    ensures { result ≡ built_in_entry declaration }
{
    let BuiltInDeclaration {
        name,
        parameters,
        result,
        primitive: _,
    } = declaration;
    Entry {
        name,
        dotted: false,
        member: Member {
            place: None,
            parameters,
            result,
            owner: None,
            kind: MemberKind::BuiltIn,
        },
    }
}
