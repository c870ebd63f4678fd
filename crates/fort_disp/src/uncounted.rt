//! The search where nobody counts its steps.
ghost use Rattle.std.specs.Prelude.{◌≡◌, ◌<◌};
ghost use Rattle.fort_base.specs.declared.ids.DeclId.{DeclId};
ghost use Rattle.fort_core.specs.declared.program.CoreDecl.{CoreDecl};
ghost use Rattle.fort_machine.specs.Calls.{Dispatches};
ghost use Rattle.fort_disp.specs.Rows.{MayPick};

use crate::finding::pick;
use crate::rows::Tables;
use crate::steps::Steps;
use fort_base::{DeclId, List, SetId};
use fort_core::{CoreDecl, Value};
use std::marker::Brand;
use std::sync::ledger::{Blank, Ledger};

/// The declaration that a call of values runs, as `pick` finds it. It takes no memory. The chapter
/// "Calls".
pub fn running<'a>(tables: &Tables<'a>, set: SetId, values: &List<Value>) -> &'a CoreDecl
    requires tables { MayPick tables.now }
    requires runs { (number : DeclId) × (decl : CoreDecl)
        × Dispatches tables.now.program.now set values.now number decl }
    ensures { (number : DeclId)
        × Dispatches tables.now.program.now set values.now number result.now }
{
    let number = picked::<Brand>(tables, set, values, Blank::new(1));
    match tables.program.decls.get(number.0 as usize) {
        None => unreachable!(),
        Some(decl) => decl,
    }
}

// What `pick` answers, over a counter that is let go.
fn picked<L: Ledger>(tables: &Tables, set: SetId, values: &List<Value>, blank: Blank) -> DeclId
    requires name { blank.name ≡ L.name }
    requires parts { blank.parts ≡ L.parts }
    requires some { 0 < blank.parts }
    requires tables { MayPick tables.now }
    requires runs { (number : DeclId) × (decl : CoreDecl)
        × Dispatches tables.now.program.now set values.now number decl }
    ensures { (decl : CoreDecl) × Dispatches tables.now.program.now set values.now result decl }
{
    let mut steps = Steps::<L>::open(blank);
    pick(tables, set, values, &mut steps)
}
