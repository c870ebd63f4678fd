//! Files linked to one component.
ghost use Rattle.std.specs.Prelude.{◌≡◌, ◌≤◌, ◌<◌, None, length, map, sum, IfOk};
ghost use Rattle.fort_link_rules.specs.Reports.{IsFirstBroken};
ghost use Rattle.fort_link.specs.Whole.{IsWhole};
ghost use Rattle.fort_link.specs.Answer.{LinkAnswers};

use crate::answer::{LinkFault, Linked};
use crate::places::spot;
use crate::reading::{Read, read_files};
use crate::whole::{declarations, last_end, main_head};
use fort_base::{Bytes, List, Memory};
use fort_link_rules::first_broken;
use fort_link_table::Table;
use fort_parse_declarations::Parsed;
use fort_tree::Component;
use std::alloc::Global;

/// The component that files are together, or the first rule that they break. The chapter is
/// "Components and APIs".
///
/// `files` are the bytes of the files, 1,048,576 at most together. All are first read, in order:
/// the first one with a fault of 101 to 107, or of 202, 201 and 203, is refused with it, at its
/// place in that file. Then the rules 701 to 707 are asked of all, and the first that is broken is
/// refused, at its earliest place. Else `Ok` has the whole: the head of the component that exports
/// `Executable`, the declarations of all components and the last one's `end`, over the names and
/// texts of all files. Its only other error is want of memory.
pub fn linked(alloc: Global, files: &List<Bytes>) -> Result<Linked, LinkFault>
    requires count { (1 ≤ length files.now) × (length files.now ≤ 64) }
    requires small { sum (map length files.now) ≤ 1048576 }
    ensures { LinkAnswers files.now result }
{
    let found = read_files(alloc, files.as_slice())?;
    let names = found.table.names.as_slice();
    match first_broken(alloc, names, found.units.as_slice())? {
        Some(broken) => {
            let at = spot(files, broken.place);
            Err(LinkFault::Refused(broken.rule, at))
        }
        None => {
            let whole = whole_of(alloc, found)?;
            Ok(whole)
        }
    }
}

/// The whole of files that were read and break no rule.
fn whole_of(alloc: Global, found: Read) -> Result<Linked, Memory>
    requires some { 0 < length found.units }
    requires keep { IsFirstBroken found.table.names found.units None }
    ensures whole { IfOk result (λ it. IsWhole found.table.names found.table.texts found.units
        it.parsed.component) }
    ensures spawns { IfOk result (λ it. it.spawns ≡ found.spawns) }
{
    let Read {
        units,
        table,
        spawns,
    } = found;
    let Table {
        names,
        texts,
        lines: _,
    } = table;
    let head = match main_head(names.as_slice(), units.as_slice()) {
        Some(head) => head,
        None => unreachable!(),
    };
    let end = match last_end(units.as_slice()) {
        Some(end) => end,
        None => unreachable!(),
    };
    let declarations = declarations(alloc, units)?;
    let component = Component {
        component: head.component,
        name: head.name,
        export: Some(head.export),
        declarations,
        end,
        names,
        texts,
    };
    Ok(Linked {
        parsed: Parsed { component },
        spawns,
    })
}
