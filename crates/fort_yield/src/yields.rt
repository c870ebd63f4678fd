//! The tokens of a component.
ghost use Rattle.std.specs.Prelude.{◌≡◌, ◌++◌, OnOk, IfOk};
ghost use Rattle.fort_tree.specs.Component.{yield, export_tokens};

use crate::declarations::put_declarations;
use fort_base::{Bytes, List, Memory};
use fort_lex_token::{Reserved, Token, Tokens};
use fort_tree::{Component, Export};
use fort_yield_tokens::{put_name, put_word};
use std::alloc::Global;

/// The tokens of a component, in memory of their own: what it yields, with its names and its texts.
///
/// `Memory` says that memory was wanting. The chapter is "Grammar".
pub fn yield_of(alloc: Global, component: &Component) -> Result<Tokens, Memory>
    ensures list { IfOk result (λ tokens. tokens.list ≡ yield component.now) }
    ensures names { IfOk result (λ tokens. tokens.names ≡ component.now.names) }
    ensures texts { IfOk result (λ tokens. tokens.texts ≡ component.now.texts) }
{
    let mut list = List::new(alloc);
    put_component(component, &mut list)?;
    let names = copy_all(alloc, component.names.as_slice())?;
    let texts = copy_all(alloc, component.texts.as_slice())?;
    Ok(Tokens { list, names, texts })
}

fn put_component(component: &Component, out: &mut List<Token>) -> Result<(), Memory>
    ensures { OnOk result (out.new ≡ out.old ++ yield component.now) }
{
    put_word(out, Reserved::Component, component.component)?;
    put_name(out, component.name)?;
    put_export(out, component.export)?;
    put_declarations(component.declarations.as_slice(), out)?;
    put_word(out, Reserved::End, component.end)
}

fn put_export(out: &mut List<Token>, export: Option<Export>) -> Result<(), Memory>
    ensures { OnOk result (out.new ≡ out.old ++ export_tokens export) }
{
    match export {
        None => Ok(()),
        Some(part) => {
            put_word(out, Reserved::Export, part.export)?;
            put_name(out, part.name)
        }
    }
}

/// Each of several texts in memory of its own.
fn copy_all(alloc: Global, all: &[Bytes]) -> Result<List<Bytes>, Memory>
    ensures { IfOk result (λ copies. copies ≡ all.now) }
{
    let mut copies = List::new(alloc);
    for bytes in all {
        copies.push(List::from_slice(alloc, bytes.as_slice())?)?;
    }
    Ok(copies)
}
