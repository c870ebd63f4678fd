//! The first places of a list where something stands.
ghost use Rattle.std.specs.Prelude.{◌≡◌};
ghost use Rattle.fort_juxt.specs.Tight.{takes as is_taking, postfix_first};
ghost use Rattle.fort_juxt.specs.Loose.{name_ends};
ghost use Rattle.fort_juxt.specs.Walks.{IsFound};

use crate::elements::Element;

/// The number of the first function that an atom directly follows.
pub fn first_taking(elements: &[Element]) -> Option<usize>
    ensures { IsFound is_taking elements.now result }
{
    for at in 0..elements.len() {
        if takes(&elements[at..]) {
            return Some(at);
        }
    }
    None
}

/// The number of the first postfix.
pub fn first_postfix(elements: &[Element]) -> Option<usize>
    ensures { IsFound postfix_first elements.now result }
{
    for at in 0..elements.len() {
        if begins_with_postfix(&elements[at..]) {
            return Some(at);
        }
    }
    None
}

/// The number of the first name of a function set that ends its chunk.
pub fn first_name_end(elements: &[Element]) -> Option<usize>
    ensures { IsFound name_ends elements.now result }
{
    for at in 0..elements.len() {
        if ends_with_name(&elements[at..]) {
            return Some(at);
        }
    }
    None
}

/// Whether a function stands first and an atom directly behind it.
fn takes(rest: &[Element]) -> bool
    ensures { result ≡ is_taking rest.now }
{
    match rest {
        [function, atom, ..] => function.function && !atom.postfix,
        _ => false,
    }
}

/// Whether a postfix stands first.
pub fn begins_with_postfix(rest: &[Element]) -> bool
    ensures { result ≡ postfix_first rest.now }
{
    match rest {
        [postfix, ..] => postfix.postfix,
        _ => false,
    }
}

/// Whether a function set's name stands first and ends its chunk.
fn ends_with_name(rest: &[Element]) -> bool
    ensures { result ≡ name_ends rest.now }
{
    match rest {
        [name] => name.named,
        [name, next, ..] => name.named && (!name.function && next.function),
        _ => false,
    }
}
