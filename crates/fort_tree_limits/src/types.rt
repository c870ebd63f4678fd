//! What there is too much of in types.
ghost use Rattle.std.specs.Prelude.{◌≡◌, ◌++◌, map, option_map, length};
ghost use Rattle.fort_tree.specs.Types.{parameter_count};
ghost use Rattle.fort_tree.specs.Measured.{all_crowded, listed_parts, most_tuple_parts, over};
ghost use Rattle.fort_tree.specs.Measures.{measured_type, measured_simple_type, measured_next_type, measured_type_list, measured_parameters};
ghost use Rattle.fort_tree_limits.specs.Earliest.{earliest};

use crate::walk::Walk;
use fort_base::List;
use fort_tree::{NextParameter, NextType, Parameters, SimpleType, Spot, TypeList, TypeTree};

/// How many parameters a declaration, a method or a `fn` may have.
pub(crate) const MOST_PARAMETERS: usize = 8;

/// How many parts a list of expressions or types in parentheses may have.
pub(crate) const MOST_TUPLE_PARTS: usize = 8;

impl Walk {
    /// Walks over a type.
    #[cycle(types)]
    pub(crate) fn type_tree(&mut self, ty: &TypeTree)
        ensures { self.new.earliest ≡ earliest self.old.earliest (measured_type ty.now).crowded }
    {
        match ty {
            TypeTree::Simple(simple) => self.simple_type(simple),
            TypeTree::Arrow(domain, _, result) => {
                self.simple_type(domain);
                self.simple_type(result);
            }
        }
    }

    #[cycle(types)]
    fn simple_type(&mut self, simple: &SimpleType)
        ensures { self.new.earliest
            ≡ earliest self.old.earliest (measured_simple_type simple.now).crowded }
    {
        match simple {
            SimpleType::Named(_) => {}
            SimpleType::Array { element, .. } => self.type_tree(element.get()),
            SimpleType::Parts { left, parts, .. } => self.type_parts(*left, parts),
        }
    }

    #[cycle(types)]
    fn type_parts(&mut self, left: Spot, parts: &Option<TypeList>)
        ensures { self.new.earliest
            ≡ earliest self.old.earliest
            (over most_tuple_parts (length (listed_parts (option_map measured_type_list parts.now)))
            left.place
            ++ all_crowded (listed_parts (option_map measured_type_list parts.now))) }
    {
        match parts {
            Some(list) => {
                self.count(
                    MOST_TUPLE_PARTS,
                    1 + list.others.as_slice().len(),
                    left.place,
                );
                self.type_tree(list.first.get());
                self.next_types(&list.others);
            }
            None => {}
        }
    }

    #[cycle(types)]
    fn next_types(&mut self, types: &List<NextType>)
        ensures { self.new.earliest
            ≡ earliest self.old.earliest (all_crowded (map measured_next_type types.now)) }
    {
        for next in types.as_slice() {
            self.type_tree(&next.ty);
        }
    }

    /// Walks over the types of parameters.
    pub(crate) fn parameters(&mut self, parameters: &Option<Parameters>)
        ensures { self.new.earliest
            ≡ earliest self.old.earliest (all_crowded (measured_parameters parameters.now)) }
    {
        match parameters {
            Some(list) => {
                self.type_tree(&list.first.ty);
                self.next_parameters(&list.others);
            }
            None => {}
        }
    }

    fn next_parameters(&mut self, parameters: &List<NextParameter>)
        ensures { self.new.earliest
            ≡ earliest self.old.earliest
            (all_crowded (map (λ next. measured_type next.parameter.ty) parameters.now)) }
    {
        for next in parameters.as_slice() {
            self.type_tree(&next.parameter.ty);
        }
    }
}

/// How many parameters there are.
pub(crate) fn parameter_count(parameters: &Option<Parameters>) -> usize
    ensures { result ≡ parameter_count parameters.now }
{
    match parameters {
        Some(list) => 1 + list.others.as_slice().len(),
        None => 0,
    }
}
