//! What there is too much of in an API.
ghost use Rattle.std.specs.Prelude.{◌≡◌, [], ◌∷◌, ◌++◌, map, option_map, length, MatchOption};
ghost use Rattle.std.specs.Option.{option_to_list};
ghost use Rattle.fort_base.specs.Places.{is_before};
ghost use Rattle.fort_tree.specs.Types.{parameter_count};
ghost use Rattle.fort_tree.specs.Limits.{first_behind};
ghost use Rattle.fort_tree.specs.Measured.{all_crowded, listed_parts, most_declarations, most_tuple_parts, over};
ghost use Rattle.fort_tree.specs.Measures.{measured_type, measured_simple_type, measured_next_type, measured_type_list, measured_parameters};
ghost use Rattle.fort_tree_limits.specs.Earliest.{earliest};
ghost use Rattle.fort_link_units.specs.declared.unit.Unit.TheVariants as a_unit;
ghost use Rattle.fort_link_units.specs.Limits.{BreaksUnitLimit, KeepsUnitLimits, measured_api_declaration, measured_head};

use crate::unit::{Api, ApiDeclaration, ApiDeclared, FunctionHead};
use fort_base::{List, Place};
use fort_tree::{NextParameter, NextType, Parameters, SimpleType, Spot, TypeList, TypeTree};

/// How many declarations an API may have.
const MOST_DECLARATIONS: usize = 4096;

/// How many parameters a function may have.
const MOST_PARAMETERS: usize = 8;

/// How many parts a list of types in parentheses may have.
const MOST_TUPLE_PARTS: usize = 8;

/// The earliest place of what passes a limit in an API, or `None` where nothing does; it takes no
/// memory. The chapter is "Components and APIs".
pub(crate) fn first_crowded(api: &Api) -> Option<Place>
    ensures { MatchOption result (KeepsUnitLimits (a_unit.Api api.now))
        (λ at. BreaksUnitLimit (a_unit.Api api.now) at) }
{
    let mut walk = Walk { earliest: None };
    walk.see_late(late_declaration(&api.declarations));
    walk.declarations(&api.declarations);
    walk.earliest
}

/// The place of the first declaration too many.
fn late_declaration(declarations: &List<ApiDeclared>) -> Option<Place>
    ensures { option_to_list result
        ≡ first_behind most_declarations
        (map (λ d. (measured_api_declaration d.declaration).spot.place) declarations.now) }
{
    match declarations.get(MOST_DECLARATIONS) {
        Some(late) => Some(place_of_declaration(&late.declaration)),
        None => None,
    }
}

fn place_of_declaration(declaration: &ApiDeclaration) -> Place
    ensures { result ≡ (measured_api_declaration declaration.now).spot.place }
{
    match declaration {
        ApiDeclaration::Variable { name, .. } => name.spot.place,
        ApiDeclaration::Function(head) => head.name.spot.place,
        ApiDeclaration::Trait { trait_, .. } => trait_.place,
        ApiDeclaration::Object { object, .. } => object.place,
    }
}

/// How many parameters there are.
fn parameter_count(parameters: &Option<Parameters>) -> usize
    ensures { result ≡ parameter_count parameters.now }
{
    match parameters {
        Some(list) => 1 + list.others.as_slice().len(),
        None => 0,
    }
}

/// A walk over an API: the earliest place so far of what has too many parts.
#[derive(Drop)]
struct Walk {
    earliest: Option<Place>,
}

impl Walk {
    /// Takes a place into account.
    #[tactic(auto, unfolding(fort_tree_limits::specs::Earliest::earliest))]
    fn see(&mut self, at: Place)
        ensures { self.new.earliest ≡ earliest self.old.earliest (at ∷ []) }
    {
        match self.earliest {
            Some(found) => {
                if at.is_before(found) {
                    self.earliest = Some(at);
                }
            }
            None => self.earliest = Some(at),
        }
    }

    /// Takes a place into account that may be wanting.
    #[tactic(auto, using(fort_tree_limits::proofs::EarliestLaws::earliest_none))]
    fn see_late(&mut self, late: Option<Place>)
        ensures { self.new.earliest ≡ earliest self.old.earliest (option_to_list late) }
    {
        match late {
            Some(at) => self.see(at),
            None => {}
        }
    }

    /// Takes a form into account that has so many parts, and may have at most so many.
    fn count(&mut self, most: usize, count: usize, at: Place)
        ensures { self.new.earliest ≡ earliest self.old.earliest (over most count at) }
    {
        self.see_late(fort_tree_openers::over(most, count, at));
    }

    fn declarations(&mut self, declarations: &List<ApiDeclared>)
        ensures { self.new.earliest
            ≡ earliest self.old.earliest
            (all_crowded (map (λ d. measured_api_declaration d.declaration) declarations.now)) }
    {
        for declared in declarations.as_slice() {
            self.declaration(&declared.declaration);
        }
    }

    fn declaration(&mut self, declaration: &ApiDeclaration)
        ensures { self.new.earliest
            ≡ earliest self.old.earliest (measured_api_declaration declaration.now).crowded }
    {
        match declaration {
            ApiDeclaration::Variable { ty, .. } => self.type_tree(ty),
            ApiDeclaration::Function(head) => self.head(head),
            ApiDeclaration::Trait { .. } => {}
            ApiDeclaration::Object { .. } => {}
        }
    }

    fn head(&mut self, head: &FunctionHead)
        ensures { self.new.earliest ≡ earliest self.old.earliest (measured_head head.now).crowded }
    {
        self.count(
            MOST_PARAMETERS,
            parameter_count(&head.parameters),
            head.name.spot.place,
        );
        self.parameters(&head.parameters);
        self.type_tree(&head.result);
    }

    fn parameters(&mut self, parameters: &Option<Parameters>)
        ensures { self.new.earliest
            ≡ earliest self.old.earliest (all_crowded (measured_parameters parameters.now)) }
    {
        match parameters {
            Some(list) => {
                self.type_tree(&list.first.ty);
                self.next_parameters(&list.others);
            }
            None => {}
        }
    }

    fn next_parameters(&mut self, parameters: &List<NextParameter>)
        ensures { self.new.earliest
            ≡ earliest self.old.earliest
            (all_crowded (map (λ next. measured_type next.parameter.ty) parameters.now)) }
    {
        for next in parameters.as_slice() {
            self.type_tree(&next.parameter.ty);
        }
    }

    #[cycle(types)]
    fn type_tree(&mut self, ty: &TypeTree)
        ensures { self.new.earliest ≡ earliest self.old.earliest (measured_type ty.now).crowded }
    {
        match ty {
            TypeTree::Simple(simple) => self.simple_type(simple),
            TypeTree::Arrow(domain, _, result) => {
                self.simple_type(domain);
                self.simple_type(result);
            }
        }
    }

    #[cycle(types)]
    fn simple_type(&mut self, simple: &SimpleType)
        ensures { self.new.earliest
            ≡ earliest self.old.earliest (measured_simple_type simple.now).crowded }
    {
        match simple {
            SimpleType::Named(_) => {}
            SimpleType::Array { element, .. } => self.type_tree(element.get()),
            SimpleType::Parts { left, parts, .. } => self.type_parts(*left, parts),
        }
    }

    #[cycle(types)]
    fn type_parts(&mut self, left: Spot, parts: &Option<TypeList>)
        ensures { self.new.earliest
            ≡ earliest self.old.earliest
            (over most_tuple_parts (length (listed_parts (option_map measured_type_list parts.now)))
            left.place
            ++ all_crowded (listed_parts (option_map measured_type_list parts.now))) }
    {
        match parts {
            Some(list) => {
                self.count(
                    MOST_TUPLE_PARTS,
                    1 + list.others.as_slice().len(),
                    left.place,
                );
                self.type_tree(list.first.get());
                self.next_types(&list.others);
            }
            None => {}
        }
    }

    #[cycle(types)]
    fn next_types(&mut self, types: &List<NextType>)
        ensures { self.new.earliest
            ≡ earliest self.old.earliest (all_crowded (map measured_next_type types.now)) }
    {
        for next in types.as_slice() {
            self.type_tree(&next.ty);
        }
    }
}
