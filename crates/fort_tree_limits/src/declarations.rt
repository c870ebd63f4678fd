//! What there is too much of in declarations.
ghost use Rattle.std.specs.Prelude.{◌≡◌, ◌++◌, map, length};
ghost use Rattle.std.specs.List.{flat_map};
ghost use Rattle.fort_tree.specs.Declarations.{method_parameter_count};
ghost use Rattle.fort_tree.specs.Measured.{all_crowded};
ghost use Rattle.fort_tree.specs.Measures.{measured_type};
ghost use Rattle.fort_tree.specs.Limits.{comprises_count, excludes_count, extends_count, measured_body, measured_declaration, measured_function, measured_method, measured_method_parameter, measured_method_parameters, measured_object, measured_object_member, measured_object_parameters, measured_object_parameter_list, measured_trait, measured_trait_member, name_count, object_members, trait_members};
ghost use Rattle.fort_tree_limits.specs.Earliest.{earliest};

use crate::places::place_of_function;
use crate::types::{MOST_PARAMETERS, parameter_count};
use crate::walk::Walk;
use fort_base::List;
use fort_tree::{
    Comprises, Declaration, Declared, Excludes, Extends, Function, Method, MethodBody,
    MethodParameter, MethodParameters, Names, NextMethodParameter, NextObjectParameter, Object,
    ObjectEntry, ObjectMember, ObjectParameterList, ObjectParameters, Trait, TraitEntry,
    TraitMember,
};

/// How many names one `extends`, `excludes` or `comprises` may have.
const MOST_NAMES: usize = 32;

impl Walk {
    /// Walks over declarations.
    pub(crate) fn declarations(&mut self, declarations: &List<Declared>)
        ensures { self.new.earliest
            ≡ earliest self.old.earliest
            (all_crowded (map (λ d. measured_declaration d.declaration) declarations.now)) }
    {
        for declared in declarations.as_slice() {
            self.declaration(&declared.declaration);
        }
    }

    fn declaration(&mut self, declaration: &Declaration)
        ensures { self.new.earliest
            ≡ earliest self.old.earliest (measured_declaration declaration.now).crowded }
    {
        match declaration {
            Declaration::Variable(variable) => self.variable(variable),
            Declaration::Function(function) => self.function(function),
            Declaration::Trait(tr) => self.trait_(tr),
            Declaration::Object(object) => self.object(object),
        }
    }

    fn function(&mut self, function: &Function)
        ensures { self.new.earliest
            ≡ earliest self.old.earliest (measured_function function.now).crowded }
    {
        let place = place_of_function(function.name);
        self.count(
            MOST_PARAMETERS,
            parameter_count(&function.parameters),
            place,
        );
        self.parameters(&function.parameters);
        self.type_tree(&function.result);
        self.expr(&function.body);
    }

    fn method(&mut self, method: &Method)
        ensures { self.new.earliest
            ≡ earliest self.old.earliest (measured_method method.now).crowded }
    {
        let place = place_of_function(method.name);
        self.count(
            MOST_PARAMETERS,
            method_parameter_count(&method.parameters),
            place,
        );
        self.method_parameters(&method.parameters);
        self.type_tree(&method.result);
        self.method_body(&method.body);
    }

    fn method_parameters(&mut self, parameters: &Option<MethodParameters>)
        ensures { self.new.earliest
            ≡ earliest self.old.earliest (all_crowded (measured_method_parameters parameters.now)) }
    {
        match parameters {
            Some(list) => {
                self.method_parameter(&list.first);
                self.next_method_parameters(&list.others);
            }
            None => {}
        }
    }

    fn method_parameter(&mut self, parameter: &MethodParameter)
        ensures { self.new.earliest
            ≡ earliest self.old.earliest (all_crowded (measured_method_parameter parameter.now)) }
    {
        match parameter {
            MethodParameter::Parameter(parameter) => self.type_tree(&parameter.ty),
            MethodParameter::Self_(_) => {}
        }
    }

    fn next_method_parameters(&mut self, parameters: &List<NextMethodParameter>)
        ensures { self.new.earliest
            ≡ earliest self.old.earliest
            (all_crowded
            (flat_map (λ next. measured_method_parameter next.parameter) parameters.now)) }
    {
        for next in parameters.as_slice() {
            self.method_parameter(&next.parameter);
        }
    }

    fn method_body(&mut self, body: &Option<MethodBody>)
        ensures { self.new.earliest
            ≡ earliest self.old.earliest (all_crowded (measured_body body.now)) }
    {
        match body {
            Some(body) => {
                self.expr(&body.body);
            }
            None => {}
        }
    }

    fn trait_(&mut self, tr: &Trait)
        ensures { self.new.earliest ≡ earliest self.old.earliest (measured_trait tr.now).crowded }
    {
        let place = tr.trait_.place;
        self.count(MOST_NAMES, extends_count(&tr.extends), place);
        self.count(MOST_NAMES, excludes_count(&tr.excludes), place);
        self.count(MOST_NAMES, comprises_count(&tr.comprises), place);
        self.trait_members(&tr.members);
    }

    fn trait_members(&mut self, members: &List<TraitEntry>)
        ensures { self.new.earliest
            ≡ earliest self.old.earliest
            (all_crowded (map (λ e. measured_trait_member e.member) members.now)) }
    {
        for entry in members.as_slice() {
            self.trait_member(&entry.member);
        }
    }

    fn trait_member(&mut self, member: &TraitMember)
        ensures { self.new.earliest
            ≡ earliest self.old.earliest (measured_trait_member member.now).crowded }
    {
        match member {
            TraitMember::Field { ty, .. } => self.type_tree(ty),
            TraitMember::Method(method) => self.method(method),
        }
    }

    fn object(&mut self, object: &Object)
        ensures { self.new.earliest
            ≡ earliest self.old.earliest (measured_object object.now).crowded }
    {
        let place = object.object.place;
        let parameters = object_parameter_count(&object.parameters);
        self.count(MOST_PARAMETERS, parameters, place);
        self.count(MOST_NAMES, extends_count(&object.extends), place);
        self.object_parameters(&object.parameters);
        self.object_members(&object.members);
    }

    fn object_parameters(&mut self, parameters: &Option<ObjectParameters>)
        ensures { self.new.earliest
            ≡ earliest self.old.earliest (all_crowded (measured_object_parameters parameters.now)) }
    {
        match parameters {
            Some(parameters) => {
                self.object_parameter_list(&parameters.parameters);
            }
            None => {}
        }
    }

    fn object_parameter_list(&mut self, list: &Option<ObjectParameterList>)
        ensures { self.new.earliest
            ≡ earliest self.old.earliest (all_crowded (measured_object_parameter_list list.now)) }
    {
        match list {
            Some(list) => {
                self.type_tree(&list.first.ty);
                self.next_object_parameters(&list.others);
            }
            None => {}
        }
    }

    fn next_object_parameters(&mut self, parameters: &List<NextObjectParameter>)
        ensures { self.new.earliest
            ≡ earliest self.old.earliest
            (all_crowded (map (λ next. measured_type next.parameter.ty) parameters.now)) }
    {
        for next in parameters.as_slice() {
            self.type_tree(&next.parameter.ty);
        }
    }

    fn object_members(&mut self, members: &List<ObjectEntry>)
        ensures { self.new.earliest
            ≡ earliest self.old.earliest
            (all_crowded (map (λ e. measured_object_member e.member) members.now)) }
    {
        for entry in members.as_slice() {
            self.object_member(&entry.member);
        }
    }

    fn object_member(&mut self, member: &ObjectMember)
        ensures { self.new.earliest
            ≡ earliest self.old.earliest (measured_object_member member.now).crowded }
    {
        match member {
            ObjectMember::Variable(variable) => self.variable(variable),
            ObjectMember::Method(method) => self.method(method),
        }
    }
}

/// How many parameters a method has, `self` included.
fn method_parameter_count(parameters: &Option<MethodParameters>) -> usize
    ensures { result ≡ method_parameter_count parameters.now }
{
    match parameters {
        Some(list) => 1 + list.others.as_slice().len(),
        None => 0,
    }
}

/// How many parameters an object has.
fn object_parameter_count(parameters: &Option<ObjectParameters>) -> usize
    ensures { result ≡ length (measured_object_parameters parameters.now) }
{
    match parameters {
        Some(parameters) => listed_parameter_count(&parameters.parameters),
        None => 0,
    }
}

fn listed_parameter_count(list: &Option<ObjectParameterList>) -> usize
    ensures { result ≡ length (measured_object_parameter_list list.now) }
{
    match list {
        Some(list) => 1 + list.others.as_slice().len(),
        None => 0,
    }
}

fn name_count(names: &Names) -> usize
    ensures { result ≡ name_count names.now }
{
    match names {
        Names::One(_) => 1,
        Names::Braces { others, .. } => 1 + others.as_slice().len(),
    }
}

fn extends_count(extends: &Option<Extends>) -> usize
    ensures { result ≡ extends_count extends.now }
{
    match extends {
        Some(extends) => name_count(&extends.names),
        None => 0,
    }
}

fn excludes_count(excludes: &Option<Excludes>) -> usize
    ensures { result ≡ excludes_count excludes.now }
{
    match excludes {
        Some(excludes) => name_count(&excludes.names),
        None => 0,
    }
}

fn comprises_count(comprises: &Option<Comprises>) -> usize
    ensures { result ≡ comprises_count comprises.now }
{
    match comprises {
        Some(comprises) => name_count(&comprises.names),
        None => 0,
    }
}
