//! How far a walk has come, and what changes it.
ghost use Rattle.std.specs.Prelude.{◌≡◌, [], ◌∷◌, ◌+◌, ◌++◌, IfOk, OnOk, drop, length, map};
ghost use Rattle.fort_elab_tasks.specs.States.{all_named, bound_from, counted, found, function_numbered, gathered, held, left, named, numbered, opened};
ghost use Rattle.fort_elab_meaning.specs.Items.{parameter};

use crate::names::Names;
use crate::numbers::Numbers;
use fort_base::{List, Memory, NameId, Shared, Ty};
use fort_base_stack::Stack;
use fort_core::Term;
use fort_elab_meaning::Counter;
use fort_form::Parameter;
use std::alloc::Global;

/// How far a walk has come.
#[derive(Drop)]
pub struct State {
    /// The names in scope with their variables.
    pub names: Names,
    /// The variable of the receiver.
    pub receiver: u32,
    /// The next numbers.
    pub counter: Counter,
    /// The numbers of variables and of functions whose terms aren't finished, the newest on top.
    pub numbers: Numbers,
    /// The finished terms whose forms aren't finished, the last one on top.
    pub terms: Stack<Shared<Term>>,
    /// The lists of finished terms whose forms aren't finished, the last one on top.
    pub lists: Stack<List<Shared<Term>>>,
}

/// A number and so many more, or want of memory where there is no such number.
fn behind(number: u32, more: usize) -> Result<u32, Memory>
    ensures { IfOk result (λ next. next ≡ number + more) }
{
    if more > u32::MAX as usize {
        return Err(Memory);
    }
    match number.checked_add(more as u32) {
        Some(next) => Ok(next),
        None => Err(Memory),
    }
}

/// Names come into scope, with numbers one after another from this one on, or want of memory.
fn bind_typed(names: &mut Names, first: u32, list: &[(NameId, Ty)]) -> Result<(), Memory>
    ensures { OnOk result (names.new ≡ bound_from first list.now names.old) }
{
    let mut number = first;
    for one in list {
        names.bind(one.0, number)?;
        number = behind(number, 1)?;
    }
    Ok(())
}

/// The same of parameters.
fn bind_parameters(names: &mut Names, first: u32, list: &[Parameter]) -> Result<(), Memory>
    ensures { OnOk result (names.new ≡ bound_from first (map parameter list.now) names.old) }
{
    let mut number = first;
    for one in list {
        names.bind(one.name, number)?;
        number = behind(number, 1)?;
    }
    Ok(())
}

impl State {
    /// The beginning of a body, with its parameters in scope.
    pub fn new(alloc: Global, names: Names, receiver: u32, counter: Counter) -> State
        ensures { result
            ≡ record {
              names = names;
              receiver = receiver;
              counter = counter;
              numbers = [];
              terms = [];
              lists = [];
            } }
    {
        State {
            names,
            receiver,
            counter,
            numbers: Numbers::new(alloc),
            terms: Stack::new(alloc),
            lists: Stack::new(alloc),
        }
    }

    /// So many next numbers of variables are taken.
    fn count(&mut self, many: usize) -> Result<(), Memory>
        ensures { OnOk result (self.new ≡ counted many self.old) }
    {
        self.counter.variable = behind(self.counter.variable, many)?;
        Ok(())
    }

    /// A number becomes the newest.
    fn hold(&mut self, number: u32) -> Result<(), Memory>
        ensures { OnOk result (self.new ≡ held number self.old) }
    {
        self.numbers.push(number)
    }

    /// A variable without a name has the next number.
    pub fn number(&mut self) -> Result<(), Memory>
        ensures { OnOk result (self.new ≡ numbered self.old) }
    {
        self.hold(self.counter.variable)?;
        self.count(1)
    }

    /// A function has the next number.
    pub fn function(&mut self) -> Result<(), Memory>
        ensures { OnOk result (self.new ≡ function_numbered self.old) }
    {
        let number = self.counter.function;
        self.counter.function = behind(number, 1)?;
        self.hold(number)
    }

    /// The number of a name in scope becomes the newest.
    pub fn find(&mut self, name: NameId) -> Result<(), Memory>
        ensures { OnOk result (self.new ≡ found name self.old) }
    {
        let number = self.names.number_of(name);
        self.hold(number)
    }

    /// A name comes into scope.
    pub fn name(&mut self, name: NameId) -> Result<(), Memory>
        ensures { OnOk result (self.new ≡ named name self.old) }
    {
        let number = self.counter.variable;
        self.names.bind(name, number)?;
        self.number()
    }

    /// Names come into scope; the newest number is that of the first.
    pub fn names(&mut self, names: &[(NameId, Ty)]) -> Result<(), Memory>
        ensures { OnOk result (self.new ≡ all_named names.now self.old) }
    {
        let first = self.counter.variable;
        bind_typed(&mut self.names, first, names)?;
        self.hold(first)?;
        self.count(names.len())
    }

    /// Parameters come into scope; the newest number is that of the first.
    pub fn parameters(&mut self, parameters: &[Parameter]) -> Result<(), Memory>
        ensures { OnOk result (self.new ≡ all_named (map parameter parameters.now) self.old) }
    {
        let first = self.counter.variable;
        bind_parameters(&mut self.names, first, parameters)?;
        self.hold(first)?;
        self.count(parameters.len())
    }

    /// So many names go out of scope.
    pub fn leave(&mut self, count: usize)
        ensures { self.new ≡ left count self.old }
    {
        self.names.leave(count);
    }

    /// A list begins.
    pub fn open(&mut self, alloc: Global) -> Result<(), Memory>
        ensures { OnOk result (self.new ≡ opened self.old) }
    {
        self.lists.push(List::new(alloc))
    }

    /// The last term goes to the last list.
    pub fn gather(&mut self) -> Result<(), Memory>
        ensures { OnOk result (self.new ≡ gathered self.old) }
    {
        let term = self.take()?;
        let mut list = self.take_list()?;
        list.push(term)?;
        self.lists.push(list)
    }

    /// A term is finished.
    pub fn put(&mut self, term: Shared<Term>) -> Result<(), Memory>
        ensures { OnOk result (self.new ≡ record self.old { terms = term ∷ self.old.terms }) }
    {
        self.terms.push(term)
    }

    /// Takes the last finished term, or answers want of memory where there is none.
    pub fn take(&mut self) -> Result<Shared<Term>, Memory>
        ensures { IfOk result (λ term. self.old
            ≡ record self.new { terms = term ∷ self.new.terms }) }
    {
        match self.terms.pop() {
            Some(term) => Ok(term),
            None => Err(Memory),
        }
    }

    /// Takes the last list, or answers want of memory where there is none.
    pub fn take_list(&mut self) -> Result<List<Shared<Term>>, Memory>
        ensures { IfOk result (λ list. self.old
            ≡ record self.new { lists = list ∷ self.new.lists }) }
    {
        match self.lists.pop() {
            Some(list) => Ok(list),
            None => Err(Memory),
        }
    }

    /// Takes the newest number, or answers want of memory where there is none.
    pub fn take_number(&mut self) -> Result<u32, Memory>
        ensures { IfOk result (λ number. self.old
            ≡ record self.new { numbers = number ∷ self.new.numbers }) }
    {
        match self.numbers.pop() {
            Some(number) => Ok(number),
            None => Err(Memory),
        }
    }
}
