//! The bindings in scope.
ghost use Rattle.std.specs.Prelude.{◌≡◌, ◌++◌, ◌∷◌, [], length, take, Contains, IfOk, OnOk, OnErr, IfErr, IfSome, IfNone, IsTrue, ◌↔◌};
ghost use Rattle.fort_scope.specs.Scopes.{IsBound, AreDistinct, IsFault};

use crate::binding::Binding;
use fort_base::rules::SHADOWS;
use fort_base::{CheckFault, Memory, NameId, Place, Ty};
use indexmap::IndexMap;
use std::alloc::Global;
use std::marker::Model;

/// The names in scope: a list of bindings whose names are distinct, the last one bound last.
#[derive(Drop)]
pub struct Scope {
    bindings: IndexMap<u32, Binding>,
}

impl Model for Scope {
    ghost use Rattle.std.specs.Prelude.{List as Seq};
    ghost use Rattle.std.specs.Coded.{codes};
    ghost use Rattle.indexmap.specs.IndexMap.{values};
    ghost use Rattle.fort_base.specs.contracts.ty.Ty as a_type;
    ghost use Rattle.fort_scope.specs.declared.binding.Binding.{Binding as Bound};
    ghost use Rattle.fort_scope.specs.Kept.{IsKept};

    ghost Value = { Seq Bound };

    ghost coded = { Prim.hlevel (codes, a_type.the_row.coded) };

    ghost view = { λ s. values s.bindings };

    ghost invariant = { λ s. IsKept s.bindings.entries };
}

impl Scope {
    /// The scope without bindings; it takes no memory.
    pub fn new(alloc: Global) -> Scope
        ensures { result ≡ [] }
    {
        Scope {
            bindings: IndexMap::new(alloc),
        }
    }

    /// The number of bindings, as a mark for `leave`.
    pub fn enter(&self) -> usize
        ensures mark { result ≡ length self.now }
        ensures distinct { AreDistinct self.now }
    {
        self.bindings.len()
    }

    /// Keeps the first bindings, as many as the mark says, and drops the others, which costs what
    /// it drops; it takes no memory.
    ///
    /// So a scope is after `leave` what it was at the `enter` that gave the mark, if names were
    /// only bound since.
    pub fn leave(&mut self, mark: usize)
        ensures { self.new ≡ take mark self.old }
    {
        self.bindings.truncate(mark);
    }

    /// Binds a name.
    ///
    /// It refuses 613 at `place` exactly where a binding of that name is there, and answers
    /// `Memory` where memory is wanting. After either the bindings are as before. The chapter
    /// "Names in scope".
    pub fn bind(
        &mut self,
        name: NameId,
        place: Place,
        ty: Ty,
        mutable: bool,
    ) -> Result<(), CheckFault>
        ensures fresh { IfOk result (λ _. IsBound self.old name → ⊥) }
        ensures bound { OnOk result (self.new
            ≡ self.old ++ record { name = name; place = place; ty = ty; mutable = mutable }
            ∷ []) }
        ensures fault { IfErr result (λ fault. IsFault self.old name place fault) }
        ensures unchanged { OnErr result (self.new ≡ self.old) }
    {
        if self.is_bound(name) {
            return Err(CheckFault::Refused(SHADOWS, place));
        }
        self.add(Binding {
            name,
            place,
            ty,
            mutable,
        })?;
        Ok(())
    }

    /// The binding of a name, or `None` where there is none.
    pub fn find(&self, name: NameId) -> Option<&Binding>
        ensures within { IfSome result (λ binding. Contains self.now binding.now) }
        ensures named { IfSome result (λ binding. binding.now.name ≡ name) }
        ensures none { IfNone result (IsBound self.now name → ⊥) }
    {
        self.bindings.get(&name.0)
    }

    /// Whether a name is bound.
    fn is_bound(&self, name: NameId) -> bool
        ensures { IsTrue result ↔ IsBound self.now name }
    {
        self.bindings.contains_key(&name.0)
    }

    /// Adds a binding of a name that isn't bound.
    fn add(&mut self, binding: Binding) -> Result<(), Memory>
        requires { IsBound self.old binding.name → ⊥ }
        ensures ok { OnOk result (self.new ≡ self.old ++ binding ∷ []) }
        ensures err { OnErr result (self.new ≡ self.old) }
    {
        self.bindings.insert(binding.name.0, binding)?;
        Ok(())
    }
}
