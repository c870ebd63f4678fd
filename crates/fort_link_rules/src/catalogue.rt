//! A component's signatures, to be found by their names.
ghost use Rattle.std.specs.Prelude.{◌≡◌, ◌∷◌, ◌++◌, [], ◌↔◌, Contains, IsTrue, OnOk};
ghost use Rattle.fort_link_rules.specs.Catalogue.{IsTied};

use crate::marks::Marks;
use crate::signatures::Signature;
use fort_base::{List, Memory};
use std::alloc::Global;

/// Signatures, each tied to the one before it of its name.
#[derive(Drop)]
pub(crate) struct Catalogue {
    signatures: List<Signature>,
    /// Of each signature, how many stand up to the one before it of its name.
    before: List<usize>,
    /// Of each name, how many signatures stand up to its last one.
    last: Marks,
}

impl Catalogue {
    /// No signatures.
    pub(crate) fn new(alloc: Global) -> Catalogue
        ensures none { result.signatures ≡ [] }
        ensures tied { IsTied result }
    {
        Catalogue {
            signatures: List::new(alloc),
            before: List::new(alloc),
            last: Marks::new(alloc),
        }
    }

    /// Puts a signature behind the others.
    pub(crate) fn add(&mut self, signature: Signature) -> Result<(), Memory>
        requires { IsTied self.old }
        ensures more { OnOk result (self.new.signatures ≡ self.old.signatures ++ signature ∷ []) }
        ensures tied { OnOk result (IsTied self.new) }
    {
        let name = signature.name;
        self.before.push(self.last.get(name))?;
        self.signatures.push(signature)?;
        self.last.set(name, self.signatures.len())
    }

    /// Whether a signature stands there; in the number of those of its name.
    pub(crate) fn has(&self, wanted: &Signature) -> bool
        requires { IsTied self.now }
        ensures { IsTrue result ↔ Contains self.now.signatures wanted.now }
    {
        let signatures = self.signatures.as_slice();
        let before = self.before.as_slice();
        let mut at = self.last.get(wanted.name);
        'back: while at > 0 {
            at -= 1;
            let signature = &signatures[at];
            let found = signature.is(wanted);
            if found {
                return true;
            }
            at = before[at];
        }
        false
    }
}
