//! A deck with one thief is closed.
ghost use Rattle.std.specs.Prelude.{◌≡◌, ◌+◌, [], ◌∷◌, ◌++◌, List as Seq, length, IfSome};
ghost use Rattle.fort_deck.specs.Thefts.{Theft, jobs_of, jobs_by};
ghost use Rattle.fort_deck.specs.Decks.{IsOwnerOf, IsThiefOf, put_by, owned_by, stack_of, thieves_of, number_of, stolen_by, left_of};

use fort_base::{List, Memory};
use fort_deck::{Deck, Owner, Rest, Thief};
use std::alloc::Global;

/// What is left, once the one thief is taken in. `None` is want of memory for the list of thieves.
pub fn close_with_one(alloc: Global, deck: Deck, owner: Owner, thief: Thief) -> Option<Rest>
    requires { IsOwnerOf deck owner × IsThiefOf deck thief × (thieves_of owner ≡ 1) }
    ensures count { IfSome result (λ rest. length (put_by owner)
        ≡ length (owned_by owner) + length (stolen_by thief) + length (left_of rest)) }
    ensures order { IfSome result (λ rest.
        (thefts : Seq Theft) × (stack_of owner ≡ jobs_of thefts ++ left_of rest)
        × (stolen_by thief ≡ jobs_by (number_of thief) thefts)) }
{
    let mut thieves = List::new(alloc);
    match thieves.push(thief) {
        Ok(()) => Some(deck.close(owner, thieves)),
        Err(Memory) => None,
    }
}
