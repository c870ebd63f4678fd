//! One hold of the book: it is taken, and given back.
ghost use Rattle.std.specs.Prelude.{◌≡◌, ◌<◌};
ghost use Rattle.fort_turn.specs.Book.{Follows, Continues};
ghost use Rattle.fort_turn.specs.Passes.{seen_by, number_of, numbers_of, IsIdle, IsWaiting, HasSlot, Holds, IsSame};

use crate::grows::Grows;
use crate::held::{NEXT, Pass, SERVING, Turn};
use crate::rule::{Draw, Enter, GiveBack, PassOn};
use std::hint;
use std::sync::Wait;

// No place from here on is drawn.
const PLACES: u64 = 1 << 63;

// So often a pass looks before it sleeps.
const LOOKS: u32 = 64;

impl<B: Grows> Turn<B> {
    /// Waits until the book comes to this pass, and hands it out. The pass holds it from then on.
    ///
    /// The book has the origin of what the pass has seen. Its history begins with what the pass has
    /// seen, and of the pass's own numbers it has no entry more. The pass must be of this turn and
    /// hold nothing. It takes no memory.
    ///
    /// The call doesn't return where 2^63 places were drawn before.
    pub fn take<R: Wait>(&self, rt: &R, pass: &mut Pass<B>) -> B
        requires { IsIdle self.now pass.old }
        ensures same { IsSame pass.old pass.new }
        ensures holds { Holds self.now pass.new result }
        ensures book { Follows B.history B.origin B.by (seen_by pass.old) (numbers_of pass.old)
            result }
    {
        self.draw(rt, pass);
        self.enter(rt, pass);
        self.lift(pass)
    }

    // Draws a place. Where the last one is drawn it doesn't return.
    fn draw<R: Wait>(&self, rt: &R, pass: &mut Pass<B>)
        requires { IsIdle self.now pass.old }
        ensures same { IsSame pass.old pass.new × (seen_by pass.new ≡ seen_by pass.old) }
        ensures waits { IsWaiting self.now pass.new }
    {
        for _ in rt.forever() {
            let next = self.table.shared.peek(NEXT);
            if next < PLACES {
                let shared = &self.table.shared;
                let found = shared.compare_exchange::<Draw>(&mut pass.seat, NEXT, next, next + 1);
                if found == next {
                    pass.place = next;
                    return;
                }
            }
        }
        unreachable!()
    }

    // Waits until the pass's place is served. The slot is then its own.
    fn enter<R: Wait>(&self, rt: &R, pass: &mut Pass<B>)
        requires { IsWaiting self.now pass.old }
        ensures same { IsSame pass.old pass.new }
        ensures holds { (b : B) × HasSlot self.now pass.new (Some b) × (seen_by pass.new ≡ Some b)
            × Follows B.history B.origin B.by (seen_by pass.old) (numbers_of pass.old) b }
    {
        let mut looks = 0u32;
        for _ in rt.forever() {
            let serving = self.table.shared.load::<Enter>(&mut pass.seat, SERVING);
            if serving == pass.place {
                return;
            }
            self.pause(rt, serving, looks);
            looks = looks.saturating_add(1);
        }
        unreachable!()
    }

    // Between two looks: a moment at first, and then a sleep until another place is served.
    fn pause<R: Wait>(&self, rt: &R, serving: u64, looks: u32) {
        if looks < LOOKS {
            hint::spin_loop();
            return;
        }
        let low = (serving % (1 << 32)) as u32;
        self.table.shared.park(rt, SERVING, low);
    }

    // Takes the book out of the slot.
    fn lift(&self, pass: &mut Pass<B>) -> B
        requires { (b : B) × HasSlot self.now pass.old (Some b) }
        ensures same { IsSame pass.old pass.new × (seen_by pass.new ≡ seen_by pass.old) }
        ensures holds { HasSlot self.now pass.old (Some result) × HasSlot self.now pass.new None }
    {
        let Some(book) = self.table.shared.exchange(&mut pass.seat, 0, None) else {
            unreachable!()
        };
        book
    }

    /// Gives the book back, and lets the next pass have it.
    ///
    /// The book must have the origin of the one that `take` handed out, and a history that
    /// continues that one's with entries that name this pass. From now on the pass has seen it. It
    /// takes no memory and waits for nobody.
    pub fn give(&self, pass: &mut Pass<B>, book: B)
        requires { (taken : B) × Holds self.now pass.old taken
            × Continues B.history B.origin B.by (number_of pass.old) taken book }
        ensures same { IsSame pass.old pass.new }
        ensures idle { IsIdle self.now pass.new }
        ensures seen { seen_by pass.new ≡ Some book }
    {
        let next = pass.place + 1;
        let was = self.table.shared.exchange(&mut pass.seat, 0, Some(book));
        let None = was else { unreachable!() };
        let shared = &self.table.shared;
        shared.load::<GiveBack>(&mut pass.seat, SERVING);
        shared.store::<PassOn>(&mut pass.seat, SERVING, next);
        // Who draws a place after this look finds the new place served.
        if shared.peek(NEXT) != next {
            shared.wake_all(SERVING);
        }
    }
}
