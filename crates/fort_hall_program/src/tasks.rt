//! The tasks of a book: which parts of its term they are, and who has them.
ghost use Rattle.std.specs.Prelude.{◌≡◌, ◌==◌, ◌&&◌};

use fort_base::{List, Memory};
use fort_core::Path;
use fort_hall_parts::Division;
use std::alloc::Global;

/// A path of more numbers than this isn't divided further.
const LONGEST: usize = 24;

/// After so many refused legs in a row a task's book lends no other one.
const PATIENCE: u32 = 8;

/// What a leg of a new task may cost, and a leg of any task at the least.
const SHORTEST: u64 = 4_096;

/// What a leg may cost at most where nobody looks for work and no other task of its book can be
/// lent, where somebody looks, and where another task waits.
const ALONE: u64 = 1_048_576;

const SOUGHT: u64 = 262_144;

const BESIDE: u64 = 65_536;

/// After so many legs in a row, or one that cost so much as one beside others may, a task has had
/// its turn: it is divided, whoever looks for work, and others that can be lent come first.
const TURN: u32 = 64;

/// A task whose attempt came to no end waits for one leg more of its book, then for two, then for
/// four; it doubles so often.
const DOUBLINGS: u32 = 20;

/// How a task stands.
#[derive(Clone, Copy, Debug, PartialEq, Eq)]
enum Standing {
    /// It can be lent.
    Free,
    /// Some worker has it.
    Lent,
    /// So many tasks into which it was divided haven't ended.
    Waits(u64),
    /// It couldn't go on; it is lent again once its book has so many legs.
    Idle(usize),
    /// It was given up, and the worker that has it doesn't know yet.
    Gone,
    /// It has ended.
    Ended,
}

/// A task: its path in the book's term, and the one that was divided into it and others.
#[derive(Drop)]
struct Task {
    path: Path,
    parent: Option<usize>,
    standing: Standing,
    /// How many legs of it were refused in a row.
    refused: u32,
    /// How often in a row its attempt came to no end.
    left: u32,
    /// How many legs the book had when it was lent.
    lent_at: usize,
    /// What a leg of it may cost.
    slice: u64,
    /// How many legs of it were appended since another task had its turn.
    row: u32,
}

/// The tasks of a book, by number. Of those behind all others that have ended a number is given
/// again.
#[derive(Drop)]
pub(crate) struct Tasks {
    all: Vec<Task>,
    free: u64,
    lent: u64,
    idle: u64,
    /// The task for which the others wait.
    first: Option<u64>,
    /// Whether no task is lent any more.
    retired: bool,
}

impl Tasks {
    // One task, which is the whole term; or none, where that isn't open.
    pub(crate) fn new(alloc: Global, is_open: bool) -> Result<Tasks, Memory> {
        let mut tasks = Tasks {
            all: Vec::new(alloc),
            free: 0,
            lent: 0,
            idle: 0,
            first: None,
            retired: false,
        };
        if is_open {
            tasks.add(Path(List::new(alloc)), None)?;
            tasks.stand(0, Standing::Free);
        }
        Ok(tasks)
    }

    // One task more, which hasn't begun.
    fn add(&mut self, path: Path, parent: Option<usize>) -> Result<(), Memory> {
        self.all.push(Task {
            path,
            parent,
            standing: Standing::Ended,
            refused: 0,
            left: 0,
            lent_at: 0,
            slice: SHORTEST,
            row: 0,
        })?;
        Ok(())
    }

    // Whether no task can be lent any more, and none is.
    pub(crate) fn have_ended(&self) -> bool
        ensures { result ≡ ((self.now.free == 0) && (self.now.lent == 0)) }
    {
        self.free == 0 && self.lent == 0
    }

    // The path of a task, and what a leg of it may cost, if there is one of this number.
    pub(crate) fn find(&self, task: u64) -> Option<(&Path, u64)> {
        match self.all.get(task as usize) {
            Some(it) => Some((&it.path, it.slice)),
            None => None,
        }
    }

    fn standing(&self, task: u64) -> Option<Standing> {
        match self.all.get(task as usize) {
            Some(it) => Some(it.standing),
            None => None,
        }
    }

    // Whether others wait for a task.
    pub(crate) fn is_held(&self) -> bool {
        self.first.is_some()
    }

    // Whether this task can be lent now.
    fn is_free(&self, task: u64) -> bool {
        if let Some(first) = self.first
            && first != task
        {
            return false;
        }
        self.standing(task) == Some(Standing::Free)
    }

    // Lends a task, where it can be lent, by a book of so many legs.
    pub(crate) fn lend(&mut self, task: u64, legs: usize) -> bool {
        if !self.is_free(task) {
            return false;
        }
        self.stand(task, Standing::Lent);
        if let Some(it) = self.all.get_mut(task as usize) {
            it.lent_at = legs;
        }
        true
    }

    // How many numbers a task is behind which can be lent now, from this one on and then round.
    pub(crate) fn next_free(&self, from: u64) -> Option<u64> {
        if self.free == 0 {
            return None;
        }
        let count = self.all.len() as u64;
        let start = if from < count { from } else { 0 };
        for task in start..count {
            if self.is_free(task) {
                return Some(task);
            }
        }
        for task in 0..start {
            if self.is_free(task) {
                return Some(task);
            }
        }
        None
    }

    // Whether a task that comes back is still one: it wasn't given up.
    pub(crate) fn comes_back(&mut self, task: u64) -> bool {
        match self.standing(task) {
            Some(Standing::Lent) => true,
            Some(Standing::Gone) => {
                self.stand(task, Standing::Ended);
                self.trim();
                false
            }
            _ => false,
        }
    }

    // A lent task comes back, to be lent again.
    pub(crate) fn give_back(&mut self, task: u64) {
        self.stand(task, Standing::Free);
    }

    // A lent task comes back that couldn't go on: it is lent again once its book, which has so many
    // legs, has one more than when it was lent.
    pub(crate) fn rest(&mut self, task: u64, legs: usize) {
        self.rest_for(task, legs, 1);
    }

    // A lent task comes back whose attempt came to no end: it is lent again once its book has some
    // legs more than when it was lent, each time twice as many.
    pub(crate) fn leave(&mut self, task: u64, legs: usize) {
        let mut more = 1usize;
        if let Some(it) = self.all.get_mut(task as usize) {
            for _doubling in 0..it.left.min(DOUBLINGS) {
                more = more.saturating_mul(2);
            }
            it.left = it.left.saturating_add(1);
        }
        self.rest_for(task, legs, more);
    }

    // A lent task comes back, to be lent again once its book has so many legs more than when it was
    // lent.
    fn rest_for(&mut self, task: u64, legs: usize, more: usize) {
        if !self.comes_back(task) {
            return;
        }
        let lent_at = match self.all.get(task as usize) {
            Some(it) => it.lent_at,
            None => legs,
        };
        let until = lent_at.saturating_add(more);
        let standing = if until <= legs {
            Standing::Free
        } else {
            Standing::Idle(until)
        };
        self.stand(task, standing);
        self.release(task);
    }

    // The book has come to so many legs: who waited for that may be lent again. It says whether
    // anybody may.
    pub(crate) fn wake(&mut self, legs: usize) -> bool {
        if self.idle == 0 {
            return false;
        }
        let mut woken = false;
        for task in 0..self.all.len() {
            if let Some(Standing::Idle(until)) = self.standing(task as u64)
                && until <= legs
            {
                self.stand(task as u64, Standing::Free);
                woken = true;
            }
        }
        woken
    }

    // A leg of the task was refused; it comes back, to be lent again for a shorter one. After some
    // in a row the other tasks wait for it.
    pub(crate) fn refuse(&mut self, task: u64) {
        self.stand(task, Standing::Free);
        if let Some(it) = self.all.get_mut(task as usize) {
            it.slice = (it.slice / 2).max(SHORTEST);
            it.refused = it.refused.saturating_add(1);
            if it.refused >= PATIENCE && self.first.is_none() {
                self.first = Some(task);
            }
        }
    }

    // A leg of the task was appended while so many workers looked for work; it comes back, to be
    // lent again for a longer one.
    pub(crate) fn accept(&mut self, task: u64, wanted: u32) {
        let longest = if self.free > 0 {
            BESIDE
        } else if wanted > 0 {
            SOUGHT
        } else {
            ALONE
        };
        self.stand(task, Standing::Free);
        if let Some(it) = self.all.get_mut(task as usize) {
            it.slice = it.slice.saturating_mul(2).min(longest);
            it.row = it.row.saturating_add(1);
            it.refused = 0;
            it.left = 0;
        }
        self.release(task);
    }

    // Whether a task has had its turn.
    pub(crate) fn had_turn(&self, task: u64) -> bool {
        match self.all.get(task as usize) {
            Some(it) => it.slice >= BESIDE || it.row >= TURN,
            None => false,
        }
    }

    // The task that comes next behind one that has had its turn: the next one that can be lent.
    pub(crate) fn behind(&mut self, task: u64) -> u64 {
        if let Some(it) = self.all.get_mut(task as usize) {
            it.row = 0;
        }
        match self.next_free(task.saturating_add(1)) {
            Some(next) => next,
            None => task,
        }
    }

    // The others wait for this task no more.
    fn release(&mut self, task: u64) {
        if self.first == Some(task) {
            self.first = None;
        }
    }

    // The task has ended at a value. The one that was divided into it and others, where it was the
    // last of these: it can be lent again.
    pub(crate) fn end(&mut self, task: u64) -> Option<u64> {
        let parent = self.over(task)?;
        let Some(Standing::Waits(open)) = self.standing(parent) else {
            return None;
        };
        self.trim();
        if open > 1 {
            self.stand(parent, Standing::Waits(open - 1));
            return None;
        }
        self.stand(parent, Standing::Free);
        Some(parent)
    }

    // The task has come to a throw, or its part isn't to be reached. The one that was divided into
    // it and others goes on alone, and can be lent again; the others are given up.
    pub(crate) fn cut(&mut self, task: u64) -> Option<u64> {
        let parent = self.over(task)?;
        let Some(Standing::Waits(_)) = self.standing(parent) else {
            return None;
        };
        for other in parent.saturating_add(1)..self.all.len() as u64 {
            if self.is_below(other, parent) {
                self.give_up(other);
            }
        }
        self.stand(parent, Standing::Free);
        self.trim();
        Some(parent)
    }

    // A task is over. The one that was divided into it and others, if one was.
    fn over(&mut self, task: u64) -> Option<u64> {
        self.stand(task, Standing::Ended);
        self.release(task);
        let it = self.all.get(task as usize)?;
        Some(it.parent? as u64)
    }

    // Whether a task's part stands in that of another one.
    fn is_below(&self, task: u64, outer: u64) -> bool {
        let Some(it) = self.all.get(task as usize) else {
            return false;
        };
        let Some(around) = self.all.get(outer as usize) else {
            return false;
        };
        begins_with(it.path.0.as_slice(), around.path.0.as_slice())
    }

    // A task is no more one; who has it will be told.
    fn give_up(&mut self, task: u64) {
        let standing = match self.standing(task) {
            Some(Standing::Lent) => Standing::Gone,
            Some(Standing::Gone) => Standing::Gone,
            _ => Standing::Ended,
        };
        self.stand(task, standing);
        self.release(task);
    }

    // Lets the last tasks go that have ended. Their numbers are given again.
    fn trim(&mut self) {
        for _each in 0..self.all.len() {
            if !self.last_has_ended() {
                return;
            }
            let _ = self.all.pop();
        }
    }

    fn last_has_ended(&self) -> bool {
        match self.all.last() {
            Some(it) => it.standing == Standing::Ended,
            None => false,
        }
    }

    // The task waits for new ones, into which it is divided. The number of the first of them; none
    // where its path is too long.
    pub(crate) fn divide(
        &mut self,
        alloc: Global,
        task: u64,
        division: &Division,
    ) -> Result<Option<u64>, Memory> {
        let first = self.all.len() as u64;
        let count = division.numbers.len() as u64;
        let Some(it) = self.all.get(task as usize) else {
            return Ok(None);
        };
        if it.path.0.len().saturating_add(division.path.0.len()) >= LONGEST {
            return Ok(None);
        }
        for number in division.numbers.as_slice() {
            let path = below(alloc, &self.all, task, division, *number)?;
            self.add(path, Some(task as usize))?;
        }
        for part in first..self.all.len() as u64 {
            self.stand(part, Standing::Free);
        }
        self.stand(task, Standing::Waits(count));
        self.release(task);
        Ok(Some(first))
    }

    // Where its legs are short no task is lent from now on; the book ends once those that are lent
    // have come back.
    pub(crate) fn retire_if(&mut self, short: bool) {
        if !short {
            return;
        }
        self.retired = true;
        for task in 0..self.all.len() {
            if self.standing(task as u64) == Some(Standing::Free) {
                self.stand(task as u64, Standing::Idle(usize::MAX));
            }
        }
    }

    // The task stands so from now on.
    fn stand(&mut self, task: u64, standing: Standing) {
        let standing = if self.retired && standing == Standing::Free {
            Standing::Idle(usize::MAX)
        } else {
            standing
        };
        let Some(it) = self.all.get_mut(task as usize) else {
            return;
        };
        match it.standing {
            Standing::Free => self.free = self.free.saturating_sub(1),
            Standing::Lent => self.lent = self.lent.saturating_sub(1),
            Standing::Idle(_) => self.idle = self.idle.saturating_sub(1),
            _ => {}
        }
        match standing {
            Standing::Free => self.free = self.free.saturating_add(1),
            Standing::Lent => self.lent = self.lent.saturating_add(1),
            Standing::Idle(_) => self.idle = self.idle.saturating_add(1),
            _ => {}
        }
        it.standing = standing;
    }
}

// Whether a path begins with another one, or is that.
fn begins_with(path: &[u32], outer: &[u32]) -> bool {
    if path.len() < outer.len() {
        return false;
    }
    for i in 0..outer.len() {
        if path[i] != outer[i] {
            return false;
        }
    }
    true
}

// The path of a part of this number, of the form at a path below a task.
fn below(
    alloc: Global,
    all: &Vec<Task>,
    task: u64,
    division: &Division,
    number: u32,
) -> Result<Path, Memory> {
    let mut path = List::new(alloc);
    if let Some(it) = all.get(task as usize) {
        path.push_slice(it.path.0.as_slice())?;
    }
    path.push_slice(division.path.0.as_slice())?;
    path.push(number)?;
    Ok(Path(path))
}
