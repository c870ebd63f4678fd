/// Where a leg begins: the worker, the number of attempts round the task, and the task's place
/// among the threads of its group, counted from 1, or 0 for a task that is in no group.
#[derive(Clone, Copy, Debug, PartialEq, Eq)]
pub struct Point {
    pub worker: u32,
    pub depth: u32,
    pub child: u32,
}

/// What is told of each leg as it begins; it has no answer and no meaning, and may hold the leg up.
pub trait Gate {
    fn at(&self, point: Point);
}

/// The gate that does nothing.
#[derive(Clone, Copy, Debug, PartialEq, Eq)]
pub struct IdleGate;

impl Gate for IdleGate {
    fn at(&self, _point: Point) {}
}
