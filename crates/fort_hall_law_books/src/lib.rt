//! What legs of tasks and the books that take them in are to a run. Each law is named by a function
//! that does nothing. The chapter "Books" of docs/THREADS.md.
#![tactic(auto)]

mod book_laws;
mod course_laws;
mod leg_laws;

pub use book_laws::{
    begins_book, book_completes, book_is_reached, book_throws, finished_is_tried, opens_book,
    output_grows, submits_attempt, submits_steps, suits_is_meets,
};
pub use course_laws::{legs_keep, task_is_in_reach, task_may_go};
pub use leg_laws::{
    leg_is_legs, legs_append, legs_lift, legs_reach, legs_run, legs_take_attempt, legs_take_steps,
    stepped_is_framed, stepped_lifts, tried_is_framed, tried_lifts, tried_runs,
};
