//! A ticket lock that knows the history of its value.
//!
//! Threads share a [`Turn`] and make their calls on its value one at a time, in the order of the tickets that they draw.
//! Each thread has a [`Pass`], which knows the history that it has seen and the calls that it made.
//! A call is in three parts, and stands in the history from the step of `put` on that calls the next number:
//!
//! ```text
//! let mut held = turn.take(rt, &mut pass);
//! let answer = held.value().method();
//! turn.put(&mut pass, held);
//! ```
//!
//! [`Turn::call`] does these three for a [`Method`].
//!
//! Nothing is said of progress: not that a turn comes, nor when.
#![tactic(auto)]

mod held;
mod known;
mod method;
mod pass;
mod plays;
mod rule;
mod storied;
mod turn;

pub use held::Held;
pub use known::Known;
pub use method::Method;
pub use pass::Pass;
pub use storied::Storied;
pub use turn::Turn;
