//! Whether a question may be answered after what a request was told: as a whole, or part by part.
//! Nothing is answered here.
#![tactic(auto)]

mod absurd;
mod asking;
mod keep;
mod key;
mod reading;
mod shelves;
mod union;
mod verdict;
mod whole;

pub use asking::Asking;
pub use reading::{Read, Reading, judge_read};
pub use shelves::Shelves;
pub use union::judge;
pub use verdict::{Allowed, By, Judgement, Reason};
