//! Methods of a value that is called by turns.
ghost use Rattle.std.specs.Prelude.{◌≡◌, ◌+◌, ◌<◌, ◌≤◌, [], ◌∷◌, ◌++◌};

use crate::storied::Storied;

/// A call on a value, with its arguments. It adds one entry to the history, and takes one place of the room at most.
pub trait Method<S: Storied> {
    /// What the call answers.
    type Answer;

    /// The entry of the call with this answer.
    ghost entry: { Self → Self.Answer → S.Entry };

    /// Makes the call.
    fn call(self, value: &mut S) -> Self::Answer
        requires room { 0 < S.room value.old }
        ensures opening { S.opening value.new ≡ S.opening value.old }
        ensures history { S.history value.new ≡ S.history value.old ++ entry self result ∷ [] }
        ensures room { S.room value.old ≤ S.room value.new + 1 };
}
