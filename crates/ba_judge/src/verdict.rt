//! What a judgement tells.

use ba_direct::Cover;
use ba_kernel::Step;
use ba_model::{List, Shared};
use ba_refute::{Clause, Counterexample};
use ba_settle::Leaf;
use ba_template::{Match, Template};

/// Why a question is allowed: the evidence.
#[derive(Drop)]
pub enum By {
    /// Views cover the question: one for each part, with a pairing of the tables.
    Cover(Cover),
    /// No views cover it. The template is the first that matches of those that stood on the shelves
    /// for the question's shape, and this is its first match.
    Template {
        template: Shared<Template>,
        found: Match,
    },
    /// No views cover it, no template that stood there matches, and these are the due steps, at most
    /// as many as the budget, that leave no branch of its problem open. Where one of them ends its
    /// branch as absurd, a search of the same budget over the told rows alone ended without a proof
    /// that they contradict each other.
    Proof(List<Step>),
}

/// On what an allowed question rests: on its own evidence, or on that of each part, in their order,
/// as a question of its own.
#[derive(Drop)]
pub enum Allowed {
    Whole(By),
    Parts(List<By>),
    /// The evidence is of the question after the weaker trace ([`ba_weaker::weakened`]), which is
    /// another one than what was told. What is strongly compliant after it is so after what was
    /// told. It is no cover.
    WeakerWhole(By),
    /// The same of each part.
    WeakerParts(List<By>),
}

/// Why a question is blocked, which no views cover and no template that stood there matches: the
/// evidence.
#[derive(Drop)]
pub enum Reason {
    /// The due steps end at a saturated branch, and its image is this: two databases and a row that
    /// show that the question isn't strongly compliant after what was told.
    Refuted(Counterexample),
    /// As many due steps as the budget has. They leave an open branch, and each open branch has a
    /// new step.
    Spent(List<Step>),
    /// The due steps that end at a saturated branch, and the first clause that its image doesn't
    /// meet. Whether the question is strongly compliant isn't known.
    Stuck(Leaf, Clause),
    /// The question is proved by steps that end a branch as absurd, but so are the told rows alone
    /// shown to be in no database: these due steps, at most as many as the budget, do it. From rows that contradict each other anything
    /// follows, so the proof says nothing of the question, and no template of it is kept.
    Contradiction(List<Step>),
}

/// Whether a question may be answered, with the evidence.
#[derive(Drop)]
pub enum Judgement {
    /// It is strongly compliant after what was told. Where that rests on a proof, this ends each
    /// branch at a goal, or a search over the told rows alone shows no contradiction among them;
    /// after the weaker trace, among those of that trace.
    Allowed(Allowed),
    /// It isn't known to be strongly compliant; or it is, as any question is after rows that no
    /// database has.
    Blocked(Reason),
}
