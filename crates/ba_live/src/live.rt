//! The state of a decision service.

use crate::books::{Questions, Requests};
use crate::open::{Asked, Open};
use ba_judge::Shelves;
use ba_model::{Duplicate, List, Policy, Shared, Str};
use ba_target::Target;
use ba_template::Template;
use std::alloc::{AllocError, Global};

/// Requests that may be open at one time.
pub const MAX_OPEN: usize = 8192;

/// Rows that are told of a question.
pub const MAX_TOLD_ROWS: usize = 100_000;

/// The state of a decision service of a policy: the open requests by their names, their allowed
/// questions that may still be told by their lines, and shelves of templates.
#[derive(Drop)]
pub struct Live {
    pub(crate) policy: Shared<Policy>,
    pub(crate) target: Target,
    pub(crate) budget: u32,
    pub(crate) shelves: Shelves,
    pub(crate) requests: Requests,
    pub(crate) questions: Questions,
}

impl Live {
    ghost use Rattle.std.specs.Prelude.{◌≡◌, ◌≤◌, IfOk};
    ghost use Rattle.std.specs.Option.{option_copied};
    ghost use Rattle.ba_model.specs.Limits.{most_budget};
    ghost use Rattle.ba_live.specs.Books.{asked_at, open_at};
    ghost use Rattle.ba_live.specs.Wellformed.{IsFresh, IsLive, IsServable};
    ghost use Rattle.ba_target.specs.Names.{Serves};

    /// A service of the policy in which nothing is open, for questions to this database; its
    /// searches take at most `budget` due steps. The templates are on its shelves, put there in
    /// their order.
    pub fn new(
        alloc: Global,
        policy: Shared<Policy>,
        target: Target,
        loaded: &List<Shared<Template>>,
        budget: u32,
    ) -> Result<Live, AllocError>
        ensures fresh { IfOk result (IsFresh policy target loaded.now budget) }
        ensures live { IsServable policy → Serves target policy.schema → budget ≤ most_budget →
            IfOk result (IsLive 1) }
    {
        let mut shelves = Shelves::new(alloc)?;
        for template in loaded.as_slice() {
            let template = template.copy(alloc)?;
            shelves.admit(template)?;
        }
        Ok(Live {
            policy,
            target,
            budget,
            shelves,
            requests: Requests::new(alloc),
            questions: Questions::new(alloc),
        })
    }

    /// The database that questions are sent to.
    pub fn target(&self) -> &Target
        ensures { result.now ≡ self.now.target }
    {
        &self.target
    }

    /// The policy.
    pub fn policy(&self) -> &Shared<Policy>
        ensures { result.now ≡ self.now.policy }
    {
        &self.policy
    }

    /// What is open under the name.
    pub fn request(&self, name: &Str) -> Option<&Open>
        ensures { option_copied result ≡ open_at self.now name.now }
    {
        self.requests.get(name)
    }

    /// The question of the line that may still be told.
    pub fn question(&self, line: u64) -> Option<&Asked>
        ensures { option_copied result ≡ asked_at self.now line }
    {
        self.questions.get(line)
    }
}
