//! Questions.
ghost use Rattle.std.specs.Prelude.{◌≡◌, ◌+◌, ℕ, IfOk, None, OnErr, OnOk};
ghost use Rattle.ba_judge.specs.Judging.{effort_in};
ghost use Rattle.ba_judge.specs.Shelves.{Learns};
ghost use Rattle.ba_live.specs.Askers.{with_line};
ghost use Rattle.ba_live.specs.Books.{Expects, LeavesAll, MayAsk, Opens, asked_at, many_open, open_at};
ghost use Rattle.ba_live.specs.Steps.{DecidesAsk, SaysContradiction, Stays};
ghost use Rattle.ba_live.specs.Wellformed.{IsLive};
ghost use Rattle.ba_live.specs.declared.open.Open.{Open};

use crate::decision::{Decision, Refusal};
use crate::live::Live;
use crate::open::{Asked, MAX_OPEN_ASKS};
use crate::step::refused;
use ba_judge::{Asking, Judgement, Reason, judge};
use ba_model::{Duplicate, Failure, Query, Shared, Str};
use ba_send::{Unsendable, sent_text};
use ba_settle::Settle;
use ba_sql_query::read_query;
use std::alloc::{AllocError, Global};

// Whether it says that what was told contradicts itself.
fn is_contradiction(reason: &Reason) -> bool
    ensures { SaysContradiction result reason.now }
{
    matches!(reason, Reason::Contradiction(_))
}

impl Live {
    /// The question is judged after what its request was told.
    #[tactic(auto, using(crate::proofs::LiveLemmas::same_shelves))]
    pub(crate) fn ask<S: Settle>(
        &mut self,
        alloc: Global,
        settle: &S,
        line: u64,
        name: &Str,
        text: &Str,
    ) -> Result<Decision, AllocError>
        requires live { IsLive line self.old }
        ensures decides { IfOk result (λ it. DecidesAsk
            (effort_in (S.orders settle.now) self.old.budget) line name.now text.now it
            self.old self.new) }
        ensures err { OnErr result (LeavesAll self.old self.new) }
        ensures same { Stays self.old self.new }
        ensures learns { Learns self.old.shelves self.new.shelves }
        ensures live { IsLive (line + 1) self.new }
    {
        let Some(open) = self.requests.get(name) else {
            return Ok(refused(Refusal::Unbegun));
        };
        if open.closed {
            return Ok(refused(Refusal::Closed));
        }
        if open.asks >= MAX_OPEN_ASKS {
            return Ok(refused(Refusal::Asks));
        }
        let params = &self.policy.params;
        let query = match read_query(alloc, &self.policy.schema, params, text.as_str()) {
            Ok(query) => Shared::new(alloc, query)?,
            Err(Failure::Fault(fault)) => {
                self.requests.count(name, 1);
                return Ok(Decision::Unread(fault));
            }
            Err(Failure::NoMemory) => return Err(AllocError),
        };
        let send = match sent_text(alloc, &self.target, &self.policy, &open.context, &query) {
            Ok(text) => Str::from_string(text),
            Err(Failure::Fault(Unsendable::NullTest)) => return Ok(refused(Refusal::NullTest)),
            Err(Failure::Fault(Unsendable::ZeroByte)) => return Ok(refused(Refusal::ZeroByte)),
            Err(Failure::Fault(Unsendable::TooLong)) => return Ok(refused(Refusal::LongSend)),
            Err(Failure::NoMemory) => return Err(AllocError),
        };
        let asking = Asking {
            policy: &self.policy,
            context: &open.context,
            trace: &open.trace,
            query: &query,
        };
        let judgement = judge(alloc, &asking, &mut self.shelves, settle, self.budget)?;
        match judgement {
            Judgement::Allowed(by) => {
                self.expect(alloc, line, name, query)?;
                Ok(Decision::Allowed { by, send })
            }
            Judgement::Blocked(reason) => {
                if is_contradiction(&reason) {
                    self.requests.shut(name);
                    return Ok(Decision::Contradiction);
                }
                self.requests.count(name, 1);
                Ok(Decision::Blocked(reason))
            }
        }
    }

    // The open request has asked the question of this line, which may be told.
    fn expect(
        &mut self,
        alloc: Global,
        line: u64,
        name: &Str,
        query: Shared<Query>,
    ) -> Result<(), AllocError>
        requires may { MayAsk 1 name.now self.old.requests }
        requires fresh { asked_at self.old line ≡ None }
        ensures expects { OnOk result (Expects line
            (Some (record { name = name.now; query = query }))
            self.old.questions self.new.questions) }
        ensures opens { OnOk result ((asker : Open) → open_at self.old name.now ≡ Some asker
            → Opens name.now (Some (with_line line asker)) self.old.requests self.new.requests) }
        ensures err { OnErr result (LeavesAll self.old self.new) }
        ensures same { Stays self.old self.new }
        ensures shelves { self.new.shelves ≡ self.old.shelves }
        ensures many { many_open self.new.requests ≡ many_open self.old.requests }
    {
        let asked = Asked {
            name: name.copy(alloc)?,
            query,
        };
        self.questions.expect(line, asked)?;
        if self.requests.expect(name, line).is_err() {
            self.questions.forget(line);
            return Err(AllocError);
        }
        Ok(())
    }
}
