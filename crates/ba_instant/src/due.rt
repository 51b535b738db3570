//! The due step of a branch, and of all open branches.
ghost use Rattle.std.specs.Prelude.{◌≡◌, ◌↔◌, [], IfOk, IsTrue, None, OnOk, Some};
ghost use Rattle.ba_kernel.specs.Courses.{IsOpen};
ghost use Rattle.ba_instant.specs.Agendas.{AreOlder, IsAgendaAt};
ghost use Rattle.ba_instant.specs.Loose.{IsQuietBeside};
ghost use Rattle.ba_facts.specs.declared.branch.Branch.{Branch as ABranch};
ghost use Rattle.ba_instant.specs.Scans.{ImprovesBy, IsScan};
ghost use Rattle.ba_instant.specs.ToldSteps.{AreRemembered};
ghost use Rattle.ba_instant.specs.Windows.{IsQuietUpto};
ghost use Rattle.ba_instant.specs.Nexts.{AreQuietBeside, AreToldOn, AreWaiting, ComesLater, FindsOn, IsAgendaOn, IsDueOnIt, IsLooked, IsNext, IsOpenOne, Waits, first_step};
ghost use Rattle.ba_instant.specs.Offers.{IsByMapping, IsClosing, IsTaught, IsTelling, NoneCloses};

use crate::agenda::Agenda;
use crate::batch::Batch;
use crate::memory::Memory;
use crate::recent::{first_recent, recent_facts};
use crate::scan::{NewStep, Scan};
use crate::told::Told;
use crate::waiting::Waiting;
use ba_facts::Branch;
use ba_kernel::{Search, Step};
use ba_settle::Pick;
use std::alloc::{AllocError, Global};
use std::cmp::Ordering;

/// A due step with its round, and the agenda of its branch.
#[derive(Drop)]
pub struct Due {
    pub found: NewStep,
    pub agenda: Agenda,
}

/// What a search does next.
#[derive(Drop)]
pub enum Next {
    /// No branch is open.
    Closed,
    /// The branch of the number has no new step.
    Saturated(u32),
    /// Takes the step.
    Take(Due),
}

impl<'a> Scan<'a> {
    /// Offers the steps that close the branch.
    fn offer_closing(&self, best: &mut Option<Batch>) -> Result<(), AllocError>
        requires { IsScan self.now }
        ensures { OnOk result (ImprovesBy self.now (IsClosing self.now.number) best.old best.new) }
    {
        let absurd = Step::Absurd {
            branch: self.number,
        };
        self.offer(absurd, best)?;
        self.offer_goals(best)?;
        Ok(())
    }

    /// Offers the steps that tell the branch something. Links come before keys, since a link that
    /// is found early leaves few pairs of facts to be looked at.
    fn offer_telling(&self, best: &mut Option<Batch>) -> Result<(), AllocError>
        requires { IsScan self.now }
        ensures { OnOk result (ImprovesBy self.now (IsTelling self.now.number) best.old best.new) }
    {
        self.offer_entries(best)?;
        self.offer_links(best)?;
        self.offer_taught(best)?;
        self.offer_splits(best)?;
        Ok(())
    }

    /// Offers the steps by keys, rules and views.
    fn offer_taught(&self, best: &mut Option<Batch>) -> Result<(), AllocError>
        requires { IsScan self.now }
        ensures { OnOk result (ImprovesBy self.now (IsTaught self.now.number) best.old best.new) }
    {
        self.offer_keys(best)?;
        self.offer_mapped(best)?;
        Ok(())
    }

    /// Offers the steps by rules and views.
    fn offer_mapped(&self, best: &mut Option<Batch>) -> Result<(), AllocError>
        requires { IsScan self.now }
        ensures { OnOk result
            (ImprovesBy self.now (IsByMapping self.now.number) best.old best.new) }
    {
        self.offer_rules(best)?;
        self.offer_views(best)?;
        Ok(())
    }
}

/// An open branch, by number, and what is told there.
#[derive(Clone, Copy)]
pub struct OpenBranch<'a> {
    pub search: &'a Search,
    pub branch: &'a Branch,
    pub number: u32,
    pub pick: Pick,
    pub told: &'a Told,
}

impl OpenBranch<'_> {
    /// The branch's due step with its round, if it has one. The agenda is that of the branch.
    fn due_step(&self, alloc: Global, agenda: &mut Agenda) -> Result<Option<NewStep>, AllocError>
        requires open { IsOpenOne self.now }
        requires told { AreToldOn self.now }
        requires agenda { IsAgendaOn self.now agenda.old }
        ensures due { IfOk result (IsDueOnIt self.now) }
        ensures agenda { OnOk result (IsAgendaOn self.now agenda.new) }
    {
        if agenda.silent {
            return self.telling_step(alloc, agenda);
        }
        let closing = self.closing_steps(alloc)?;
        match closing {
            Some(batch) => self.first_of(alloc, batch),
            None => self.telling_step(alloc, agenda),
        }
    }

    /// The new steps that close the branch.
    fn closing_steps(&self, alloc: Global) -> Result<Option<Batch>, AllocError>
        requires open { IsOpenOne self.now }
        requires told { AreToldOn self.now }
        ensures { IfOk result (FindsOn self.now (IsClosing self.now.number)) }
    {
        let recent = recent_facts(alloc, self.branch, 0, 0)?;
        let scan = Scan {
            alloc,
            search: self.search,
            branch: self.branch,
            number: self.number,
            pick: self.pick,
            quiet: 0,
            recent: &recent,
            told: self.told,
        };
        let mut best = None;
        scan.offer_closing(&mut best)?;
        Ok(best)
    }

    /// The new steps by rules and views of the least round.
    fn mapped_steps(&self, alloc: Global) -> Result<Option<Batch>, AllocError>
        requires open { IsOpenOne self.now }
        requires told { AreToldOn self.now }
        ensures { IfOk result (FindsOn self.now (IsByMapping self.now.number)) }
    {
        let recent = recent_facts(alloc, self.branch, 0, 0)?;
        let scan = Scan {
            alloc,
            search: self.search,
            branch: self.branch,
            number: self.number,
            pick: self.pick,
            quiet: 0,
            recent: &recent,
            told: self.told,
        };
        let mut best = None;
        scan.offer_mapped(&mut best)?;
        Ok(best)
    }

    /// The first of the steps that close the branch.
    fn first_of(&self, alloc: Global, batch: Batch) -> Result<Option<NewStep>, AllocError>
        requires open { IsOpenOne self.now }
        requires closing { FindsOn self.now (IsClosing self.now.number) (Some batch) }
        ensures { IfOk result (IsDueOnIt self.now) }
    {
        let agenda = Agenda::of(self.pick, batch)?;
        let first = agenda.first(alloc)?;
        Ok(first)
    }

    /// The due step, where none closes the branch.
    fn telling_step(
        &self,
        alloc: Global,
        agenda: &mut Agenda,
    ) -> Result<Option<NewStep>, AllocError>
        requires open { IsOpenOne self.now }
        requires told { AreToldOn self.now }
        requires closing { NoneCloses self.now.search.now self.now.number }
        requires agenda { IsAgendaOn self.now agenda.old }
        ensures due { IfOk result (IsDueOnIt self.now) }
        ensures agenda { OnOk result (IsAgendaOn self.now agenda.new) }
    {
        agenda.silent = true;
        agenda.drop_old(alloc, self.search);
        let first = agenda.first(alloc)?;
        match first {
            Some(found) => Ok(Some(found)),
            None => self.next_round(alloc, agenda),
        }
    }

    /// The due step, where nothing is left of the agenda. It is filled again.
    fn next_round(&self, alloc: Global, agenda: &mut Agenda) -> Result<Option<NewStep>, AllocError>
        requires open { IsOpenOne self.now }
        requires told { AreToldOn self.now }
        requires closing { NoneCloses self.now.search.now self.now.number }
        requires agenda { IsAgendaOn self.now agenda.old }
        requires empty { agenda.old.steps.items ≡ [] }
        ensures due { IfOk result (IsDueOnIt self.now) }
        ensures agenda { OnOk result (IsAgendaOn self.now agenda.new) }
    {
        let quiet = agenda.round.min(u32::MAX as u64) as u32;
        let older = first_recent(self.branch, agenda.older, quiet)?;
        let telling = self.telling_steps(alloc, older, quiet)?;
        match telling {
            Some(batch) => {
                *agenda = Agenda::of(self.pick, batch)?;
                agenda.older = older;
                agenda.silent = true;
                let first = agenda.first(alloc)?;
                Ok(first)
            }
            None => Ok(None),
        }
    }

    /// The new steps of the least round that tell the branch something. It is past this one. The
    /// facts of a lesser number than `older` are of a lesser round.
    fn telling_steps(
        &self,
        alloc: Global,
        older: u32,
        quiet: u32,
    ) -> Result<Option<Batch>, AllocError>
        requires open { IsOpenOne self.now }
        requires told { AreToldOn self.now }
        requires quiet { IsQuietUpto self.now.search.now.problem self.now.branch.now self.now.number
            quiet }
        requires older { AreOlder self.now.branch.now older quiet }
        ensures { IfOk result (FindsOn self.now (IsTelling self.now.number)) }
    {
        let recent = recent_facts(alloc, self.branch, older, quiet)?;
        let scan = Scan {
            alloc,
            search: self.search,
            branch: self.branch,
            number: self.number,
            pick: self.pick,
            quiet,
            recent: &recent,
            told: self.told,
        };
        let mut best = None;
        scan.offer_telling(&mut best)?;
        Ok(best)
    }
}

/// Keeps both branches of a split as quiet as they are, if no step by a rule or a view is new there
/// up to the round.
pub fn keep_quiet(
    alloc: Global,
    search: &Search,
    pick: Pick,
    round: u64,
    waiting: &mut Waiting,
) -> Result<(), AllocError>
    requires waiting { AreWaiting pick search.now waiting.old }
    requires quiet { AreQuietBeside search.now waiting.old round }
    ensures { OnOk result (AreWaiting pick search.now waiting.new) }
{
    if round == 0 {
        return Ok(());
    }
    let agenda = quiet_agenda(alloc, search, pick, &waiting.memory, waiting.but, round)?;
    let next = quiet_agenda(alloc, search, pick, &waiting.memory, waiting.below, round)?;
    waiting.agenda = agenda;
    waiting.next = next;
    Ok(())
}

/// An agenda of the branch, on which up to the round nothing is new but, maybe, by rules and views.
fn quiet_agenda(
    alloc: Global,
    search: &Search,
    pick: Pick,
    memory: &Memory,
    number: u32,
    round: u64,
) -> Result<Agenda, AllocError>
    requires quiet { (b : ABranch) → IsOpen search.now.slots number b
        → IsQuietBeside search.now.problem b number round }
    requires memory { AreRemembered search.now memory.now }
    ensures { IfOk result (IsAgendaAt pick search.now number) }
{
    match search.branch(number) {
        None => Ok(Agenda::none(alloc)),
        Some(branch) => {
            let open_branch = OpenBranch {
                search,
                branch,
                number,
                pick,
                told: memory.of(number),
            };
            let mapped = open_branch.mapped_steps(alloc)?;
            Ok(Agenda::quiet(alloc, round, &mapped))
        }
    }
}

/// What the search does next: it takes the step that is picked of all due ones, as long as a branch
/// is open and each open branch has a new step.
///
/// The branches that wait have a new step, and need not be looked at once the step is found.
pub fn next_step(
    alloc: Global,
    search: &Search,
    pick: Pick,
    waiting: &mut Waiting,
) -> Result<Next, AllocError>
    requires { AreWaiting pick search.now waiting.old }
    ensures next { IfOk result (IsNext pick search.now) }
    ensures waiting { OnOk result (AreWaiting pick search.now waiting.new) }
{
    let mut first = None;
    for number in 0..search.branches() {
        let saturated = look_at(alloc, search, pick, waiting, number, &mut first)?;
        if saturated {
            return Ok(Next::Saturated(number));
        }
    }
    match first {
        Some(due) => Ok(Next::Take(due)),
        None => Ok(Next::Closed),
    }
}

/// Keeps the branch's due step, if it is picked earlier than the one so far; and tells whether the
/// branch is saturated.
fn look_at(
    alloc: Global,
    search: &Search,
    pick: Pick,
    waiting: &mut Waiting,
    number: u32,
    first: &mut Option<Due>,
) -> Result<bool, AllocError>
    requires { AreWaiting pick search.now waiting.old }
    ensures looked { IfOk result (λ it. IsLooked pick search.now number it first.old first.new) }
    ensures waiting { OnOk result (AreWaiting pick search.now waiting.new) }
{
    if may_wait(pick, waiting, number, first) {
        return Ok(false);
    }
    match search.branch(number) {
        None => Ok(false),
        Some(branch) => {
            let mut agenda = waiting.take_agenda(alloc, number);
            let open_branch = OpenBranch {
                search,
                branch,
                number,
                pick,
                told: waiting.memory.of(number),
            };
            let due = open_branch.due_step(alloc, &mut agenda)?;
            match due {
                None => Ok(true),
                Some(found) => {
                    keep_picked(pick, Due { found, agenda }, first);
                    Ok(false)
                }
            }
        }
    }
}

/// Whether the branch waits, and a step of a branch before was found.
fn may_wait(pick: Pick, waiting: &Waiting, number: u32, first: &Option<Due>) -> bool
    ensures { IsTrue result ↔ (ComesLater pick first.now × Waits waiting.now number) }
{
    comes_later(pick, first) && waiting.has(number)
}

/// Whether a step of a branch before was found, so that no step of another is picked before it.
fn comes_later(pick: Pick, first: &Option<Due>) -> bool
    ensures { IsTrue result ↔ ComesLater pick first.now }
{
    match (pick, first) {
        (Pick::First, Some(_)) => true,
        _ => false,
    }
}

/// Keeps the one of the two whose step is picked earlier.
fn keep_picked(pick: Pick, due: Due, first: &mut Option<Due>)
    ensures { first.new ≡ first_step pick first.old due }
{
    let is_first = match first {
        Some(old) => pick.compare(&old.found.step, &due.found.step) == Ordering::Greater,
        None => true,
    };
    if is_first {
        *first = Some(due);
    }
}
