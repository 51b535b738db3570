//! What is known of branches from the step before.
ghost use Rattle.std.specs.Prelude.{◌≡◌, ◌↔◌, IfOk, IsTrue, length};
ghost use Rattle.ba_kernel.specs.Courses.{branch_of};
ghost use Rattle.ba_kernel.specs.SearchStates.{Course};
ghost use Rattle.ba_instant.specs.Agendas.{IsAgendaAt, IsNone};
ghost use Rattle.ba_instant.specs.Nexts.{AreWaiting, Waits};
ghost use Rattle.ba_instant.specs.ToldSteps.{AreRemembered};
ghost use Rattle.ba_settle.specs.declared.order.Pick.{Pick};

use crate::agenda::Agenda;
use crate::memory::Memory;
use ba_kernel::{Search, Step};
use std::alloc::{AllocError, Global};
use std::mem;

/// The branches that wait: those of a number below the bound but one, of which each that is open
/// has a new step. The one that doesn't wait has the agenda, and the first from the bound on has
/// one too. What is told on each branch is remembered.
#[derive(Drop)]
pub struct Waiting {
    pub below: u32,
    pub but: u32,
    pub agenda: Agenda,
    pub next: Agenda,
    pub memory: Memory,
}

impl Waiting {
    /// None.
    pub fn none(alloc: Global, search: &Search) -> Result<Waiting, AllocError>
        ensures below { IfOk result (λ it. it.below ≡ 0) }
        ensures agenda { IfOk result (λ it. IsNone it.agenda) }
        ensures next { IfOk result (λ it. IsNone it.next) }
        ensures memory { IfOk result (λ it. AreRemembered search.now it.memory) }
    {
        let memory = Memory::none(alloc, search)?;
        Ok(Waiting {
            below: 0,
            but: 0,
            agenda: Agenda::none(alloc),
            next: Agenda::none(alloc),
            memory,
        })
    }

    /// All but that of the step, which has the agenda.
    pub fn beside(
        alloc: Global,
        search: &Search,
        step: &Step,
        agenda: Agenda,
        memory: Memory,
    ) -> Waiting
        ensures below { result.below ≡ length search.now.slots }
        ensures but { result.but ≡ branch_of step.now }
        ensures agenda { result.agenda ≡ agenda }
        ensures next { IsNone result.next }
        ensures memory { result.memory ≡ memory }
    {
        Waiting {
            below: search.branches(),
            but: step.branch(),
            agenda,
            next: Agenda::none(alloc),
            memory,
        }
    }

    /// Whether the branch waits.
    pub fn has(&self, number: u32) -> bool
        ensures { IsTrue result ↔ Waits self.now number }
    {
        number < self.below && number != self.but
    }

    /// Takes the branch's agenda out.
    pub fn take_agenda(&mut self, alloc: Global, number: u32) -> Agenda
        ensures agenda { (pick : Pick) (c : Course) → AreWaiting pick c self.old
            → IsAgendaAt pick c number result }
        ensures waiting { (pick : Pick) (c : Course) → AreWaiting pick c self.old
            → AreWaiting pick c self.new }
    {
        let none = Agenda::none(alloc);
        if number == self.but {
            mem::replace(&mut self.agenda, none)
        } else {
            self.take_next(number, none)
        }
    }

    /// Takes the agenda of the first branch from the bound on out, if it is the number's, and puts
    /// the one without steps in its place.
    fn take_next(&mut self, number: u32, none: Agenda) -> Agenda
        requires { IsNone none }
        ensures agenda { (pick : Pick) (c : Course) → AreWaiting pick c self.old
            → IsAgendaAt pick c number result }
        ensures waiting { (pick : Pick) (c : Course) → AreWaiting pick c self.old
            → AreWaiting pick c self.new }
    {
        if number == self.below {
            mem::replace(&mut self.next, none)
        } else {
            none
        }
    }
}
