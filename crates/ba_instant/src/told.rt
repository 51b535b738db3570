//! Steps that tell a branch nothing any more, and needn't be asked for again.
ghost use Rattle.std.specs.Prelude.{◌≡◌, ◌⊎◌, [], Contains, IfOk, IsTrue, OnOk};
ghost use Rattle.ba_instant.specs.ToldSteps.{AddsStep};

use crate::mapped::Form;
use ba_kernel::Step;
use ba_model::{Duplicate, List};
use std::alloc::{AllocError, Global};
use std::cmp::Ordering;
use std::mem;

/// An entry, by its number.
#[derive(Clone, Copy, Debug, PartialEq, Eq, PartialOrd, Ord)]
pub struct ToldEntry {
    pub entry: u64,
}

/// A link of a fact.
#[derive(Clone, Copy, Debug, PartialEq, Eq, PartialOrd, Ord)]
pub struct ToldLink {
    pub fact: u32,
    pub link: u32,
}

/// Facts that a part of a rule or a view is mapped to.
#[derive(Drop)]
pub struct ToldMapping {
    pub form: Form,
    pub facts: List<u32>,
}

/// Steps by entries, links, rules and views that tell a branch nothing any more. Each list is kept
/// in order, so that a look-up is by halving.
#[derive(Drop)]
pub struct Told {
    pub entries: List<ToldEntry>,
    pub links: List<ToldLink>,
    pub mappings: List<ToldMapping>,
}

impl Duplicate for ToldEntry {
    fn copy(&self, _alloc: Global) -> Result<ToldEntry, AllocError> {
        Ok(*self)
    }
}

impl Duplicate for ToldLink {
    fn copy(&self, _alloc: Global) -> Result<ToldLink, AllocError> {
        Ok(*self)
    }
}

impl Duplicate for ToldMapping {
    fn copy(&self, alloc: Global) -> Result<ToldMapping, AllocError> {
        Ok(ToldMapping {
            form: self.form,
            facts: self.facts.copy(alloc)?,
        })
    }
}

impl Duplicate for Told {
    fn copy(&self, alloc: Global) -> Result<Told, AllocError> {
        let entries = self.entries.copy(alloc)?;
        let links = self.links.copy(alloc)?;
        let mappings = self.mappings.copy(alloc)?;
        Ok(Told {
            entries,
            links,
            mappings,
        })
    }
}

impl ToldMapping {
    /// Whether it comes before the form's step on the facts.
    fn is_before(&self, form: Form, facts: &[usize]) -> bool {
        match self.form.cmp(&form) {
            Ordering::Less => true,
            Ordering::Equal => are_before(self.facts.as_slice(), facts),
            Ordering::Greater => false,
        }
    }

    /// The same order between two of these.
    fn comes_before(&self, other: &ToldMapping) -> bool {
        match self.form.cmp(&other.form) {
            Ordering::Less => true,
            Ordering::Equal => self.facts.as_slice().cmp(other.facts.as_slice()).is_lt(),
            Ordering::Greater => false,
        }
    }

    fn is_of(&self, form: Form, facts: &[usize]) -> bool
        ensures { IsTrue result → (self.now.form ≡ form) × (self.now.facts ≡ facts.now) }
    {
        self.form == form && are_same(self.facts.as_slice(), facts)
    }
}

/// Whether the one list comes first: by the first two numbers that differ, else the shorter one.
fn are_before(one: &[u32], other: &[usize]) -> bool {
    match (one.split_first(), other.split_first()) {
        (Some((a, ones)), Some((b, others))) => {
            let number = *a as usize;
            number < *b || (number == *b && are_before(ones, others))
        }
        (None, Some(_)) => true,
        _ => false,
    }
}

fn are_same(one: &[u32], other: &[usize]) -> bool
    ensures { IsTrue result → one.now ≡ other.now }
{
    match (one.split_first(), other.split_first()) {
        (Some((a, ones)), Some((b, others))) => *a as usize == *b && are_same(ones, others),
        (None, None) => true,
        _ => false,
    }
}

/// Puts the element in at the place, or at the end if that comes first.
fn insert<T: Drop>(alloc: Global, list: &mut List<T>, place: usize, it: T) -> Result<(), AllocError>
    ensures { OnOk result
        ((x : T) → Contains list.new x → Contains list.old x ⊎ (it ≡ x)) }
{
    let mut items = mem::replace(list, List::new(alloc)).into_vec();
    let place = place.min(items.len());
    items.insert(place, it)?;
    *list = List::from_vec(items);
    Ok(())
}

impl Told {
    /// No step.
    pub fn none(alloc: Global) -> Told
        ensures { result ≡ record { entries = []; links = []; mappings = [] } }
    {
        Told {
            entries: List::new(alloc),
            links: List::new(alloc),
            mappings: List::new(alloc),
        }
    }

    /// Whether the entry's step is one of these.
    pub fn has_entry(&self, entry: u64) -> bool
        ensures { IsTrue result → Contains self.now.entries (record { entry = entry }) }
    {
        let sought = ToldEntry { entry };
        match self.entries.find(self.entry_place(sought)) {
            Some(it) => *it == sought,
            None => false,
        }
    }

    /// Whether the link's step is one of these.
    pub fn has_link(&self, fact: u32, link: u32) -> bool
        ensures { IsTrue result
            → Contains self.now.links (record { fact = fact; link = link }) }
    {
        let sought = ToldLink { fact, link };
        match self.links.find(self.link_place(sought)) {
            Some(it) => *it == sought,
            None => false,
        }
    }

    /// Whether the step of the form on the facts is one of these.
    pub fn has_mapping(&self, form: Form, facts: &[usize]) -> bool
        ensures { IsTrue result
            → Contains self.now.mappings (record { form = form; facts = facts.now }) }
    {
        match self.mappings.find(self.mapping_place(form, facts)) {
            Some(it) => it.is_of(form, facts),
            None => false,
        }
    }

    /// Adds the step, if it is by an entry, a link, a rule or a view.
    pub fn add(&mut self, alloc: Global, step: Step) -> Result<(), AllocError>
        ensures { OnOk result (AddsStep step self.old self.new) }
    {
        match step {
            Step::Entry { entry, .. } => self.add_entry(alloc, ToldEntry { entry }),
            Step::Link { link, fact, .. } => self.add_link(alloc, ToldLink { fact, link }),
            Step::Rule {
                rule,
                part,
                facts,
                ..
            } => {
                let form = Form::OfRule { rule, part };
                self.add_mapping(alloc, ToldMapping { form, facts })
            }
            Step::View {
                view,
                part,
                facts,
                ..
            } => {
                let form = Form::OfView { view, part };
                self.add_mapping(alloc, ToldMapping { form, facts })
            }
            _ => Ok(()),
        }
    }

    fn add_entry(&mut self, alloc: Global, it: ToldEntry) -> Result<(), AllocError>
        ensures entries { OnOk result ((x : ToldEntry) → Contains self.new.entries x
            → Contains self.old.entries x ⊎ (it ≡ x)) }
        ensures links { OnOk result (self.new.links ≡ self.old.links) }
        ensures mappings { OnOk result (self.new.mappings ≡ self.old.mappings) }
    {
        let place = self.entry_place(it);
        insert(alloc, &mut self.entries, place, it)
    }

    fn add_link(&mut self, alloc: Global, it: ToldLink) -> Result<(), AllocError>
        ensures links { OnOk result ((x : ToldLink) → Contains self.new.links x
            → Contains self.old.links x ⊎ (it ≡ x)) }
        ensures entries { OnOk result (self.new.entries ≡ self.old.entries) }
        ensures mappings { OnOk result (self.new.mappings ≡ self.old.mappings) }
    {
        let place = self.link_place(it);
        insert(alloc, &mut self.links, place, it)
    }

    fn add_mapping(&mut self, alloc: Global, it: ToldMapping) -> Result<(), AllocError>
        ensures mappings { OnOk result ((x : ToldMapping) → Contains self.new.mappings x
            → Contains self.old.mappings x ⊎ (it ≡ x)) }
        ensures entries { OnOk result (self.new.entries ≡ self.old.entries) }
        ensures links { OnOk result (self.new.links ≡ self.old.links) }
    {
        let place = self.new_place(&it);
        insert(alloc, &mut self.mappings, place, it)
    }

    /// Where the entry stands, or is to stand.
    fn entry_place(&self, it: ToldEntry) -> usize {
        self.entries.as_slice().partition_point(|there| *there < it)
    }

    /// Where the link stands, or is to stand.
    fn link_place(&self, it: ToldLink) -> usize {
        self.links.as_slice().partition_point(|there| *there < it)
    }

    /// Where the mapping is to stand.
    fn new_place(&self, it: &ToldMapping) -> usize {
        self.mappings
            .as_slice()
            .partition_point(|there| there.comes_before(it))
    }

    /// Where the form's facts stand, if they do.
    fn mapping_place(&self, form: Form, facts: &[usize]) -> usize {
        self.mappings
            .as_slice()
            .partition_point(|there| there.is_before(form, facts))
    }
}
