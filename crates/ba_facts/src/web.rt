//! Numbered terms with their classes, marks and order.
ghost use Rattle.std.specs.Prelude.{◌≡◌, ◌≢◌, ℕ, ℤ, pos, ◌+◌, ◌<◌, ◌≤◌, ◌^◌, ◌++◌, ◌∷◌, [], length, option_to_list, slice_get, slice_set, Contains, IsTrue, ◌↔◌, IfErr, IfOk, OnOk, OnErr, Some, MatchOption};
ghost use Rattle.std.specs.Option.{option_copied};
ghost use Rattle.ba_classes.specs.Chains.{IsAbsurd};
ghost use Rattle.ba_classes.specs.Image.{IsGreatest};
ghost use Rattle.ba_classes.specs.Merged.{IsLabel};
ghost use Rattle.ba_facts.specs.Known.{Known, DifferentLiterals, OneClass, ShownGap, ShownNotNull, ShownNull, seen};
ghost use Rattle.ba_facts.specs.Knowing.{IsBound, IsClashing, IsLeastOf, IsLiteralIn, IsRising, IsThere, LessonIsThere};
ghost use Rattle.ba_facts.specs.Marks.{AreLiterals};
ghost use Rattle.ba_facts.specs.Members.{AreMembers, AreMembersBelow, IsOnlyClass};
ghost use Rattle.ba_facts.specs.Shown.{TheSame};
ghost use Rattle.ba_facts.specs.Telling.{AreThere, CanTell, atom, told};
ghost use Rattle.ba_facts.specs.Webs.{AnyRise, Denies, HasPlace, IsClassMark, IsLevel, IsNumberOf, IsSomeWeb, IsWeb, Joins, KeepsOrder, PlaceOf, Raises};
ghost use Rattle.ba_facts.specs.Finding.{AreFound, AreNumbered, AreThose};
ghost use Rattle.ba_facts.specs.declared.marks.Place.{Place};
ghost use Rattle.ba_facts.specs.declared.term.Lesson.{Lesson};
ghost use Rattle.ba_facts.specs.declared.term.Term.{Term};
ghost use Rattle.ba_facts.specs.declared.term.Term.TheVariants.{Unknown};
ghost use Rattle.ba_model.specs.declared.query.Op.{Op};

use crate::copies::{add_item, copy_plain};
use crate::found::{Found, differ, own_found, own_literal};
use crate::groups::Groups;
use crate::marking::{deny, mark_of, set_mark};
use crate::marks::{Literals, Mark, Place, own_not_null, own_place};
use crate::names::Names;
use crate::number::number_after;
use crate::rises::{agreed, are_level, most, raise, replace, rises};
use crate::shared_order::SharedOrder;
use crate::term::{Lesson, Sort, TermAtom, TermRef};
use ba_model::{Op, Same, Value};
use std::alloc::{AllocError, Global};

/// The terms that something was learned of, by number, with their classes, the marks of these by
/// their labels, and the order. It says what is known of the terms.
#[derive(Drop)]
pub(crate) struct Web {
    names: Names,
    classes: Groups,
    marks: Vec<Mark>,
    order: SharedOrder,
    /// Whether some class has two literals.
    several: bool,
}

/// The number of the term that comes after so many: the order has a node for each, and one more. It
/// takes no memory: exactly a number without such a node is told as want of memory.
#[inline(always)]
fn next_number(count: usize) -> Result<u32, AllocError>
    ensures value { IfOk result (λ n. (n ≡ count) × (1 + count < 2 ^ 32)) }
    ensures past { IfErr result (λ _. 2 ^ 32 ≤ 1 + count) }
{
    let next = number_after(count, 1)?;
    Ok(next - 1)
}

/// The unknown that the term is, if it is one, alone.
fn own_members(alloc: Global, a: TermRef<'_>) -> Result<Vec<u32>, AllocError>
    ensures { IfOk result (λ it. (u : ℕ) → Contains it.items u ↔ (seen a.entry ≡ Unknown u)) }
{
    let mut members = Vec::new(alloc);
    if let TermRef::Unknown(u) = a {
        members.push(u)?;
    }
    Ok(members)
}

fn add_any(members: &mut Vec<u32>, member: Option<u32>) -> Result<(), AllocError>
    ensures { OnOk result (members.new.items ≡ members.old.items ++ option_to_list member) }
{
    match member {
        Some(u) => {
            members.push(u)?;
            Ok(())
        }
        None => Ok(()),
    }
}

impl Web {
    pub(crate) fn new(alloc: Global) -> Web
        ensures { IsWeb (record { unknowns = []; learned = [] }) result }
    {
        Web {
            names: Names::new(alloc),
            classes: Groups::new(),
            marks: Vec::new(alloc),
            order: SharedOrder::new(),
            several: false,
        }
    }

    /// The number of a term, which gets one if it has none. What is known stays.
    pub(crate) fn number(
        &mut self,
        alloc: Global,
        unknowns: &[Sort],
        term: TermRef<'_>,
    ) -> Result<u32, AllocError>
        ensures found { IfOk result (λ n. slice_get self.new.names n ≡ Some (seen term.entry)) }
        ensures numbers { (n : ℕ) (t : Term) →
            slice_get self.old.names n ≡ Some t → slice_get self.new.names n ≡ Some t }
        ensures kept { (k : Known) →
            k.unknowns ≡ unknowns.now → IsThere k (seen term.entry) → IsWeb k self.old →
            IsWeb k self.new }
    {
        match self.names.find(term) {
            Some(number) => Ok(number),
            None => self.add(alloc, unknowns, term),
        }
    }

    fn add(
        &mut self,
        alloc: Global,
        unknowns: &[Sort],
        term: TermRef<'_>,
    ) -> Result<u32, AllocError>
        requires { (n : ℕ) → slice_get self.old.names n ≢ Some (seen term) }
        ensures found { IfOk result (λ n. slice_get self.new.names n ≡ Some (seen term.entry)) }
        ensures numbers { (n : ℕ) (t : Term) →
            slice_get self.old.names n ≡ Some t → slice_get self.new.names n ≡ Some t }
        ensures kept { (k : Known) →
            k.unknowns ≡ unknowns.now → IsThere k (seen term.entry) → IsWeb k self.old →
            IsWeb k self.new }
    {
        let number = next_number(self.names.len())?;
        self.classes.make_room(alloc, number)?;
        self.marks.truncate(number as usize);
        add_item(&mut self.marks, Mark::own(unknowns, number, term))?;
        self.names.add(term)?;
        Ok(number)
    }

    /// Makes the two terms one class. Without memory nothing changes.
    #[inline(always)]
    pub(crate) fn join(&mut self, alloc: Global, x: u32, y: u32) -> Result<(), AllocError>
        requires some { IsSomeWeb self.old }
        requires left { x < length self.old.names }
        requires right { y < length self.old.names }
        ensures names { self.new.names ≡ self.old.names }
        ensures ok { OnOk result ((k l : Known) (a b : Term) →
            slice_get self.old.names x ≡ Some a → slice_get self.old.names y ≡ Some b →
            Joins k l a b → IsWeb k self.old → IsWeb l self.new) }
        ensures err { OnErr result ((k : Known) → IsWeb k self.old → IsWeb k self.new) }
    {
        let left = mark_of(&self.classes, &self.marks, x);
        let right = mark_of(&self.classes, &self.marks, y);
        let order = agreed(alloc, &self.order, left.place, right.place)?;
        self.classes.merge(x, y)?;
        let mark = left.both(right);
        set_mark(&self.classes, &mut self.marks, x, mark);
        replace(&mut self.order, order);
        self.several |= mark.literals.is_several();
        Ok(())
    }

    /// Marks the classes of two terms that aren't NULL.
    #[inline(always)]
    pub(crate) fn deny(&mut self, x: u32, y: u32)
        requires some { IsSomeWeb self.old }
        requires left { x < length self.old.names }
        requires right { y < length self.old.names }
        ensures { (k h l : Known) (a b : Term) →
            slice_get self.old.names x ≡ Some a → slice_get self.old.names y ≡ Some b →
            Denies k h a → Denies h l b → KeepsOrder k l → IsWeb k self.old → IsWeb l self.new }
    {
        deny(&self.classes, &mut self.marks, x);
        deny(&self.classes, &mut self.marks, y);
    }

    // The place of the number's class, which gets one if it has none.
    fn place(&mut self, x: u32) -> Place
        requires some { IsSomeWeb self.old }
        requires numbered { x < length self.old.names }
        ensures names { self.new.names ≡ self.old.names }
        ensures place { HasPlace self.new.classes.merges self.new.marks.items x result }
        ensures places { (n : ℕ) (p : Place) → HasPlace self.old.classes.merges self.old.marks.items
            n p →
            HasPlace self.new.classes.merges self.new.marks.items n p }
        ensures kept { (k : Known) → IsWeb k self.old → IsWeb k self.new }
    {
        let mark = mark_of(&self.classes, &self.marks, x);
        match mark.place {
            Some(place) => place,
            None => {
                let place = Place {
                    node: x + 1,
                    offset: 0,
                };
                let placed = Mark {
                    place: Some(place),
                    ..mark
                };
                set_mark(&self.classes, &mut self.marks, x, placed);
                place
            }
        }
    }

    /// Records that one term plus `gap` is at most another, and that neither is NULL. Without
    /// memory what is known stays.
    pub(crate) fn rise(&mut self, alloc: Global, x: u32, gap: u32, y: u32) -> Result<(), AllocError>
        requires some { IsSomeWeb self.old }
        requires left { x < length self.old.names }
        requires right { y < length self.old.names }
        ensures ok { OnOk result ((k h l : Known) (a b : Term) →
            slice_get self.old.names x ≡ Some a → slice_get self.old.names y ≡ Some b →
            Denies k h a → Denies h l b → Raises k l a (pos gap) b → IsWeb k self.old →
            IsWeb l self.new) }
        ensures err { OnErr result ((k : Known) → IsWeb k self.old → IsWeb k self.new) }
    {
        let low = self.place(x);
        let high = self.place(y);
        raise(alloc, &mut self.order, low, gap, high)?;
        deny(&self.classes, &mut self.marks, x);
        deny(&self.classes, &mut self.marks, y);
        Ok(())
    }

    // Makes two terms one class that may have no numbers yet. Without memory what is known stays.
    #[inline(always)]
    fn unite(
        &mut self,
        alloc: Global,
        unknowns: &[Sort],
        a: TermRef<'_>,
        b: TermRef<'_>,
    ) -> Result<(), AllocError>
        requires { AreThere self.old unknowns.now (seen a) (seen b) }
        ensures ok { OnOk result ((k l : Known) → k.unknowns ≡ unknowns.now →
            IsThere k (seen a.entry) → IsThere k (seen b.entry) →
            Joins k l (seen a.entry) (seen b.entry) →
            IsWeb k self.old → IsWeb l self.new) }
        ensures err { OnErr result ((k : Known) → k.unknowns ≡ unknowns.now →
            IsThere k (seen a.entry) → IsThere k (seen b.entry) → IsWeb k self.old →
            IsWeb k self.new) }
    {
        let x = self.number(alloc, unknowns, a)?;
        let y = self.number(alloc, unknowns, b)?;
        self.join(alloc, x, y)?;
        Ok(())
    }

    // The same of two terms that are compared by `=`.
    fn equate(
        &mut self,
        alloc: Global,
        unknowns: &[Sort],
        a: TermRef<'_>,
        b: TermRef<'_>,
    ) -> Result<(), AllocError>
        requires { AreThere self.old unknowns.now (seen a) (seen b) }
        ensures ok { OnOk result ((k : Known) → k.unknowns ≡ unknowns.now →
            IsThere k (seen a.entry) → IsThere k (seen b.entry) → IsWeb k self.old →
            IsWeb (told k (atom Op.Eq (seen a.entry) (seen b.entry))) self.new) }
        ensures err { OnErr result ((k : Known) → k.unknowns ≡ unknowns.now →
            IsThere k (seen a.entry) → IsThere k (seen b.entry) → IsWeb k self.old →
            IsWeb k self.new) }
    {
        let x = self.number(alloc, unknowns, a)?;
        let y = self.number(alloc, unknowns, b)?;
        self.join(alloc, x, y)?;
        self.deny(x, y);
        Ok(())
    }

    // Marks two terms that may have no numbers yet. Without memory what is known stays.
    fn part(
        &mut self,
        alloc: Global,
        unknowns: &[Sort],
        a: TermRef<'_>,
        b: TermRef<'_>,
    ) -> Result<(), AllocError>
        requires { AreThere self.old unknowns.now (seen a) (seen b) }
        ensures ok { OnOk result ((k h l : Known) → k.unknowns ≡ unknowns.now →
            IsThere k (seen a.entry) → IsThere k (seen b.entry) →
            Denies k h (seen a.entry) → Denies h l (seen b.entry) → KeepsOrder k l →
            IsWeb k self.old → IsWeb l self.new) }
        ensures err { OnErr result ((k : Known) → k.unknowns ≡ unknowns.now →
            IsThere k (seen a.entry) → IsThere k (seen b.entry) → IsWeb k self.old →
            IsWeb k self.new) }
    {
        let x = self.number(alloc, unknowns, a)?;
        let y = self.number(alloc, unknowns, b)?;
        self.deny(x, y);
        Ok(())
    }

    // Records a rise of two terms that may have no numbers yet. Without memory what is known stays.
    fn lift(
        &mut self,
        alloc: Global,
        unknowns: &[Sort],
        a: TermRef<'_>,
        gap: u32,
        b: TermRef<'_>,
    ) -> Result<(), AllocError>
        requires { AreThere self.old unknowns.now (seen a) (seen b) }
        ensures ok { OnOk result ((k h l : Known) → k.unknowns ≡ unknowns.now →
            IsThere k (seen a.entry) → IsThere k (seen b.entry) →
            Denies k h (seen a.entry) → Denies h l (seen b.entry) →
            Raises k l (seen a.entry) (pos gap) (seen b.entry) →
            IsWeb k self.old → IsWeb l self.new) }
        ensures err { OnErr result ((k : Known) → k.unknowns ≡ unknowns.now →
            IsThere k (seen a.entry) → IsThere k (seen b.entry) → IsWeb k self.old →
            IsWeb k self.new) }
    {
        let x = self.number(alloc, unknowns, a)?;
        let y = self.number(alloc, unknowns, b)?;
        self.rise(alloc, x, gap, y)?;
        Ok(())
    }

    /// Takes in what was learned. Without memory what is known stays.
    pub(crate) fn tell(
        &mut self,
        alloc: Global,
        unknowns: &[Sort],
        lesson: &Lesson,
    ) -> Result<(), AllocError>
        requires { CanTell self.old unknowns.now lesson.now }
        ensures ok { OnOk result ((k : Known) → k.unknowns ≡ unknowns.now →
            LessonIsThere k lesson.now →
            IsWeb k self.old → IsWeb (told k lesson.now) self.new) }
        ensures err { OnErr result ((k : Known) → k.unknowns ≡ unknowns.now →
            LessonIsThere k lesson.now →
            IsWeb k self.old → IsWeb k self.new) }
    {
        match lesson {
            Lesson::Same(a, b) => self.unite(alloc, unknowns, a.by_ref(), b.by_ref()),
            Lesson::Holds(atom) => self.tell_atom(alloc, unknowns, atom),
        }
    }

    fn tell_atom(
        &mut self,
        alloc: Global,
        unknowns: &[Sort],
        atom: &TermAtom,
    ) -> Result<(), AllocError>
        requires { AreThere self.old unknowns.now atom.now.left atom.now.right }
        ensures ok { OnOk result ((k : Known) → k.unknowns ≡ unknowns.now →
            IsThere k atom.now.left → IsThere k atom.now.right →
            IsWeb k self.old → IsWeb (told k (Lesson.Holds atom.now)) self.new) }
        ensures err { OnErr result ((k : Known) → k.unknowns ≡ unknowns.now →
            IsThere k atom.now.left → IsThere k atom.now.right → IsWeb k self.old →
            IsWeb k self.new) }
    {
        let left = atom.left.by_ref();
        let right = atom.right.by_ref();
        match atom.op {
            Op::Eq => self.equate(alloc, unknowns, left, right),
            Op::Ne => self.part(alloc, unknowns, left, right),
            Op::Lt => self.lift(alloc, unknowns, left, 1, right),
            Op::Le => self.lift(alloc, unknowns, left, 0, right),
            Op::IsNull => self.unite(alloc, unknowns, left, TermRef::Val(&Value::Null)),
            Op::NotNull => self.part(alloc, unknowns, left, left),
        }
    }

    /// Whether the two terms are of one class.
    #[inline(always)]
    pub(crate) fn one_class(&self, a: TermRef<'_>, b: TermRef<'_>) -> bool
        requires { IsSomeWeb self.now }
        ensures { (k : Known) →
            IsWeb k self.now → IsTrue result ↔ OneClass k (seen a.entry) (seen b.entry) }
    {
        self.is_of_class(a, self.names.find(a), b)
    }

    // The same, where the first term has this number, or none.
    #[inline(always)]
    fn is_of_class(&self, a: TermRef<'_>, number: Option<u32>, b: TermRef<'_>) -> bool
        requires some { IsSomeWeb self.now }
        requires numbered { IsNumberOf self.now.names (seen a) number }
        ensures { (k : Known) →
            IsWeb k self.now → IsTrue result ↔ OneClass k (seen a.entry) (seen b.entry) }
    {
        match number {
            Some(x) => self.has_class(x, b),
            None => a.same(b),
        }
    }

    #[inline(always)]
    fn has_class(&self, x: u32, b: TermRef<'_>) -> bool
        requires some { IsSomeWeb self.now }
        requires numbered { x < length self.now.names }
        ensures { (k : Known) (a : Term) → slice_get self.now.names x ≡ Some a →
            IsWeb k self.now → IsTrue result ↔ OneClass k a (seen b.entry) }
    {
        match self.names.find(b) {
            Some(y) => self.classes.same(x, y),
            None => false,
        }
    }

    /// The least unknown that is of one class with this one, by its number.
    pub(crate) fn least_of(&self, unknown: u32) -> u32
        requires { IsSomeWeb self.now }
        ensures { (k : Known) → IsWeb k self.now → IsLeastOf k unknown result }
    {
        match self.names.find(TermRef::Unknown(unknown)) {
            Some(x) => self.least_in(x, unknown),
            None => unknown,
        }
    }

    // The least of the unknowns below this one that are of the number's class, or else this one.
    fn least_in(&self, x: u32, unknown: u32) -> u32
        requires some { IsSomeWeb self.now }
        requires numbered { slice_get self.now.names x ≡ Some (Unknown unknown) }
        ensures { (k : Known) → IsWeb k self.now → IsLeastOf k unknown result }
    {
        for number in 0..unknown {
            if self.has_class(x, TermRef::Unknown(number)) {
                return number;
            }
        }
        unknown
    }

    /// The unknowns of the term's class, by number.
    pub(crate) fn members(&self, alloc: Global, a: TermRef<'_>) -> Result<Vec<u32>, AllocError>
        requires { IsSomeWeb self.now }
        ensures { IfOk result (λ it. (k : Known) → IsWeb k self.now →
            AreMembers k (seen a.entry) it.items) }
    {
        match self.names.find(a) {
            Some(x) => self.members_of(alloc, x),
            None => own_members(alloc, a),
        }
    }

    // The unknowns of the number's class. None of their numbers is less than its label.
    fn members_of(&self, alloc: Global, x: u32) -> Result<Vec<u32>, AllocError>
        requires some { IsSomeWeb self.now }
        requires numbered { x < length self.now.names }
        ensures { IfOk result (λ it. AreMembersBelow self.now.names self.now.classes.merges x
            (length self.now.names) it.items) }
    {
        let mut members = Vec::new(alloc);
        for n in self.classes.label(x)..self.names.len() as u32 {
            if self.classes.same(x, n) {
                add_any(&mut members, self.names.unknown(n))?;
            }
        }
        Ok(members)
    }

    /// Whether the term has no place in the order.
    pub(crate) fn is_unplaced(&self, a: TermRef<'_>) -> bool
        requires { IsSomeWeb self.now }
        ensures { (k : Known) → IsWeb k self.now → IsTrue result → IsOnlyClass k (seen a.entry) }
    {
        self.place_of(a).is_none()
    }

    /// Whether the two terms are the same: of one class, or each shown to be at most the other.
    pub(crate) fn same(&self, a: TermRef<'_>, b: TermRef<'_>) -> bool
        requires { IsSomeWeb self.now }
        ensures { (k : Known) →
            IsWeb k self.now → IsTrue result ↔ TheSame k (seen a.entry) (seen b.entry) }
    {
        let number = self.names.find(a);
        if self.is_of_class(a, number, b) {
            true
        } else {
            self.is_level(a, number, b)
        }
    }

    // Whether the two terms' places are shown to be one, where the first term has this number, or
    // none. Mostly it has no place, and the other's isn't sought.
    fn is_level(&self, a: TermRef<'_>, number: Option<u32>, b: TermRef<'_>) -> bool
        requires some { IsSomeWeb self.now }
        requires numbered { IsNumberOf self.now.names (seen a) number }
        ensures { IsTrue result ↔ IsLevel self.now.names self.now.classes.merges
            self.now.marks.items self.now.order
            (seen a.entry) (seen b.entry) }
    {
        match self.place_at(a, number) {
            Some(place) => self.is_level_at(place, b),
            None => false,
        }
    }

    // Whether the term's place and this one are shown to be one.
    fn is_level_at(&self, place: Place, b: TermRef<'_>) -> bool
        requires { IsSomeWeb self.now }
        ensures { (a : Term) → ((p : Place) → (Some place ≡ Some p)
            ↔ PlaceOf self.now.names self.now.classes.merges self.now.marks.items a p) →
            IsTrue result ↔ IsLevel self.now.names self.now.classes.merges
            self.now.marks.items self.now.order a (seen b.entry) }
    {
        match self.place_of(b) {
            Some(other) => are_level(&self.order, place, other),
            None => false,
        }
    }

    // The mark of the term's class, if the term has a number.
    #[inline(always)]
    fn class_mark(&self, a: TermRef<'_>) -> Option<Mark>
        requires { IsSomeWeb self.now }
        ensures { MatchOption result ((n : ℕ) → slice_get self.now.names n ≢ Some (seen a.entry))
            (IsClassMark self.now.names self.now.classes.merges self.now.marks.items
            (seen a.entry)) }
    {
        match self.names.find(a) {
            Some(x) => Some(mark_of(&self.classes, &self.marks, x)),
            None => None,
        }
    }

    /// Whether the term's class has one that isn't NULL.
    #[inline(always)]
    pub(crate) fn not_null(&self, unknowns: &[Sort], a: TermRef<'_>) -> bool
        requires { IsSomeWeb self.now }
        ensures { (k : Known) → k.unknowns ≡ unknowns.now →
            IsWeb k self.now → IsTrue result ↔ ShownNotNull k (seen a.entry) }
    {
        match self.class_mark(a) {
            Some(mark) => mark.not_null,
            None => own_not_null(unknowns, a),
        }
    }

    /// Whether the term's class has the literal NULL. Mostly it has none, or one that isn't.
    pub(crate) fn is_null(&self, a: TermRef<'_>) -> bool
        requires { IsSomeWeb self.now }
        ensures { (k : Known) → IsWeb k self.now → IsTrue result ↔ ShownNull k (seen a.entry) }
    {
        match self.literals(a) {
            Found::Absent => false,
            Found::One(value) => value.same(&Value::Null),
            Found::Several => self.one_class(a, TermRef::Val(&Value::Null)),
        }
    }

    /// Whether the two terms' classes have different literals.
    pub(crate) fn different_literals(&self, a: TermRef<'_>, b: TermRef<'_>) -> bool
        requires { IsSomeWeb self.now }
        ensures { (k : Known) →
            IsWeb k self.now → IsTrue result ↔ DifferentLiterals k (seen a.entry) (seen b.entry) }
    {
        differ(self.literals(a), self.literals(b))
    }

    // The literals of the term's class.
    fn literals<'a>(&'a self, a: TermRef<'a>) -> Found<'a>
        requires { IsSomeWeb self.now }
        ensures { (k : Known) → IsWeb k self.now → AreFound k (seen a.entry) result }
    {
        match self.class_mark(a) {
            Some(mark) => self.found(mark.literals),
            None => own_found(a),
        }
    }

    fn found(&self, literals: Literals) -> Found<'_>
        requires { AreNumbered self.now.names literals }
        ensures { (k : Known) (a : Term) →
            AreLiterals k self.now.names a literals → AreFound k a result }
    {
        match literals {
            Literals::Absent => Found::Absent,
            Literals::One(n) => match self.names.value(n) {
                Some(value) => Found::One(value),
                None => Found::Several,
            },
            Literals::Several(_) => Found::Several,
        }
    }

    /// A literal of the term's class, if it has one.
    pub(crate) fn literal<'a>(&'a self, a: TermRef<'a>) -> Option<&'a Value>
        requires { IsSomeWeb self.now }
        ensures { (k : Known) → IsWeb k self.now →
            IsLiteralIn k (seen a.entry) (option_copied result) }
    {
        match self.class_mark(a) {
            Some(mark) => self.one_of(mark.literals),
            None => own_literal(a),
        }
    }

    fn one_of(&self, literals: Literals) -> Option<&Value>
        requires { AreThose self.now.names literals }
        ensures { (k : Known) (a : Term) →
            AreLiterals k self.now.names a literals → IsLiteralIn k a (option_copied result) }
    {
        match literals {
            Literals::Absent => None,
            Literals::One(n) => self.names.value(n),
            Literals::Several(n) => self.names.value(n),
        }
    }

    /// The greatest number by which the one term is shown to be less than the other, if any is
    /// shown.
    pub(crate) fn bound(&self, low: TermRef<'_>, high: TermRef<'_>) -> Option<i128>
        requires some { IsSomeWeb self.now }
        requires order { ¬ (IsAbsurd self.now.order) }
        ensures { (k : Known) → IsWeb k self.now →
            IsBound k (seen low.entry) (seen high.entry) result }
    {
        if self.one_class(low, high) {
            Some(0)
        } else {
            self.bound_of_places(low, high)
        }
    }

    fn bound_of_places(&self, low: TermRef<'_>, high: TermRef<'_>) -> Option<i128>
        requires some { IsSomeWeb self.now }
        requires order { ¬ (IsAbsurd self.now.order) }
        ensures { IsGreatest (λ n. AnyRise self.now.names self.now.classes.merges
            self.now.marks.items self.now.order
            (seen low.entry) n (seen high.entry)) result }
    {
        match (self.place_of(low), self.place_of(high)) {
            (Some(from), Some(to)) => most(&self.order, from, to),
            _ => None,
        }
    }

    /// Whether the one term plus `gap` is shown to be at most the other.
    pub(crate) fn gap(&self, low: TermRef<'_>, gap: u32, high: TermRef<'_>) -> bool
        requires { IsSomeWeb self.now }
        ensures { (k : Known) →
            IsWeb k self.now → IsTrue result ↔ ShownGap k (seen low.entry) (pos gap)
            (seen high.entry) }
    {
        if self.same_level(low, gap, high) {
            true
        } else {
            self.places_rise(low, gap, high)
        }
    }

    fn same_level(&self, low: TermRef<'_>, gap: u32, high: TermRef<'_>) -> bool
        requires { IsSomeWeb self.now }
        ensures { (k : Known) → IsWeb k self.now →
            IsTrue result ↔ ((gap ≡ 0) × OneClass k (seen low.entry) (seen high.entry)) }
    {
        if gap == 0 {
            self.one_class(low, high)
        } else {
            false
        }
    }

    fn places_rise(&self, low: TermRef<'_>, gap: u32, high: TermRef<'_>) -> bool
        requires { IsSomeWeb self.now }
        ensures { IsTrue result ↔ AnyRise self.now.names self.now.classes.merges
            self.now.marks.items self.now.order
            (seen low.entry) (pos gap) (seen high.entry) }
    {
        match (self.place_of(low), self.place_of(high)) {
            (Some(from), Some(to)) => rises(&self.order, from, gap, to),
            _ => false,
        }
    }

    #[inline(always)]
    fn place_of(&self, a: TermRef<'_>) -> Option<Place>
        requires { IsSomeWeb self.now }
        ensures { (p : Place) → (result ≡ Some p)
            ↔ PlaceOf self.now.names self.now.classes.merges self.now.marks.items (seen a.entry) p }
    {
        self.place_at(a, self.names.find(a))
    }

    // The place of the term, which has this number, or none.
    #[inline(always)]
    fn place_at(&self, a: TermRef<'_>, number: Option<u32>) -> Option<Place>
        requires some { IsSomeWeb self.now }
        requires numbered { IsNumberOf self.now.names (seen a) number }
        ensures { (p : Place) → (result ≡ Some p)
            ↔ PlaceOf self.now.names self.now.classes.merges self.now.marks.items (seen a.entry) p }
    {
        match number {
            Some(x) => mark_of(&self.classes, &self.marks, x).place,
            None => own_place(a),
        }
    }

    /// Whether some class has two different literals, or is shown both null and not null.
    pub(crate) fn clashes(&self, unknowns: &[Sort]) -> bool
        requires { IsSomeWeb self.now }
        ensures { (k : Known) → k.unknowns ≡ unknowns.now → IsWeb k self.now → IsTrue result
            ↔ IsClashing k }
    {
        if self.several {
            true
        } else {
            self.not_null(unknowns, TermRef::Val(&Value::Null))
        }
    }

    /// Whether some chain rises back to where it began.
    pub(crate) fn is_rising(&self) -> bool
        ensures { (k : Known) → IsWeb k self.now → IsTrue result ↔ IsRising k }
    {
        self.order.absurd()
    }

    /// The same web.
    pub(crate) fn copy(&self, alloc: Global) -> Result<Web, AllocError>
        ensures { IfOk result (λ other. (k : Known) → IsWeb k self.now → IsWeb k other) }
    {
        Ok(Web {
            names: self.names.copy(alloc)?,
            classes: self.classes.copy(alloc)?,
            marks: copy_plain(alloc, &self.marks)?,
            order: self.order.copy(alloc)?,
            several: self.several,
        })
    }
}
