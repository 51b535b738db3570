ghost use Rattle.std.specs.Prelude.{◌≡◌, ◌≢◌, ℕ, ◌+◌, ◌<◌, [], None, Some, cond, nat_eq, slice_index_or, IfOk, OnOk, OnErr};
ghost use Rattle.ba_classes.specs.Grid.{place_of};

use std::alloc::{AllocError, Global};
use std::marker::Model;

/// The places of the named nodes, by the nodes' numbers: a question is a look at one slot. The
/// nodes are numbered without great gaps, so that few slots are empty.
#[derive(Drop)]
pub struct Seats {
    slots: Vec<Option<u32>>,
    count: usize,
}

impl Model for Seats {
    ghost use Rattle.ba_classes.specs.Grid.{Places};

    ghost Value = { Places };

    ghost view = { λ s. record { slots = s.slots.items; count = s.count } };
}

impl Seats {
    /// No node has a place.
    pub fn new(alloc: Global) -> Seats
        ensures { result ≡ record { slots = []; count = 0 } }
    {
        Seats {
            slots: Vec::new(alloc),
            count: 0,
        }
    }

    /// How many places were given.
    pub fn len(&self) -> usize
        ensures { result ≡ self.now.count }
    {
        self.count
    }

    /// The place of a node, if it has one.
    pub fn get(&self, node: u32) -> Option<u32>
        ensures { result ≡ place_of self.now node }
    {
        match self.slots.get(node as usize) {
            Some(place) => *place,
            None => None,
        }
    }

    /// Gives the node the next place. Without memory no node's place changes; a place past 32 bits
    /// is told as want of memory.
    pub fn add(&mut self, node: u32) -> Result<(), AllocError>
        ensures count { OnOk result (self.new.count ≡ self.old.count + 1) }
        ensures places { OnOk result ((x : ℕ) → place_of self.new x
            ≡ cond (nat_eq node x) (Some self.old.count) (place_of self.old x)) }
        ensures err { OnErr result (self.new ≡ self.old) }
    {
        let place = number_of(self.count)?;
        set_place(&mut self.slots, node, place)?;
        self.count += 1;
        Ok(())
    }

    /// Takes a node's place, which is the last one.
    pub fn remove(&mut self, node: u32)
        requires { 0 < self.old.count }
        ensures count { self.new.count + 1 ≡ self.old.count }
        ensures gone { place_of self.new node ≡ None }
        ensures kept { (x : ℕ) → x ≢ node → place_of self.new x ≡ place_of self.old x }
    {
        clear(&mut self.slots, node);
        self.count -= 1;
    }

    /// The same places.
    pub fn copy(&self, alloc: Global) -> Result<Seats, AllocError>
        ensures { IfOk result (λ other. other ≡ self.now) }
    {
        Ok(Seats {
            slots: Vec::from_slice(alloc, &self.slots)?,
            count: self.count,
        })
    }
}

fn number_of(place: usize) -> Result<u32, AllocError>
    ensures { IfOk result (λ number. number ≡ place) }
{
    if place > 0xffff_ffff {
        return Err(AllocError);
    }
    Ok(place as u32)
}

// Puts the place into the node's slot. Without memory nothing changes.
fn set_place(slots: &mut Vec<Option<u32>>, node: u32, place: u32) -> Result<(), AllocError>
    ensures places { OnOk result ((x : ℕ) → slice_index_or slots.new.items x None
        ≡ cond (nat_eq node x) (Some place) (slice_index_or slots.old.items x None)) }
    ensures err { OnErr result (slots.new.items ≡ slots.old.items) }
{
    let slot = node as usize;
    if slots.len() <= slot {
        slots.resize(slot + 1, None)?;
    }
    slots[slot] = Some(place);
    Ok(())
}

// Empties the node's slot.
fn clear(slots: &mut Vec<Option<u32>>, node: u32)
    ensures gone { slice_index_or slots.new.items node None ≡ None }
    ensures kept { (x : ℕ) → x ≢ node →
        slice_index_or slots.new.items x None ≡ slice_index_or slots.old.items x None }
{
    let slot = node as usize;
    if slot < slots.len() {
        slots[slot] = None;
    }
}
