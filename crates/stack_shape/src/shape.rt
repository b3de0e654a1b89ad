// Shapes: the slots of an activation, first pushed first.
ghost use Rattle.std.specs.Prelude.{IsSome, IfNone, slice_index_or, slice_set, ◌≡◌, ◌+◌, ◌*◌, ◌<◌, ◌≤◌, ◌↔◌, ◌⊎◌, ⊤, ℕ, List, [], ◌∷◌, ◌++◌, length, IsTrue, IsOk, IsNone, IfOk, IfErr, IfSome, OnOk, OnErr, SomeIff};
ghost use Rattle.intervals.specs.Domain.{Entry};

use crate::fault::ShapeFault;
use crate::slot::Slot;
use arrayvec::ArrayVec;
use intervals::Domain;
use std::alloc::AllocError;
use std::marker::Model;

/// The greatest number of slots in a shape.
pub const SLOTS: usize = 64;

const _: () = prove!(SLOTS == 64);

/// What is known of the words that one activation has on the stack: at most 64 slots, first pushed first
/// (docs/SHAPES.md).
#[derive(Drop, PartialEq, Eq, Hash)]
pub struct Shape {
    slots: ArrayVec<Slot, SLOTS>,
}

impl Model for Shape {
    ghost use Rattle.std.specs.Prelude.{List, length, ◌≤◌};
    ghost use Rattle.stack_shape.specs.declared.slot.Slot.{Slot};

    ghost Value = { List Slot };

    ghost view = { λ s. s.slots.items };

    ghost invariant = { λ s. length s.slots.items ≤ 64 };

    ghost inverse = { λ slots. record { slots = record { items = slots } } };
}

impl Clone for Shape {
    ghost is_clone = { λ shape copy. copy ≡ shape };

    ghost is_infallible = { λ _. ⊤ };

    /// A copy. It takes no memory and never fails.
    fn clone(&self) -> Result<Shape, AllocError> {
        Ok(self.copied())
    }
}

impl Shape {
    ghost use Rattle.stack_shape.specs.declared.slot.Slot.{Slot};
    ghost use Rattle.stack_shape.specs.Slot.{HoldsSlot};
    ghost use Rattle.stack_shape.specs.Shape.{HoldsShape, CoversShape, OverlapsShape, hull_of_shapes};

    /// The shape without slots, with which an activation begins.
    pub fn empty() -> Shape
        ensures { result ≡ [] }
    {
        Shape {
            slots: ArrayVec::new(),
        }
    }

    /// A copy. It takes no memory.
    pub fn copied(&self) -> Shape
        ensures { result ≡ self.now }
    {
        let mut slots = ArrayVec::new();
        let _fits = slots.try_extend_from_slice(self.slots());
        Shape { slots }
    }

    /// The slots, first pushed first, at most 64.
    pub fn slots(&self) -> &[Slot]
        ensures value { result.now ≡ self.now }
        ensures within { length result.now ≤ 64 }
    {
        self.slots.as_slice()
    }

    /// The number of slots, 0 to 64.
    pub fn len(&self) -> usize
        ensures value { result ≡ length self.now }
        ensures within { result ≤ 64 }
    {
        self.slots.len()
    }

    /// Whether there is no slot.
    pub fn is_empty(&self) -> bool
        ensures { IsTrue result ↔ (self.now ≡ []) }
    {
        self.slots.is_empty()
    }

    /// The bytes that the words take on the stack, 0 to 128.
    pub fn bytes(&self) -> u16
        ensures value { result ≡ 2 * length self.now }
        ensures within { result ≤ 128 }
    {
        self.len() as u16 * 2
    }

    /// The slot that was pushed last, or None for an empty shape.
    pub fn top(&self) -> Option<Slot>
        ensures none { IsNone result ↔ (self.now ≡ []) }
        ensures last { IfSome result (λ top. (below : List Slot) × (self.now ≡ below ++ top ∷ [])) }
    {
        self.slots.last().copied()
    }

    /// Pushes a slot. Err(Full) at 64 slots, with the shape unchanged.
    pub fn push(&mut self, slot: Slot) -> Result<(), ShapeFault>
        ensures ok { IsOk result ↔ (length self.old < 64) }
        ensures pushed { OnOk result (self.new ≡ self.old ++ slot ∷ []) }
        ensures full { IfErr result (λ fault. (fault ≡ ShapeFault.Full) × (length self.old ≡ 64)) }
        ensures unchanged { OnErr result (self.new ≡ self.old) }
        ensures holds { (entry : Entry) (words : List ℕ) (word : ℕ)
            → HoldsShape self.old entry words → HoldsSlot slot entry word
            → OnOk result (HoldsShape self.new entry (words ++ word ∷ [])) }
    {
        self.slots.try_push(slot).map_err(|_| ShapeFault::Full)
    }

    /// Pops the slot that was pushed last and returns it. Err(Empty) at 0 slots, with the shape unchanged.
    pub fn pop(&mut self) -> Result<Slot, ShapeFault>
        ensures ok { IsOk result ↔ (0 < length self.old) }
        ensures popped { IfOk result (λ top. self.old ≡ self.new ++ top ∷ []) }
        ensures empty { IfErr result (λ fault. (fault ≡ ShapeFault.Empty) × (self.old ≡ [])) }
        ensures unchanged { OnErr result (self.new ≡ self.old) }
        ensures holds { (entry : Entry) (words : List ℕ) (word : ℕ)
            → HoldsShape self.old entry (words ++ word ∷ [])
            → IfOk result (λ top. HoldsSlot top entry word × HoldsShape self.new entry words) }
    {
        self.slots.pop().ok_or(ShapeFault::Empty)
    }

    /// Replaces the slot that was pushed last and returns it. Err(Empty) at 0 slots, with the shape unchanged.
    pub fn exchange(&mut self, slot: Slot) -> Result<Slot, ShapeFault>
        ensures ok { IsOk result ↔ (0 < length self.old) }
        ensures exchanged { IfOk result (λ top. (below : List Slot)
            × (self.old ≡ below ++ top ∷ []) × (self.new ≡ below ++ slot ∷ [])) }
        ensures empty { IfErr result (λ fault. (fault ≡ ShapeFault.Empty) × (self.old ≡ [])) }
        ensures unchanged { OnErr result (self.new ≡ self.old) }
        ensures holds { (entry : Entry) (words : List ℕ) (before after : ℕ)
            → HoldsShape self.old entry (words ++ before ∷ []) → HoldsSlot slot entry after
            → IfOk result (λ top. HoldsSlot top entry before × HoldsShape self.new entry (words ++ after ∷ [])) }
    {
        let top = self.slots.pop().ok_or(ShapeFault::Empty)?;
        self.slots.push(slot);
        Ok(top)
    }

    /// Replaces the slot at `place` and returns it; place 0 is the slot that was pushed first. None if `place` is not
    /// below the length, with the shape unchanged.
    pub fn replace(&mut self, place: usize, slot: Slot) -> Option<Slot>
        ensures some { IsSome result ↔ (place < length self.old) }
        ensures given { IfSome result (λ before. before ≡ slice_index_or self.old place slot) }
        ensures replaced { self.new ≡ slice_set self.old place slot }
        ensures unchanged { IfNone result (self.new ≡ self.old) }
        ensures holds { (entry : Entry) (words : List ℕ) (word : ℕ)
            → HoldsShape self.old entry words → HoldsSlot slot entry word
            → HoldsShape self.new entry (slice_set words place word) }
    {
        let there = self.slots.get_mut(place)?;
        let before = *there;
        *there = slot;
        Some(before)
    }

    /// Whether the shapes have one length and their slots overlap, place by place.
    pub fn overlaps(&self, other: &Shape) -> bool
        ensures { IsTrue result ↔ OverlapsShape self.now other.now }
    {
        let (mine, theirs) = (self.slots(), other.slots());
        mine.len() == theirs.len()
            && mine
                .iter()
                .zip(theirs)
                .all(|(a, b)| a.pair.overlaps(b.pair))
    }

    /// Whether this shape covers the other: they have one length, and each slot covers the other's at its place.
    /// Covering is a preorder. A shape that covers another holds of all words that the other holds of.
    pub fn covers(&self, other: &Shape) -> bool
        ensures exact { IsTrue result ↔ CoversShape self.now other.now }
        ensures reflexive { self.now ≡ other.now → IsTrue result }
        ensures transitive { IsTrue result → (third : List Slot)
            → CoversShape other.now third → CoversShape self.now third }
        ensures widens { IsTrue result → (entry : Entry) (words : List ℕ)
            → HoldsShape other.now entry words → HoldsShape self.now entry words }
    {
        let (mine, theirs) = (self.slots(), other.slots());
        mine.len() == theirs.len() && mine.iter().zip(theirs).all(|(a, b)| a.covers(b))
    }

    /// The joins of the slots, place by place, or None if the lengths differ. The join covers both shapes, and holds of
    /// all words that either holds of.
    pub fn join(&self, other: &Shape) -> Option<Shape>
        ensures exact { SomeIff result (length self.now
            ≡ length other.now) (hull_of_shapes self.now other.now) }
        ensures covers { IfSome result (λ both. CoversShape both self.now
            × CoversShape both other.now) }
        ensures holds { IfSome result (λ both. (entry : Entry) (words : List ℕ)
            → HoldsShape self.now entry words ⊎ HoldsShape other.now entry words → HoldsShape both entry words) }
    {
        let (mine, theirs) = (self.slots(), other.slots());
        if mine.len() != theirs.len() {
            return None;
        }
        let mut slots = ArrayVec::new();
        for (a, b) in mine.iter().zip(theirs) {
            slots.push(a.join(b));
        }
        Some(Shape { slots })
    }
}
