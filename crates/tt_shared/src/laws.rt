//! Why readers need no lock: laws of the format of the file, and not calls to make.

ghost use Rattle.std.specs.Prelude.{◌≡◌, ◌+◌, ◌≤◌, ◌<◌, ◌%◌, ◌^◌, ◌⊎◌, ℕ, List, length, slice_index};
ghost use Rattle.tt_shared.specs.Index.{index_at};
ghost use Rattle.tt_shared.specs.Layout.{file_len};
ghost use Rattle.tt_shared.specs.Slot.{IsShared, IsSlotOf, slot_of};
ghost use Rattle.tt_shared.specs.declared.slots.SharedSpan.{SharedSpan};
ghost use Rattle.tt_shared.specs.Writing.{index_word};
ghost use Rattle.tt_shared.specs.Looking.{word_of};
ghost use Rattle.tt_shared.specs.Seeing.{MaySee, IsSeen, Shows, DiesWriting};

/// If a reader finds the same index before and after it copied a slot, it copied the slot as it was written: the index
/// was the index of one count all the time. Each byte may have been read at a moment of its own.
///
/// In both laws `published n` is the publication with count n in the file, by whichever writer. That each byte was seen as
/// it was written at one moment, and that the counts at these moments do not fall, is a premise: it is what the operating
/// system and the processor have to keep for writes in order and for looks in order.
pub fn copy_laws()
    ensures whole { (published : ℕ → SharedSpan) (first last slot : ℕ) (then bytes : ℕ → ℕ) → first < 2 ^ 64 → last < 2 ^ 64 →
        ((i : ℕ) → (first ≤ then i) × (then i ≤ last) × MaySee published (then i) slot i (bytes i)) →
        first % 2 ≡ slot → index_at first ≡ index_at last →
        (i : ℕ) → bytes i ≡ slice_index (slot_of (index_word first) (published first)) i }

    // So whatever publication a reader finds in such a copy, it is the one with the count of the index, each number of it.
    ensures found { (published : ℕ → SharedSpan) (n : ℕ) (index bytes : List ℕ) (p : SharedSpan) →
        IsSeen published n index bytes index → IsShared (published n) → IsSlotOf (word_of index) p bytes → p ≡ published n }
{}

/// If a writer dies at any moment of a publication, the file still shows its readers the slot that it showed before,
/// byte for byte, or it shows them the new publication whole.
pub fn crash_laws()
    ensures old_or_new { (n : ℕ) (p : SharedSpan) (before after bytes : List ℕ) → length before ≡ file_len →
        Shows before n bytes → DiesWriting n p before after →
        Shows after n bytes ⊎ Shows after (n + 1) (slot_of (index_word (n + 1)) p) }
{}
