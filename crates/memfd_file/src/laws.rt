//! What a write does to the bytes of a file, for all files and all bytes.

ghost use Rattle.std.specs.Prelude.{◌≡◌, ℕ, ◌+◌, ◌<◌, ◌≤◌, max, List, Some, length, slice_index};
ghost use Rattle.ho_base.specs.declared.numbers.Pfn.{Pfn};
ghost use Rattle.ho_events.specs.File.{FileState, file_step};
ghost use Rattle.ho_events.specs.declared.event.Event.TheVariants.{FileWrite};
ghost use Rattle.ho_events.specs.declared.reply.Reply.TheVariants.{Ok};

/// After a write that was done, the bytes of its range are those of the command, and all others are as before:
/// past the old end there was no byte, so zeros stand between it and the range. The size reaches the end of
/// the range, and never shrinks.
pub fn law_of_writing()
    ensures written { (f g : FileState) (off i : ℕ) (new : List ℕ) (fills : List Pfn) → file_step (Some f) (FileWrite off new fills) Ok ≡ Some (Some g) → i < length new → slice_index g.bytes (off + i) ≡ slice_index new i }
    ensures before { (f g : FileState) (off i : ℕ) (new : List ℕ) (fills : List Pfn) → file_step (Some f) (FileWrite off new fills) Ok ≡ Some (Some g) → i < off → slice_index g.bytes i ≡ slice_index f.bytes i }
    ensures after { (f g : FileState) (off i : ℕ) (new : List ℕ) (fills : List Pfn) → file_step (Some f) (FileWrite off new fills) Ok ≡ Some (Some g) → off + length new ≤ i → slice_index g.bytes i ≡ slice_index f.bytes i }
    ensures size { (f g : FileState) (off : ℕ) (new : List ℕ) (fills : List Pfn) → file_step (Some f) (FileWrite off new fills) Ok ≡ Some (Some g) → length g.bytes ≡ max (length f.bytes) (off + length new) }
{}
