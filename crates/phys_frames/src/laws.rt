//! What taking and giving do to the frames, for all frames and all bytes.

ghost use Rattle.std.specs.Prelude.{◌≡◌, ◌<◌, ℕ, List, length, map, Some};
ghost use Rattle.ho_base.specs.declared.limits.TheConstants.{PAGE_BYTES};
ghost use Rattle.ho_base.specs.declared.numbers.Order.{Order};
ghost use Rattle.ho_base.specs.declared.numbers.Pfn.{Pfn};
ghost use Rattle.phys_frames.specs.Memory.{Memory, FolioValue, page_at, run_at, pages_in, InRun, IsHome, RunHome, RunOut, with_page, without_page, with_folio, without_run};

/// The frames of a run that was taken are out, and a frame that is still home is another one: so no frame is handed
/// out twice before it came back. The other frames have the bytes that they had.
pub fn law_of_taking()
    ensures out { (m : Memory) (p : Pfn) (o : Order) → RunHome m p o → RunOut (without_run m p o) p o }
    ensures apart { (m : Memory) (p q : Pfn) (o : Order) → RunHome m p o → IsHome (without_run m p o) q → ¬ (InRun p o q) }
    ensures others { (m : Memory) (p q : Pfn) (o : Order) → RunHome m p o → ¬ (InRun p o q) → page_at (without_run m p o) q ≡ page_at m q }
{}

/// The frames of a folio that came back are home, with the bytes that it came with, and the other frames have the
/// bytes that they had. Taking a run and giving it back with its bytes changes nothing.
pub fn law_of_giving()
    ensures home { (m : Memory) (f : FolioValue) → RunOut m f.first f.order → RunHome (with_folio m f) f.first f.order }
    ensures bytes { (m : Memory) (f : FolioValue) → RunOut m f.first f.order → run_at (with_folio m f) f.first f.order ≡ map Some (pages_in f.order f.bytes) }
    ensures others { (m : Memory) (f : FolioValue) (q : Pfn) → RunOut m f.first f.order → ¬ (InRun f.first f.order q) → page_at (with_folio m f) q ≡ page_at m q }
    ensures back { (m : Memory) (f : FolioValue) → RunHome m f.first f.order → run_at m f.first f.order ≡ map Some (pages_in f.order f.bytes) → with_folio (without_run m f.first f.order) f ≡ m }
{}

/// What a run of one frame is: taking it is taking the frame, and giving it back is putting the frame's page there.
pub fn law_of_one_frame()
    ensures home { (m : Memory) (p : Pfn) → IsHome m p → RunHome m p (record { 0 = 0 }) }
    ensures bytes { (m : Memory) (p : Pfn) (bytes : List ℕ) → IsHome m p → length bytes ≡ PAGE_BYTES → run_at m p (record { 0 = 0 }) ≡ map Some (pages_in (record { 0 = 0 }) bytes) → page_at m p ≡ Some bytes }
    ensures taken { (m : Memory) (p : Pfn) → IsHome m p → without_run m p (record { 0 = 0 }) ≡ without_page m p }
    ensures given { (m : Memory) (f : FolioValue) → f.order.0 ≡ 0 → f.first.0 < length m.pages → length f.bytes ≡ PAGE_BYTES → with_folio m f ≡ with_page m f.first f.bytes }
{}
