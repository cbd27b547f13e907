//! Laws of the definitions.

ghost use Rattle.std.specs.Prelude.{◌≡◌, ℕ, List, ◌^◌, ◌<◌, length, IsTrue};
ghost use Rattle.fdt_blob.specs.declared.tree.FdtPlace.{FdtPlace};
ghost use Rattle.fdt_blob.specs.Trees.{Tree, is_valid};
ghost use Rattle.fdt_blob.specs.Tokens.{Item};
ghost use Rattle.fdt_blob.specs.Blob.{Spells, BreaksAt};
ghost use Rattle.fdt_blob.specs.Places.{IsTreeAt};
ghost use Rattle.fdt_blob.specs.Spelling.{spelling};

/// The one spelling of a valid tree spells it, where its size is a number of four bytes.
pub fn law_of_spelling()
    ensures { (t : Tree) → IsTrue (is_valid t) → length (spelling t) < 2 ^ 32 → Spells (spelling t) t }
{}

/// Bytes spell one tree at most, and one tree at most stands at a place of an opened blob. Bytes whose rules break at a
/// place spell no tree, and break at no other place first.
pub fn law_of_reading()
    ensures one_tree { (blob : List ℕ) (s t : Tree) → Spells blob s → Spells blob t → s ≡ t }
    ensures one_at { (items : List Item) (at : ℕ) (s t : Tree) → IsTreeAt items at s → IsTreeAt items at t → s ≡ t }
    ensures broken { (blob : List ℕ) (place : FdtPlace) (t : Tree) → BreaksAt blob place → Spells blob t → ⊥ }
    ensures one_place { (blob : List ℕ) (p q : FdtPlace) → BreaksAt blob p → BreaksAt blob q → p ≡ q }
{}
