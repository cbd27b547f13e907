//! The structure block as a whole (5.4).

ghost use Rattle.std.specs.Prelude.{◌≡◌, ◌+◌, ◌*◌, ◌≤◌, ◌++◌, ◌&&◌, length, IfOk, OnOk, MatchOption, vec_len, ⊤};
ghost use Rattle.std.specs.Option.{option_to_list};
ghost use Rattle.fdt_blob.specs.Trees.{Tree, same_name};
ghost use Rattle.fdt_blob.specs.Tokens.{end_bytes};
ghost use Rattle.fdt_blob.specs.Blob.{StructureSpells};
ghost use Rattle.fdt_blob.specs.Shape.{is_shape as shape, has_names_apart as names_apart};
ghost use Rattle.fdt_blob.specs.Places.{SpellsTree};
ghost use Rattle.fdt_blob.specs.Cut.{HasRead};
ghost use Rattle.fdt_blob.specs.Items.{item_views, item_view_of};

use crate::doubles::has_names_apart;
use crate::items::Item;
use crate::reading::next_item;
use crate::shape::is_shape;
use std::alloc::{AllocError, Global};

/// Whether the bytes are the token END and no more.
fn is_end(bytes: &[u8]) -> bool
    ensures { result ≡ same_name bytes.now end_bytes }
{
    bytes == [0, 0, 0, 9].as_slice()
}

/// Puts an item behind others, if there is one.
fn push<'a>(items: &mut Vec<Item<'a>>, item: Option<Item<'a>>) -> Result<(), AllocError>
    ensures items { OnOk result (item_views items.new.items ≡ item_views items.old.items ++ option_to_list (item_view_of item.entry)) }
    ensures len { OnOk result (vec_len items.new ≤ vec_len items.old + 1) }
{
    if let Some(item) = item {
        items.push(item)?;
    }
    Ok(())
}

/// The items of a structure block: none where its bytes are not those of tokens with END behind them.
pub(crate) fn items_of<'a>(
    alloc: Global,
    strings: &'a [u8],
    block: &'a [u8],
) -> Result<Option<Vec<Item<'a>>>, AllocError>
    ensures found { IfOk result (λ found. MatchOption found ((t : Tree) → StructureSpells strings.now block.now t → ⊥) (λ items. HasRead strings.now block.now (item_views items.items) end_bytes)) }
    ensures few { IfOk result (λ found. MatchOption found ⊤ (λ items. 4 * vec_len items ≤ length block.now)) }
{
    let mut items = Vec::new(alloc);
    let mut rest = block;
    while !is_end(rest) {
        let Some((item, behind)) = next_item(strings, rest) else {
            return Ok(None);
        };
        push(&mut items, item)?;
        rest = behind;
    }
    Ok(Some(items))
}

/// Whether items are those of a valid tree.
fn is_tree(alloc: Global, items: &[Item]) -> Result<bool, AllocError>
    ensures { IfOk result (λ is. is ≡ (shape (item_views items.now) && names_apart (item_views items.now))) }
{
    if !is_shape(items) {
        return Ok(false);
    }
    has_names_apart(alloc, items)
}

/// The items of the tree that a structure block spells: none where it spells none.
pub(crate) fn items_of_tree<'a>(
    alloc: Global,
    strings: &'a [u8],
    block: &'a [u8],
) -> Result<Option<Vec<Item<'a>>>, AllocError>
    ensures found { IfOk result (λ found. MatchOption found ((t : Tree) → StructureSpells strings.now block.now t → ⊥) (λ items. SpellsTree strings.now block.now (item_views items.items))) }
    ensures few { IfOk result (λ found. MatchOption found ⊤ (λ items. 4 * vec_len items ≤ length block.now)) }
{
    let Some(items) = items_of(alloc, strings, block)? else {
        return Ok(None);
    };
    if is_tree(alloc, &items)? {
        Ok(Some(items))
    } else {
        Ok(None)
    }
}
