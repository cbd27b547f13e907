//! The map of free blocks.

ghost use Rattle.std.specs.Prelude.{◌≡◌, ◌+◌, ◌<◌, ◌≤◌, ◌^◌, length, replicate, slice_index, slice_set, IfOk};
ghost use Rattle.buddy_pages.specs.Blocks.{block_count};

use ho_base::limits::MAX_ORDER;
use std::alloc::{AllocError, Global};
use std::marker::Model;

/// How many orders there are: 0 to [`MAX_ORDER`].
const ORDERS: usize = 10;

/// For each frame 0, or `1 + o` where a free block of order `o` begins; beside them only how many blocks
/// of each order there are. Contracts see the list of these numbers.
#[derive(Debug, Drop)]
pub(crate) struct PageMap {
    tags: Vec<u8>,
    blocks: [u32; ORDERS],
}

impl Model for PageMap {
    ghost use Rattle.std.specs.Prelude.{List, ℕ};

    ghost Value = { List ℕ };

    ghost use Rattle.buddy_pages.specs.Blocks.{IsCounted};

    ghost view = { λ m. m.tags.items };

    ghost invariant = { λ m. IsCounted m.tags.items m.blocks };
}

impl PageMap {
    /// A map of no block at all.
    pub fn new(alloc: Global, frames: u32) -> Result<PageMap, AllocError>
        ensures { IfOk result (λ map. map ≡ replicate frames 0) }
    {
        let tags = vec![in alloc; 0u8; frames as usize]?;
        Ok(PageMap {
            tags,
            blocks: [0; ORDERS],
        })
    }

    /// How many frames there are.
    pub fn len(&self) -> usize
        ensures { result ≡ length self.now }
    {
        self.tags.len()
    }

    /// The number at a frame.
    pub fn tag(&self, frame: usize) -> u8
        requires { frame < length self.now }
        ensures { result ≡ slice_index self.now frame }
    {
        self.tags[frame]
    }

    /// How many free blocks of an order there are.
    pub fn blocks(&self, order: u8) -> u32
        requires { order ≤ MAX_ORDER }
        ensures { result ≡ block_count self.now order }
    {
        self.blocks[order as usize]
    }

    /// Makes a free block begin at a frame.
    pub fn put(&mut self, frame: usize, order: u8)
        requires frame { frame < length self.old }
        requires order { order ≤ MAX_ORDER }
        requires none { slice_index self.old frame ≡ 0 }
        ensures { self.new ≡ slice_set self.old frame (order + 1) }
    {
        self.tags[frame] = order + 1;
        self.blocks[order as usize] += 1;
    }

    /// Removes the free block that begins at a frame.
    pub fn clear(&mut self, frame: usize, order: u8)
        requires order { order ≤ MAX_ORDER }
        requires block { slice_index self.old frame ≡ order + 1 }
        ensures { self.new ≡ slice_set self.old frame 0 }
    {
        self.tags[frame] = 0;
        self.blocks[order as usize] -= 1;
    }
}
