use log_item::{BLOCK, Block, EmittedList};
use std::alloc::{AllocError, Global};

/// Blocks that the records of items are run in, and a list for what one record emits. What runs an item
/// after another keeps them between the items. Beside its rows an item then takes memory for its counts, and
/// each run of a block for lists of its records' keys, values and places.
#[derive(Drop)]
pub struct Blocks {
    pub(crate) alloc: Global,
    // Of as many records as a block has.
    whole: Option<Block>,
    // Of fewer.
    last: Option<Block>,
    pub(crate) emitted: EmittedList,
}

impl Blocks {
    /// Blocks that no item was run in. Their memory comes with the first items.
    pub fn new(alloc: Global) -> Blocks {
        Blocks {
            alloc,
            whole: None,
            last: None,
            emitted: EmittedList::new(alloc),
        }
    }

    /// The allocator of the blocks, and of what is run in them.
    pub fn alloc(&self) -> Global {
        self.alloc
    }

    /// A block for so many records, the one that was kept of as many if there is one.
    pub(crate) fn take(&mut self, count: usize) -> Result<Block, AllocError> {
        let kept = if count == BLOCK {
            self.whole.take()
        } else {
            self.last.take()
        };
        match kept {
            Some(block) => Ok(block),
            None => Block::new(self.alloc),
        }
    }

    /// Keeps a block that was taken for so many records.
    pub(crate) fn keep(&mut self, count: usize, block: Block) {
        if count == BLOCK {
            self.whole = Some(block);
        } else {
            self.last = Some(block);
        }
    }
}
