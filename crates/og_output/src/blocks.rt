//! Blocks of rows of one day, and the text that is made of a block.
ghost use Rattle.std.specs.Prelude.{◌≡◌, IfOk};
ghost use Rattle.std.specs.List.{flat_map};
ghost use Rattle.og_rel.specs.Shares.{rows_of};

use crate::rows::rows_text;
use og_base::NoMemory;
use og_par::Piece;
use og_value::Sight;
use std::alloc::Global;

/// How many rows a block has; the last one of a list may have fewer.
pub const BLOCK: usize = 1024;

/// The rows of the lists cut into blocks. Refused only for want of memory.
pub fn blocks_of<'a, 'r>(
    alloc: Global,
    lists: &'a [Vec<Sight<'r>>],
) -> Result<Vec<&'a [Sight<'r>]>, NoMemory>
    ensures { IfOk result (λ v. flat_map (λ b. b.now) v.items ≡ rows_of lists.now) }
{
    let mut blocks = Vec::new(alloc);
    'lists: for list in lists {
        blocks.extend(list.chunks(BLOCK))?;
    }
    Ok(blocks)
}

/// Makes of a block of rows the text of its records.
#[derive(Clone, Copy, Debug)]
pub struct BlockText;

impl<'a, 'r> Piece<&'a [Sight<'r>]> for BlockText {
    ghost use Rattle.std.specs.Prelude.{◌≡◌, map};
    ghost use Rattle.std.specs.List.{flat_map};
    ghost use Rattle.og_value.specs.Cells.{fixed_text};
    ghost use Rattle.og_output.specs.Records.{records};

    type Out = Vec<u8>;

    ghost gives = { λ piece block made. flat_map (λ text. text.items) made ≡ records (map (map fixed_text) block.now) };

    fn make(
        &self,
        alloc: Global,
        item: &&'a [Sight<'r>],
        out: &mut Vec<Vec<u8>>,
    ) -> Result<(), NoMemory> {
        let text = rows_text(alloc, *item)?;
        out.push(text)?;
        Ok(())
    }
}
