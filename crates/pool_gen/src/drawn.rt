//! The pseudo-random lines of a schedule.
ghost use Rattle.std.specs.Prelude.{◌≡◌, ◌<◌, ◌++◌, OnOk};
ghost use Rattle.rand_core.specs.Steps.{first_words};
ghost use Rattle.rand_pcg.specs.Pcg.{pcg32};
ghost use Rattle.pool_gen.specs.Ring.{drawn_line, drawn_lines};

use crate::pieces::push_piece;
use rand_core::utils::NextWord;
use rand_pcg::Lcg64Xsh32;
use run_types::List;
use std::alloc::AllocError;

/// The line for a random word. It is a turn of one of four nodes, or a move on one of the eight links of a mesh of 2 by
/// 2 nodes.
fn drawn_line(word: u32) -> &'static [u8]
    ensures { result.now ≡ drawn_line word }
{
    match word % 12 {
        0 => b"turn 0\n",
        1 => b"turn 1\n",
        2 => b"turn 2\n",
        3 => b"turn 3\n",
        4 => b"link 0 1\n",
        5 => b"link 0 2\n",
        6 => b"link 1 0\n",
        7 => b"link 1 3\n",
        8 => b"link 2 0\n",
        9 => b"link 2 3\n",
        10 => b"link 3 1\n",
        _ => b"link 3 2\n",
    }
}

/// Appends the lines for the generator's next `count` words. Returns `Err` if memory runs out.
pub fn push_drawn(
    text: &mut List<u8>,
    generator: &mut Lcg64Xsh32,
    count: u32,
) -> Result<(), AllocError>
    ensures { OnOk result (text.new ≡ text.old ++ drawn_lines (first_words pcg32 count generator.old)) }
{
    for done in 0..count {
        push_piece(text, drawn_line(generator.next_word()))?;
    }
    Ok(())
}
