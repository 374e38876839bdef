// The common part of two graphs in words, over an accepted table (document 01, "Common part").

ghost use Rattle.std.specs.Prelude.{true};
ghost use Rattle.engine.specs.Generalizing.{generalized};

use crate::operation::Operation;
use replies::Refusal;

// The operation that writes the common part.
pub struct CommonPart;

impl Operation for CommonPart {
    const JOINS: bool = true;

    ghost JOINS = { true };

    ghost written = { generalized };

    fn of_graphs<'a>(
        n: usize,
        sets: &'a [u64; bounds::sets::WORDS],
        cells: &'a [[u8; 64]],
        a: &'a [u16],
        b: &'a [u16],
        out: &mut [u8],
    ) -> Result<usize, Refusal> {
        Ok(generalize::generalize(n, sets, cells, a, b, out)?)
    }
}
