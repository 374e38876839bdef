// The combination of two graphs in words, over an accepted table (document 01, "Combination").

ghost use Rattle.std.specs.Prelude.{◌≡◌, false, Err};
ghost use Rattle.engine.specs.Unifying.{combined_reply, unified_rows};
ghost use Rattle.replies.specs.Replies.{told};

use crate::operation::Operation;
use replies::Refusal;
use unify::NoCombination;

// The operation that writes the combination.
pub struct Combination;

impl Operation for Combination {
    const JOINS: bool = false;

    ghost JOINS = { false };

    ghost written = { unified_rows };

    fn of_graphs<'a>(
        n: usize,
        sets: &'a [u64; bounds::sets::WORDS],
        cells: &'a [[u8; 64]],
        a: &'a [u16],
        b: &'a [u16],
        out: &mut [u8],
    ) -> Result<usize, Refusal> {
        unify::unify(n, sets, cells, a, b, out).map_err(refused)
    }
}

// The refusal that tells why there is no combination.
fn refused(why: NoCombination) -> Refusal
    ensures { told (Err result) ≡ combined_reply (Err why) }
{
    match why {
        NoCombination::Cycle => Refusal::Cycle,
        NoCombination::Clash => Refusal::Clash,
        NoCombination::Unwritten(why) => Refusal::from(why),
    }
}
