// The limits of a table of types.
ghost use Rattle.std.specs.Prelude.{◌≡◌, min};
ghost use Rattle.membership.specs.Rows.{row, places, all_places, any_of, too_deep, too_wide, too_heavy, verdict};
ghost use Rattle.typing.specs.Held.{table_of};
ghost use Rattle.typing.specs.Outcomes.{first_number};

use crate::rows::held_sum;
use crate::types::Rows;
use values::refusal::Refusal;

// The most types in a table.
pub const MAX_TYPES: usize = 1024;
// The most places of all types: one for an alternative, one more for each element of a fixed tuple.
pub const MAX_PLACES: usize = 8192;
// The deepest type.
pub const MAX_DEPTH: usize = 32;
// The most alternatives of a type, and the most elements of a fixed tuple.
pub const MAX_WIDTH: usize = 64;
// The heaviest type.
pub const MAX_WEIGHT: usize = 4096;

// Sums that may pass a limit are held just past it.
pub(crate) const HELD_PLACES: usize = MAX_PLACES + 1;

pub(crate) const HELD_DEPTH: usize = MAX_DEPTH + 1;

pub(crate) const HELD_WEIGHT: usize = MAX_WEIGHT + 1;

impl Rows {
    fn any_deep(&self) -> bool
        ensures { result ≡ any_of too_deep (table_of self.now) }
    {
        self.rows.iter().any(|row| row.depth > MAX_DEPTH)
    }

    // Whether the type `t` has too many alternatives, or a fixed tuple with too many elements.
    fn is_wide(&self, t: usize) -> bool
        ensures { result ≡ too_wide (row (table_of self.now) t) }
    {
        let alternatives = self.alternatives(t);
        alternatives.len() > MAX_WIDTH || alternatives.iter().any(|x| x.elements() > MAX_WIDTH)
    }

    fn any_wide(&self) -> bool
        ensures { result ≡ any_of too_wide (table_of self.now) }
    {
        (0..self.count()).any(|t| self.is_wide(t))
    }

    fn any_heavy(&self) -> bool
        ensures { result ≡ any_of too_heavy (table_of self.now) }
    {
        self.rows.iter().any(|row| row.weight > MAX_WEIGHT)
    }

    // The places that the alternatives of the type `t` take, held just past the limit.
    fn row_places(&self, t: usize) -> usize
        ensures { result ≡ min 8193 (places (row (table_of self.now) t).alts) }
    {
        self.alternatives(t).iter().fold(
            0,
            |sum, x| held_sum(HELD_PLACES, held_sum(HELD_PLACES, sum, 1), x.elements()),
        )
    }

    // The places that all types take, held just past the limit.
    fn table_places(&self) -> usize
        ensures { result ≡ min 8193 (all_places (table_of self.now)) }
    {
        (0..self.count()).fold(0, |sum, t| held_sum(HELD_PLACES, sum, self.row_places(t)))
    }

    // Nothing, or else the first limit that the rows break.
    pub(crate) fn first_refusal(&self) -> Result<(), Refusal>
        ensures { first_number result ≡ verdict (table_of self.now) }
    {
        if self.any_deep() {
            return Err(Refusal::TooDeep);
        }
        if self.any_wide() {
            return Err(Refusal::TooWide);
        }
        if self.any_heavy() {
            return Err(Refusal::TooHeavy);
        }
        if self.count() > MAX_TYPES || self.table_places() > MAX_PLACES {
            return Err(Refusal::NoRoom);
        }
        Ok(())
    }
}
