// Types of one alternative, and the judgement of rows that grew, in reserved memory: no call lacks memory.
ghost use Rattle.std.specs.Prelude.{◌≡◌, ◌+◌, ◌≤◌, true, [], ◌∷◌, ◌++◌, length, take, vec_capacity, MatchResult};
ghost use Rattle.values.specs.Refusals.{number};
ghost use Rattle.membership.specs.Rows.{single, parts, all_below_lem, plainly, verdict, each};
ghost use Rattle.typing.specs.View.{alt, pooled, placed};
ghost use Rattle.typing.specs.Held.{table_of, pool_in};
ghost use Rattle.typing.specs.Growing.{Grew, Cut, Ready};
ghost use Rattle.typing.specs.Outcomes.{Answered};

use crate::basic::TyBasic;
use crate::types::Rows;
use values::refusal::Refusal;

// A row of one alternative, where a place is reserved.
fn row_of_one(row: &mut Vec<TyBasic>, x: TyBasic)
    requires { 1 ≤ vec_capacity row.old }
    ensures items { row.new.items ≡ x ∷ [] }
    ensures reserved { vec_capacity row.new ≡ vec_capacity row.old }
{
    row.clear();
    row.push_reserved(x);
}

impl Rows {
    // Whether all of these are numbers of types.
    pub(crate) fn all_stand(&self, parts: &[usize]) -> bool
        ensures { result ≡ all_below_lem (length (table_of self.now)) parts.now }
    {
        parts.iter().all(|p| *p < self.count())
    }

    fn parts_stand(&self, first: &[usize], second: &[usize]) -> bool
        ensures { result ≡ all_below_lem (length (table_of self.now)) (first.now ++ second.now) }
    {
        self.all_stand(first) && self.all_stand(second)
    }

    // Keeps the rows that meet the limits, or else cuts them back to those that stood.
    pub(crate) fn judge(&mut self, stood: usize, filled: usize) -> Result<(), Refusal>
        requires { each (placed filled) (take stood self.old.rows.items) ≡ true }
        ensures { MatchResult result (λ _. (self.new ≡ self.old) × (verdict (table_of self.old) ≡ 0)) (λ f. Cut self.old self.new stood filled × (number f ≡ verdict (table_of self.old))) }
    {
        let answer = self.first_refusal();
        if answer.is_err() {
            self.rows.truncate(stood);
            self.all.truncate(filled);
        }
        answer
    }

    // The type with one alternative. A refused call leaves the table as it was.
    pub(crate) fn single(
        &mut self,
        scratch: &mut Vec<TyBasic>,
        x: TyBasic,
    ) -> Result<usize, Refusal>
        requires ready { Ready self.old scratch.old }
        requires new { pooled (length (pool_in self.old)) x ≡ true }
        requires plainly { plainly (alt (pool_in self.old) x) ≡ true }
        ensures ready { Ready self.new scratch.new }
        ensures grew { Grew self.old self.new }
        ensures answers { Answered (single (table_of self.old) (alt (pool_in self.old) x)) (table_of self.old) (table_of self.new) result }
        ensures few { length self.new.all.items ≤ length self.old.all.items + 1 }
    {
        let stood = self.count();
        let filled = self.all.len();
        let (first, second) = x.parts(self.pool.as_slice());
        if !self.parts_stand(first, second) {
            return Err(Refusal::NoType);
        }
        row_of_one(scratch, x);
        let n = self.intern(scratch.as_slice());
        self.judge(stood, filled)?;
        Ok(n)
    }
}
