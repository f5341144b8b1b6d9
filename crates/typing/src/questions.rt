// The read questions of a table of types. They change nothing.
ghost use Rattle.std.specs.Prelude.{◌≡◌, ℕ, length};
ghost use Rattle.std.specs.List.{slice_get};
ghost use Rattle.membership.specs.Rows.{row};
ghost use Rattle.membership.specs.Readings.{alt_at, elems, just_any, plain_of};
ghost use Rattle.membership.specs.Measures.{depth, weight};
ghost use Rattle.typing.specs.Outcomes.{type_says, only_of, BasicAt};
ghost use Rattle.typing.specs.Held.{rows_of, pool_of};

use crate::basic::TyBasic;
use crate::types::Types;
use values::refusal::Refusal;

// The one alternative of a type that is no union.
fn lone(alternatives: &[TyBasic]) -> Option<TyBasic>
    ensures { result ≡ only_of alternatives.now }
{
    match alternatives {
        [x] => Some(*x),
        _ => None,
    }
}

impl Types {
    // How many types there are.
    pub fn count(&self) -> usize
        ensures { result ≡ length (rows_of self.now) }
    {
        self.rows.count()
    }

    // How many alternatives the type `t` has.
    pub fn width(&self, t: usize) -> Result<usize, Refusal>
        ensures { result ≡ type_says (rows_of self.now) t (λ w. length w.alts) }
    {
        if t < self.count() {
            return Ok(self.rows.alternatives(t).len());
        }
        Err(Refusal::NoType)
    }

    // How deep the type `t` is.
    pub fn depth(&self, t: usize) -> Result<usize, Refusal>
        ensures held { result ≡ type_says (rows_of self.now) t (λ w. w.deep) }
        ensures measured { result ≡ type_says (rows_of self.now) t (λ _. depth (rows_of self.now) t) }
    {
        if t < self.count() {
            return Ok(self.rows.row(t).depth);
        }
        Err(Refusal::NoType)
    }

    // How heavy the type `t` is.
    pub fn weight(&self, t: usize) -> Result<usize, Refusal>
        ensures held { result ≡ type_says (rows_of self.now) t (λ w. w.heavy) }
        ensures measured { result ≡ type_says (rows_of self.now) t (λ _. weight (rows_of self.now) t) }
    {
        if t < self.count() {
            return Ok(self.rows.row(t).weight);
        }
        Err(Refusal::NoType)
    }

    // The alternative `i` of the type `t`.
    pub fn basic(&self, t: usize, i: usize) -> Option<TyBasic>
        ensures { BasicAt (pool_of self.now) (row (rows_of self.now) t).alts i result }
    {
        self.rows.alternatives(t).get(i).copied()
    }

    // The element `j` of the fixed tuple that is the alternative `i` of the type `t`.
    pub fn element(&self, t: usize, i: usize, j: usize) -> Option<usize>
        ensures { result ≡ slice_get (elems (alt_at (rows_of self.now) t i)) j }
    {
        self.basic(t, i)?.element(self.rows.pool.as_slice(), j)
    }

    // Whether the type `t` is just Any.
    pub fn is_any(&self, t: usize) -> bool
        ensures { result ≡ just_any (row (rows_of self.now) t).alts }
    {
        lone(self.rows.alternatives(t)).is_some_and(|x| x.is_any())
    }

    // The type number of the type `t`, where it is one plain type.
    pub fn is_starlark_value(&self, t: usize) -> Option<u16>
        ensures { result ≡ plain_of (row (rows_of self.now) t).alts }
    {
        lone(self.rows.alternatives(t))?.plain_number()
    }
}
