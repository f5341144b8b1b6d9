ghost use Rattle.std.specs.Prelude.{◌≡◌, ◌<◌, vec_len, MatchResult};
ghost use Rattle.custom.specs.Held.{entries_in};
ghost use Rattle.values.specs.declared.refusal.Refusal.{Refusal};

use crate::list::Entries;
use values::refusal::Refusal;

// The most entries: a custom has numbers up to 65,534.
const MOST: usize = 65535;

impl<E: Drop> Entries<E> {
    pub fn new(entries: Vec<E>) -> Result<Entries<E>, Refusal>
        ensures { MatchResult result (λ s. entries_in s ≡ entries.items) (λ e. (e ≡ Refusal.NoRoom) × (65535 < vec_len entries)) }
    {
        if entries.len() > MOST {
            return Err(Refusal::NoRoom);
        }
        Ok(Entries { entries })
    }
}
