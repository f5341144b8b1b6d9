ghost use Rattle.std.specs.Prelude.{◌≡◌, ◌≤◌, vec_len};
ghost use Rattle.custom.specs.Entries.{entries_mean, entries_open};
ghost use Rattle.std.proofs.Common.{rules};

use crate::entry::Entry;
use crate::ty_custom::TyCustom;
use values::head::Head;

// A test for each entry.
#[derive(Drop)]
pub struct Entries<E> {
    pub(crate) entries: Vec<E>,
    ghost few: { vec_len entries ≤ 65535 },
}

impl<E: Entry> TyCustom for Entries<E> {
    ghost custom = { λ s. entries_mean E.none E.wild E.tells s.entries.items };

    ghost few = { Prim.search rules };

    ghost open = { λ s. entries_open E.none E.wild E.tells s.entries.items E.opens };

    ghost ends = { Prim.search rules };

    fn count(&self) -> u16 {
        self.entries.len() as u16
    }

    fn is_wildcard(&self, n: u16) -> bool {
        self.entries
            .get(usize::from(n))
            .is_some_and(|e| e.is_wild())
    }

    fn matches(&self, n: u16, head: Head) -> bool {
        self.entries
            .get(usize::from(n))
            .is_some_and(|e| e.says(head))
    }
}
