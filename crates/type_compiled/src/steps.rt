// One turn of compiling.
ghost use Rattle.std.specs.Prelude.{◌≡◌, ◌+◌, ◌<◌, ◌≤◌, ◌++◌, vec_len};
ghost use Rattle.compiling.specs.Limits.{most_tasks, most_results};
ghost use Rattle.typing.specs.Held.{rows_of};
ghost use Rattle.compiling.specs.Code.{state, exec, Grants};
ghost use Rattle.compiling.specs.Tasks.{listed, expand, advance, Ready, Fine};

use crate::choose::{takes, write_op};
use crate::compiler::Compiler;
use crate::scratch::Scratch;
use compiling::tasks::{Op, Task};
use custom::ty_custom::TyCustom;
use matcher::alloc::TypeMatcherAlloc;

impl Scratch {
    // Takes a step: the last results are the kids.
    fn step<S: TypeMatcherAlloc>(&mut self, store: &mut S, op: Op)
        requires grants { Grants (S.limit store.old) op (state (S.nodes store.old) self.old.results.items) }
        requires room { vec_len self.old.results < most_results }
        ensures state { state (S.nodes store.new) self.new.results.items ≡ exec S.sharing op (state (S.nodes store.old) self.old.results.items) }
        ensures limit { S.limit store.new ≡ S.limit store.old }
        ensures tasks { self.new.tasks.items ≡ self.old.tasks.items }
    {
        let rest = self.results.len() - takes(op);
        let n = write_op(store, op, &self.results.as_slice()[rest..]);
        self.results.truncate(rest);
        self.results.push_reserved(n);
    }

    // Takes up one task.
    pub(crate) fn turn<C: TyCustom, S: TypeMatcherAlloc>(
        &mut self,
        from: &Compiler<C>,
        store: &mut S,
        task: Task,
    )
        requires fine { Fine (rows_of from.now.types.now) task }
        requires ready { Ready (S.limit store.old) task (state (S.nodes store.old) self.old.results.items) }
        requires tasks { vec_len self.old.tasks + 3 ≤ most_tasks }
        ensures tasks { self.new.tasks.items ≡ self.old.tasks.items ++ listed (expand (rows_of from.now.types.now) (C.custom from.now.customs.now).wild task) }
        ensures state { state (S.nodes store.new) self.new.results.items ≡ advance S.sharing task (state (S.nodes store.old) self.old.results.items) }
        ensures limit { S.limit store.new ≡ S.limit store.old }
    {
        // Tasks wait as data, not as closures: compiling runs on stacks that were reserved, and allocates nothing.
        match task {
            Task::Step(op) => self.step(store, op),
            _ => self.push_all(from.expanded(task)),
        }
    }
}
