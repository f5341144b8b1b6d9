ghost use Rattle.std.specs.Prelude.{◌≡◌, ◌+◌, ◌≤◌, [], ◌∷◌, ◌++◌, vec_len, vec_capacity};
ghost use Rattle.compiling.specs.Limits.{most_tasks, most_results};
ghost use Rattle.compiling.specs.Tasks.{listed};
ghost use Rattle.compiling.specs.declared.tasks.Task.TheVariants.{Ty};

use compiling::tasks::{Expansion, Task};
use std::alloc::{AllocError, Global};

// The most tasks and results that wait at a time.
const MOST_TASKS: usize = 20483;

const MOST_RESULTS: usize = 4096;

// The stacks of tasks and results, reserved.
#[derive(Drop)]
pub struct Scratch {
    pub(crate) tasks: Vec<Task>,
    pub(crate) results: Vec<usize>,
    ghost fortasks: { most_tasks ≤ vec_capacity tasks },
    ghost forresults: { most_results ≤ vec_capacity results },
}

impl Scratch {
    pub(crate) fn new(heap: Global) -> Result<Scratch, AllocError> {
        let tasks = Vec::with_capacity(heap, MOST_TASKS)?;
        let results = Vec::with_capacity(heap, MOST_RESULTS)?;
        Ok(Scratch { tasks, results })
    }

    pub(crate) fn push_all(&mut self, tasks: Expansion)
        requires { vec_len self.old.tasks + 3 ≤ most_tasks }
        ensures tasks { self.new.tasks.items ≡ self.old.tasks.items ++ listed tasks }
        ensures results { self.new.results.items ≡ self.old.results.items }
    {
        match tasks {
            Expansion::Zero => {}
            Expansion::One(a) => self.tasks.push_reserved(a),
            Expansion::Two(a, b) => {
                self.tasks.push_reserved(a);
                self.tasks.push_reserved(b);
            }
            Expansion::Three(a, b, c) => {
                self.tasks.push_reserved(a);
                self.tasks.push_reserved(b);
                self.tasks.push_reserved(c);
            }
        }
    }

    pub(crate) fn start(&mut self, t: usize)
        ensures tasks { self.new.tasks.items ≡ Ty t ∷ [] }
        ensures results { self.new.results.items ≡ [] }
    {
        self.tasks.clear();
        self.results.clear();
        self.tasks.push_reserved(Task::Ty(t));
    }
}
