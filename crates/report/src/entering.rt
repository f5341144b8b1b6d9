// The texts of a job, entered one after another.
ghost use Rattle.std.specs.Prelude.{◌≡◌, [], IfOk, Ok, Err, MatchResult, OnOk};
ghost use Rattle.values.specs.Refusals.{number};
ghost use Rattle.membership.specs.Rows.{Keeps, start};
ghost use Rattle.typing.specs.Held.{rows_of};
ghost use Rattle.compiling.specs.Outcomes.{alloc_ty_lem, granted, refused, entered};
ghost use Rattle.type_compiled.specs.Compiled.{annotations_of};
ghost use Rattle.annotation.specs.Evaluated.{ReadAs};
ghost use Rattle.job.specs.Held.{job_bytes};
ghost use Rattle.job_format.specs.Contents.{job_texts};
ghost use Rattle.report.specs.Entering.{Enters, EnterAll, AllRight};
ghost use Rattle.report.specs.Reports.{Turned, Stopped};
ghost use Rattle.working_set.specs.Sets.{state_of as set_state};
ghost use Rattle.report.specs.Held.{state_of, setting, set_over};

use crate::bad::{BadRecord, InRecord};
use crate::tables::Tables;
use annotation::fault::TextFault;
use annotation::reader::Reader;
use custom::ty_custom::TyCustom;
use job::verified::Job;
use matcher::alloc::TypeMatcherAlloc;
use std::alloc::{AllocError, Global};
use type_compiled::annotations::{Annotations, TypeCompiled};
use type_compiled::compile::alloc_ty;
use type_compiled::factory::TypeCompiledFactory;
use typing::types::Types;
use values::heap::Heap;
use values::live::LiveHeap;
use values::refusal::Refusal;
use working_set::set::WorkingSet;

// Reads a text; its fault is the fault of its record.
fn read_type(
    reader: &mut Reader,
    types: &mut Types,
    n: usize,
    text: &[u8],
) -> Result<usize, InRecord<TextFault>>
    ensures read { MatchResult result (λ ty. ReadAs text.now (rows_of types.old) (rows_of types.new) (Ok ty)) (λ x. (x.number ≡ n) × ReadAs text.now (rows_of types.old) (rows_of types.new) (Err x.fault)) }
    ensures stay { OnOk result (Keeps (rows_of types.old) (rows_of types.new)) }
{
    reader
        .read(text, types)
        .map_err(|fault| InRecord { number: n, fault })
}

// Compiles the type of a text; a refusal is the fault of its record.
fn compile_type<C: TyCustom, S: TypeMatcherAlloc>(
    types: &Types,
    customs: &C,
    store: &mut S,
    annotations: &mut Annotations,
    n: usize,
    ty: usize,
) -> Result<TypeCompiled, InRecord<Refusal>>
    ensures made { MatchResult result (λ a. alloc_ty_lem S.sharing (S.limit store.old) (rows_of types.now) (C.custom customs.now).wild ty (S.nodes store.old) (annotations_of annotations.old) ≡ granted (entered (S.nodes store.new) (annotations_of annotations.new) a.0)) (λ x. (x.number ≡ n) × (alloc_ty_lem S.sharing (S.limit store.old) (rows_of types.now) (C.custom customs.now).wild ty (S.nodes store.old) (annotations_of annotations.old) ≡ refused (number x.fault))) }
    ensures limit { S.limit store.new ≡ S.limit store.old }
{
    alloc_ty(
        TypeCompiledFactory::new(ty),
        types,
        customs,
        store,
        annotations,
    )
    .map_err(|fault| InRecord { number: n, fault })
}

impl<S: TypeMatcherAlloc + Drop> Tables<S> {
    // Tables with no text entered, over a store.
    pub(crate) fn over(memory: Global, store: S) -> Result<Tables<S>, AllocError>
        ensures { IfOk result (λ t. (state_of S.nodes t ≡ record { rows = start; nodes = S.nodes store; annotations = [] }) × (t.store ≡ store)) }
    {
        let types = Types::new(memory)?;
        let reader = Reader::new(memory)?;
        let annotations = Annotations::new(memory)?;
        Ok(Tables {
            types,
            reader,
            store,
            annotations,
        })
    }

    // The working set over a heap that has what was entered.
    pub(crate) fn into_set<H: Heap + Drop, C: TyCustom + Drop>(
        self,
        memory: Global,
        below: H,
        customs: C,
    ) -> Result<WorkingSet<H, S, C>, AllocError>
        ensures { IfOk result (λ w. (set_state H.cells S.nodes S.limit w ≡ set_over (H.cells below) (S.limit self.store) (state_of S.nodes self)) × (w.customs ≡ customs)) }
    {
        let live = LiveHeap::over(memory, below)?;
        let Tables {
            types,
            reader: _,
            store,
            annotations,
        } = self;
        Ok(WorkingSet::of_parts(live, types, store, annotations, customs))
    }
}

impl<S: TypeMatcherAlloc> Tables<S> {
    // Reads a text and compiles its type.
    fn enter<C: TyCustom>(&mut self, customs: &C, n: usize, text: &[u8]) -> Result<(), BadRecord>
        requires { AllRight (C.custom customs.now) (state_of S.nodes self.old) }
        ensures entered { MatchResult result (λ _. Enters (setting S.sharing (S.limit self.old.store) (C.custom customs.now)) text.now (state_of S.nodes self.old) (state_of S.nodes self.new)) (λ bad. Turned (setting S.sharing (S.limit self.old.store) (C.custom customs.now)) (state_of S.nodes self.old) n text.now bad) }
        ensures right { OnOk result (AllRight (C.custom customs.now) (state_of S.nodes self.new)) }
        ensures limit { S.limit self.new.store ≡ S.limit self.old.store }
    {
        let ty = read_type(&mut self.reader, &mut self.types, n, text)?;
        compile_type(
            &self.types,
            customs,
            &mut self.store,
            &mut self.annotations,
            n,
            ty,
        )?;
        Ok(())
    }

    // Enters the texts of a job, up to the first that is turned down.
    pub(crate) fn enter_all<C: TyCustom>(&mut self, customs: &C, job: &Job) -> Result<(), BadRecord>
        requires { AllRight (C.custom customs.now) (state_of S.nodes self.old) }
        ensures limit { S.limit self.new.store ≡ S.limit self.old.store }
        ensures entered { MatchResult result (λ _. EnterAll (setting S.sharing (S.limit self.old.store) (C.custom customs.now)) (job_texts (job_bytes job.now)) (state_of S.nodes self.old) (state_of S.nodes self.new)) (λ bad. Stopped (setting S.sharing (S.limit self.old.store) (C.custom customs.now)) (job_bytes job.now) (state_of S.nodes self.old) bad) }
        ensures right { OnOk result (AllRight (C.custom customs.now) (state_of S.nodes self.new)) }
    {
        for text in job.texts_in_order() {
            self.enter(customs, text.record, text.bytes)?;
        }
        Ok(())
    }
}
