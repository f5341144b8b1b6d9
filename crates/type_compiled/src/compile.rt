ghost use Rattle.std.specs.Prelude.{◌≡◌, ◌-◌, ◌*◌, ◌<◌, ◌≤◌, length, take};
ghost use Rattle.matcher.specs.Nodes.{used};
ghost use Rattle.membership.specs.Rows.{row};
ghost use Rattle.typing.specs.Held.{rows_of};
ghost use Rattle.compiling.specs.Written.{written};
ghost use Rattle.compiling.specs.Outcomes.{alloc_ty_lem};
ghost use Rattle.type_compiled.specs.Compiled.{annotations_of, Compiled, Meant};

use crate::annotations::{Annotations, TypeCompiled};
use crate::compiler::Compiler;
use crate::factory::TypeCompiledFactory;
use crate::scratch::Scratch;
use custom::ty_custom::TyCustom;
use matcher::alloc::TypeMatcherAlloc;
use typing::types::Types;
use values::refusal::Refusal;

impl<C: TyCustom> Compiler<'_, C> {
    // Writes the nodes of a type for which there is room, and answers their root.
    fn write_ty<S: TypeMatcherAlloc>(&self, store: &mut S, scratch: &mut Scratch, t: usize) -> usize
        requires stands { t < length (rows_of self.now.types.now) }
        requires room { 2 * (row (rows_of self.now.types.now) t).heavy ≤ S.limit store.old - used (S.nodes store.old) }
        ensures nodes { S.nodes store.new ≡ (written S.sharing (rows_of self.now.types.now) (C.custom self.now.customs.now).wild t (S.nodes store.old)).nodes }
        ensures root { result ≡ (written S.sharing (rows_of self.now.types.now) (C.custom self.now.customs.now).wild t (S.nodes store.old)).root }
        ensures limit { S.limit store.new ≡ S.limit store.old }
    {
        scratch.start(t);
        while let Some(task) = scratch.tasks.pop() {
            scratch.turn(self, store, task);
        }
        scratch.results.pop().unwrap()
    }
}

// Compiles the factory's type: the number of a new annotation. A refused call changes nothing.
pub fn alloc_ty<C: TyCustom, S: TypeMatcherAlloc>(
    factory: TypeCompiledFactory,
    types: &Types,
    customs: &C,
    store: &mut S,
    annotations: &mut Annotations,
) -> Result<TypeCompiled, Refusal>
    ensures made { Compiled (alloc_ty_lem S.sharing (S.limit store.old) (rows_of types.now) (C.custom customs.now).wild factory.ty (S.nodes store.old) (annotations_of annotations.old)) (S.nodes store.old) (annotations_of annotations.old) result (S.nodes store.new) (annotations_of annotations.new) }
    ensures means { Meant (C.custom customs.now) (rows_of types.now) factory.ty (S.nodes store.new) (annotations_of annotations.new) result }
    ensures stand { take (length (S.nodes store.old)) (S.nodes store.new) ≡ S.nodes store.old }
    ensures limit { S.limit store.new ≡ S.limit store.old }
{
    let t = factory.ty;
    let weight = types.weight(t)?;
    if annotations.is_full() || store.free() < 2 * weight {
        return Err(Refusal::NoRoom);
    }
    let compiler = Compiler { types, customs };
    let root = compiler.write_ty(store, &mut annotations.scratch, t);
    Ok(annotations.enter(t, root))
}
