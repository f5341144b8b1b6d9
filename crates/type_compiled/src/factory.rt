ghost use Rattle.std.specs.Prelude.{◌≡◌};

// A factory for one type, used up by one call.
#[derive(Drop)]
pub struct TypeCompiledFactory {
    pub(crate) ty: usize,
}

impl TypeCompiledFactory {
    // A factory for the type with this number, whether there is one or not.
    pub fn new(ty: usize) -> TypeCompiledFactory
        ensures { result.ty ≡ ty }
    {
        TypeCompiledFactory { ty }
    }
}
