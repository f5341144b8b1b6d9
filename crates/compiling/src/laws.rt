ghost use Rattle.compiling.specs.Outcomes.{CompiledTypesHaveTheirMembers};
ghost use Rattle.compiling.specs.Samples.{Samples};

// A compiled annotation accepts just the members of its type, in every heap.
pub fn compiled_types_have_their_members()
    ensures { CompiledTypesHaveTheirMembers }
{}

// The samples hold in the definitions.
pub fn samples_stand()
    ensures { Samples }
{}
