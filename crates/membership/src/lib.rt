// What a table of types is, and which values its types have.
#![tactic(auto)]

ghost use Rattle.membership.specs.Members.{UnionsHaveTheirSides, GrowingKeepsMembers};
ghost use Rattle.membership.specs.Measures.{SizesAreTrue};
ghost use Rattle.membership.specs.Samples.{MembersSamples};

// A granted union has the members of its sides, and no others unless both sides hold a list or both a dict.
pub fn unions_have_their_sides()
    ensures { UnionsHaveTheirSides }
{}

// A table that grows keeps the members of the types that stand.
pub fn growing_keeps_members()
    ensures { GrowingKeepsMembers }
{}

// The depth and the weight that a row holds are its type's.
pub fn sizes_are_true()
    ensures { SizesAreTrue }
{}

// The samples of members.
pub fn samples_hold()
    ensures { MembersSamples }
{}
