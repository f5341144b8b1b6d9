// Nodes of every kind at every value of one heap, the limits of nodes, full stores and refusals.
// What must come out is worked out by hand from the rules and stands in `stdout`.
#![tactic(auto)]

mod bench;
mod cells;
mod full;
mod kinds;
mod limits;
mod refused;

fn main(rt: HostRuntime) -> anyhow::Result<()> {
    kinds::simple(rt)?;
    kinds::holders(rt)?;
    kinds::tuples(rt)?;
    kinds::dicts(rt)?;
    kinds::unions(rt)?;
    kinds::numbered(rt)?;
    limits::deep(rt)?;
    limits::wide(rt)?;
    full::plain(rt)?;
    full::sharing(rt)?;
    refused::forms(rt)?;
    refused::runs(rt)?;
    refused::questions(rt)?;
    Ok(())
}
