ghost use Rattle.runs.specs.Throughout.{EveryRunKeepsTheLaw};

// From a blank set, the law holds throughout every run.
pub fn every_run_keeps_the_law()
    ensures { EveryRunKeepsTheLaw }
{}
