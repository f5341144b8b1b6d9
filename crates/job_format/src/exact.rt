ghost use Rattle.job_format.specs.Encoding.{Exactly};

// The format is exact: the encodings of good jobs are the good jobs, and what was written is read.
pub fn format_stands()
    ensures { Exactly }
{}
