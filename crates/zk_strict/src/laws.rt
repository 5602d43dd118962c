// Laws of misuses.

ghost use Rattle.zk_strict.specs.Laws.{ConstantsAreToldInRuns, ValuesAreTaken};

/// Where a step takes values for all operands, the first two are those by which a misuse is told in a run.
pub fn values_are_taken()
    ensures { ValuesAreTaken }
{}

/// What is told of an instruction without a run is told in each run that comes to it.
pub fn constants_are_told_in_runs()
    ensures { ConstantsAreToldInRuns }
{}
