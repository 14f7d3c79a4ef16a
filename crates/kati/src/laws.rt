//! Laws of the meaning. These functions do nothing: only their contracts matter.
ghost use Rattle.kati.specs.views.Limits.{OnlyCuts, OnlyCutsRuns};

/// A limit of levels only cuts: a result that isn't too deep (E08) with a limit is the same with a larger one, and a
/// run ends in the same way with both, in its exit status, too, and in the file that `--check` asks for.
pub fn limit_cuts()
    ensures meanings { OnlyCuts }
    ensures runs { OnlyCutsRuns }
{}
