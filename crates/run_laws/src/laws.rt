//! Laws of runs: each function does nothing, and its contract is the law.

ghost use Rattle.run_laws.specs.{Agreement.RunsAgree, Headline.RunsTell, Loads.RunsAreOfTheirLoads};

/// Ties the certificate that `solve` or `share` stored to later runs with the same bytes for the problem. If `solve`
/// ends with status 0 or 1, `check` gives the same answer to its certificate, each in its form: a text with codes or
/// names, or an object of JSON. If it ends with status 0, `list` lists all best groupings by the certificate: it is
/// never open. If `share` ends with status 0, `check` says of its certificate that the board's target is best. `share`
/// with another status stores nothing.
///
/// The later run may be cut off because its budget is too small, because a file could not be had, or because memory was
/// refused. If the names of the counties are read, one may be refused. `list` may find no grouping of the number that
/// is asked for.
pub fn runs_agree()
    ensures { RunsAgree }
{}

/// Tells what a run of each command says of the files that it was given, for each of the statuses 0, 1 and 3.
pub fn runs_tell()
    ensures { RunsTell }
{}

/// Carries what is promised of runs over given files to runs over the machine's files, if the loads answered as some
/// files have it. Such a run, of a command or of the program's words, is a run over those files. A load says nothing of
/// the files if it was stopped by a fault of the device or for want of memory.
pub fn runs_are_of_their_loads()
    ensures { RunsAreOfTheirLoads }
{}
