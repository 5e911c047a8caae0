//! Laws of the program, as contracts of functions with empty bodies.
ghost use Rattle.jj_program.specs.Laws.{FaultsAreOfFirstLines, ResultsAreUnique};
ghost use Rattle.jj_program.specs.FoundFiles.{FindsItsFiles};
ghost use Rattle.jj_program.specs.LineFaults.{FaultsAreOfFirstKinds};
ghost use Rattle.jj_program.specs.LineForms.{HasTheseLines};

/// Each command has exactly one result for an input, one output or one fault: the output of a run
/// is a function of its input.
pub fn results_are_unique()
    ensures { ResultsAreUnique }
{}

/// A line fault names the first faulty line: it does not depend on later lines, and the lines
/// before it are valid whatever follows them.
pub fn faults_are_of_first_lines()
    ensures { FaultsAreOfFirstLines }
{}

/// A command reports the first kind of fault, in the order of `LineFault`, of the first line that
/// has one. Otherwise it returns its output, or, for a walk that does not leave exactly one set,
/// the number of sets left. Faults are defined over the fields of the input only.
pub fn faults_are_of_first_kinds()
    ensures { FaultsAreOfFirstKinds }
{}

/// A walk finds exactly the marked paths below the root that are in the set that its input
/// describes, each once, in path order. A glob contains the paths that it matches by definition,
/// however matching is implemented.
pub fn walks_find_their_files()
    ensures { FindsItsFiles }
{}

/// The lines of each command: the word, the shape of the fields after it, and the action.
pub fn commands_have_these_lines()
    ensures { HasTheseLines }
{}
