// What is proved of preprocessed units, and examples of them.
ghost use Rattle.meaning_preprocessing.specs.examples.DirectiveRows.{LineRows, GroupRows, TextRows};
ghost use Rattle.meaning_preprocessing.specs.examples.MacroRows.{DefinitionRows, ConditionRows, LeftNameRows};
ghost use Rattle.meaning_preprocessing.specs.examples.IncludeRows.{SearchRows, HeaderRows, FileRows, CommandRows, DepthRows, LimitRows};
ghost use Rattle.meaning_preprocessing.specs.laws.Lines.{LinesHaveAllTokens, SkippedLinesDoNotShow, LinesBehindADirective, LinesBehindTheEnd};
ghost use Rattle.meaning_preprocessing.specs.laws.LongerFiles.{TokensBehindTheEnd, LinesBehindTheUnitsEnd, FilesWithoutIncludesAreReadOnce};
ghost use Rattle.meaning_preprocessing.specs.laws.Macros.{DefinitionsAreWellFormed};
ghost use Rattle.meaning_preprocessing.specs.laws.Units.{UnitsExist, UnitsAreUnique, UnitsAreWithinTheLimit, PlainFilesStay, NumbersTellPaths, NumbersStay};

/// Options, a map of files and a path have exactly one unit, of no more tokens than the limit.
pub fn each_path_has_one_unit()
    ensures exist { UnitsExist }
    ensures unique { UnitsAreUnique }
    ensures limit { UnitsAreWithinTheLimit }
{}

/// A file without `#` and without names of macros becomes its tokens.
pub fn plain_files_stay()
    ensures { PlainFilesStay }
{}

/// A path has one number, which goes on telling it.
pub fn numbers_tell_paths()
    ensures tell { NumbersTellPaths }
    ensures stay { NumbersStay }
{}

/// The lines of a file have its tokens. Behind a directive they are read in what the lines before leave, or
/// they change nothing, since the file ends before them.
pub fn lines_are_read_in_order()
    ensures tokens { LinesHaveAllTokens }
    ensures behind { LinesBehindADirective }
    ensures at_the_end { LinesBehindTheEnd }
{}

/// Lines behind the one at which a file breaks off change nothing, be there a directive between or not; nor do those
/// that FILE has behind the end of its unit, neither how the unit ends nor its tokens.
/// An include that reads FILE again would show them; a FILE without includes is read once.
pub fn lines_behind_the_end_do_not_show()
    ensures tokens { TokensBehindTheEnd }
    ensures lines { LinesBehindTheUnitsEnd }
    ensures once { FilesWithoutIncludesAreReadOnce }
{}

/// Nothing of a group that is skipped shows but its conditionals: each other line may be left out.
pub fn skipped_groups_do_not_show()
    ensures { SkippedLinesDoNotShow }
{}

/// What a line defines can be defined.
pub fn definitions_are_well_formed()
    ensures { DefinitionsAreWellFormed }
{}

/// Small files become the tokens, or end with the errors and limits, that one can work out by hand.
pub fn worked_examples()
    ensures lines { LineRows }
    ensures groups { GroupRows }
    ensures text { TextRows }
    ensures definitions { DefinitionRows }
    ensures conditions { ConditionRows }
    ensures left_names { LeftNameRows }
    ensures search { SearchRows }
    ensures headers { HeaderRows }
    ensures files { FileRows }
    ensures command { CommandRows }
    ensures depth { DepthRows }
    ensures limits { LimitRows }
{}
