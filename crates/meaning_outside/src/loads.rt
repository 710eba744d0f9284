// From single loads to the files behind them.
ghost use Rattle.meaning_outside.specs.laws.Loads.{LoadsOfEachPathOnceAgree};

/// Where no path is loaded twice, whatever was loaded is what some files hold.
pub fn loads_of_each_path_once_agree()
    ensures { LoadsOfEachPathOnceAgree }
{}
