// The meaning of the programs that run today, against the meaning of the whole language.
ghost use Rattle.ae_cases.specs.Laws.{TodayIsACase};

/// An accepted program that runs today has the same ending and prints the same bytes by the meaning of the whole
/// language.
pub fn today_is_a_case()
    ensures { TodayIsACase }
{}
