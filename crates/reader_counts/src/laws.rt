// The laws of the counts: what a read may answer by them is what it may answer, and they go on as entries come.

ghost use Rattle.reader_counts.specs.Told.{CountsGoOn, ReadsAreTold};

/// What a read may answer by the counts of a past is what it may answer by the entries of that past.
pub fn reads_are_told_by_counts()
    ensures { ReadsAreTold }
{}

/// The counts are those of the entries: before the first, and after each further one.
pub fn counts_go_on()
    ensures { CountsGoOn }
{}
