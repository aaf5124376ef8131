// Tests of `entry_reader`, `report_reader`, `limited_reports` and `report_answers` by their public calls: reports of
// worked scripts, which are written again as they were, texts that are no report, texts of two readings, reports in
// small pieces, and what is answered of a report.
//
// They stand in a crate of their own since a crate with tests is proved twice, with them and without. Nothing but tests
// stands here, and no other crate builds on it.
//
// Nothing is promised to anybody. A test reads a text, and compares what it is read as with a table; each runs alone.
#![tactic(auto)]

#[cfg(test)]
mod answers;
#[cfg(test)]
mod comparing;
#[cfg(test)]
mod pieces;
#[cfg(test)]
mod readings;
#[cfg(test)]
mod refusals;
#[cfg(test)]
mod written_again;
