// Laws on the reports of linked histories.
//
// A law is a function with an empty body and a statement of `specs/` as its contract: no value is made and nothing
// runs. What is promised: the report of a linked history is read as that history, without the notices that were queued
// and never taken, which no report shows; and what is read is linked by the same notes. So of a text it is one history
// that has to be judged to find out whether it is the report of a linked one.
//
// They stand apart from `report_reader`, which knows nothing of linked histories.
#![tactic(auto)]

mod laws;

pub use laws::linked_reports_are_read;
