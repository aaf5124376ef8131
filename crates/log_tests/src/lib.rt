// Tests of `log_text` by its public calls: logs that are read, refused, written and searched for what was never
// released. And of `long_line` of `gref_log`: which line of a text is named that is longer than a limit.
//
// They stand in a crate of their own since a crate with tests is proved twice, with them and without, and these are
// what a program is built on. Nothing but tests stands here, and no other crate builds on it.
//
// Nothing is promised to anybody. A test makes a text or a log, makes the calls, and compares what they answer with a
// table; each runs alone.
#![tactic(auto)]

#[cfg(test)]
mod comparing;
#[cfg(test)]
mod limits;
#[cfg(test)]
mod texts;
