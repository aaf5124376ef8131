// Tests of the order of all entries, and of the readers that take no lock, by their public calls.
//
// They stand in a crate of their own since a crate with tests is proved twice, with them and without. Nothing but tests
// stands here, and no other crate builds on it.
//
// Each test makes an order of its own, which ends with it. Two threads draw in one of them; the others have one thread,
// with all seats. Nothing is promised to anybody: what each call answers is compared with what the rules say.
#![tactic(auto)]

#[cfg(test)]
mod draws;
#[cfg(test)]
mod made;
#[cfg(test)]
mod reads;
#[cfg(test)]
mod words;
