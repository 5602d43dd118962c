// Tests of calls that ask something of their caller: that what other calls say is enough for it, which no clause says
// and no run shows. They stand in a crate of their own, since the test run of a crate proves all of it once more. All
// other tests stand in conformance/tests.
#![tactic(auto)]

#[cfg(test)]
mod tests_of_disassembly;
#[cfg(test)]
mod tests_of_frames;
#[cfg(test)]
mod tests_of_machines;
#[cfg(test)]
mod tests_of_reads;
#[cfg(test)]
mod tests_of_saves;
#[cfg(test)]
mod tests_of_texts;
#[cfg(test)]
mod tests_of_undo;
#[cfg(test)]
mod tests_of_words;
#[cfg(test)]
mod tests_same;
#[cfg(test)]
mod tests_story;
