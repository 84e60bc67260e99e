//! Tests alone, of the program on words, a folder in memory and writers: worked rows of its
//! commands, its end if standard output fails, its threads, and what it measures by a clock that is
//! made. And of calls below it: files of which contracts know what they hold, the lines of a file of
//! events, edits by an OSD's limits, the drawing of a run, the plan of a file of calls. Other rows of
//! the commands are those of tools/process_rows.py, which run the program as a process.
#![tactic(auto)]

#[cfg(test)]
mod answers;
#[cfg(test)]
mod beginnings;
#[cfg(test)]
mod drawings;
#[cfg(test)]
mod ended;
#[cfg(test)]
mod figures;
#[cfg(test)]
mod folder;
#[cfg(test)]
mod groups;
#[cfg(test)]
mod images;
#[cfg(test)]
mod known;
#[cfg(test)]
mod large_edits;
#[cfg(test)]
mod lines;
#[cfg(test)]
mod plans;
#[cfg(test)]
mod streams;
#[cfg(test)]
mod texts;
#[cfg(test)]
mod threads;
