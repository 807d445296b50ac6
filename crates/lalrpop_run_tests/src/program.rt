//! Tests of the program's calls that no table of cases shows: readers and writers that fail, bounds, and the values of words.

#[cfg(test)]
mod ends;
#[cfg(test)]
mod grammars;
#[cfg(test)]
mod places;
#[cfg(test)]
mod reports;
#[cfg(test)]
mod streams;
#[cfg(test)]
mod words;
