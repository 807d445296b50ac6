//! Tests of the layer from a prepared grammar to a text's tree that no table can hold: its calls, each where memory is there.

#[cfg(test)]
mod folding;
#[cfg(test)]
mod grammars;
#[cfg(test)]
mod inlining;
#[cfg(test)]
mod scanning;
#[cfg(test)]
mod trees;
