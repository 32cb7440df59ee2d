// The working memory (specs/Memory.antt): what is processed and written, kept in words with the index of a table. It is internal: its
// functions require what their callers have shown, and its callers look at contracts and laws alone, never at the words. A table is its layout here: editions end above.
// What a field, an index or a tag is below is a clause of each function that takes one, and that the memory is ready for a table (`Ready`) of
// each that reads it by one: a type for a number would be turned into it at every word, and the words stay a slice (words.rt). A word is
// cast to an index by `as` where the check sees through it.
#![tactic(auto)]

pub mod charging;
mod counting;
mod deciding;
mod fields;
pub mod founding;
pub mod inference;
pub mod layout;
pub mod marks;
pub mod prepare;
mod sorting;
pub mod uses;
pub mod visit;
mod words;
