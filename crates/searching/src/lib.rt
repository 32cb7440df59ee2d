// The searches of the well-founded reading (document 02, S-9), over the working memory. It is internal, as the memory is: what it requires its
// caller has shown.
#![tactic(auto)]

pub mod outside;
