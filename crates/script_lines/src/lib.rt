// The lines of a script as far as they need no words: read, what they say of the search records done, and answers as text.

#![tactic(auto)]

pub mod answers;
pub mod fields;
pub mod input;
pub mod names;
pub mod records;
