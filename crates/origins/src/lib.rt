// Where a node came from: the bits of a word that hold the number of a line, the field that says it, and the sentences about it.
// An origin is a number of a line plus one, and 0 says none. It stays so, and no Option, where it is handed on: the word has it so,
// and `origin_text` and the store's `Step` (`traced`, `untraced`) say of that number what is kept and written.

#![tactic(auto)]

pub mod fields;
pub mod standing;
pub mod words;
