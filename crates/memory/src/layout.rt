// The work memory that a call lends: rows for the nodes, a desk of single words, and a table. How long the desk and the table are and
// where things stand in them. specs/Layout says the same for the definitions.

// The desk: how many nodes stand, how many simplify calls were made, and why nothing was built: what a refusal NEED carries, in five words, the
// number of its operation and the bits of its operands, and the number of the refusal. The words after these are free, but for the last 256.
pub const DESK_WORDS: usize = 272;

// The marks that a call writes, a byte for each function value.
pub const MARKS: usize = 256;

// The marks, one for each function value of a sheet in the order of its t lines: 1 where its row was used in simplifying, else 0.
pub const MARKS_FROM: usize = 16;

// The table. It serves one thing after another: the lines of a listing that is read, the rows of a sheet, which need the most, and the
// order in which nodes are written: word i is the node of line i, for at most 4096 nodes.
pub const TABLE_WORDS: usize = 4608;

// A listing that is read: word i is the node of node line i. An s line has two words from here on, its variable and its node.
pub const SWAPS_FROM: usize = 1024;

// While its nodes are substituted: word k from here on is 0, or 1 and the number of the node that node k became.
pub const RESULTS_FROM: usize = 1536;

// A sheet: a variable has three words, from 0 on: its number and its value. A cell has two from here on: region and index in
// one, and its real.
pub const CELLS_FROM: usize = 768;

// A function value has seven words from here on: its name's number and its place in an index, two operands and its value.
pub const FUNCTIONS_FROM: usize = 2816;
