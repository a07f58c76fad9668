// What the programs that run cases share: the text that says the cases, the lists that it sets, and the writing of lists.
//
// The text is at most 65,536 bytes, a line for each thing said. A line that begins with # is a comment. A line that begins
// with the name of a list sets that list, which then stands until it is set anew. Its numbers are said one by one, or as
// `n*v`, n times v, or as `n*(v w+)`, n times a group in which w is more by one each time. A line that begins with the name
// of a call runs it on copies of the lists; the rest of the line is the case's name. Any other line is said to be
// malformed, and so is a list that the program does not take, which is then empty: one that has no room for all its
// numbers, or a strip with a number that is no byte. An array must have as many numbers as places, and has zeros if not.
//
// Lists are written with n*v for n equal neighbours. Of a list of more than 64 numbers its length is written, the sum of
// its numbers, and the sum of the sums on the way, which depends on every number and its place.
//
// Each program says its own lists and its calls, and what it writes of a case. The programs here go through their lines by
// `run_fixed`, in fixed memory and to the end; `run` is for lists on a heap, and ends where something fails.
#![tactic(auto)]

pub mod cases;
mod items;
pub mod lists;
pub mod numbers;
pub mod writing;
