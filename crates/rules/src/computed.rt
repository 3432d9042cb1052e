// What a do computes (02, No. 5); none where a sum or a difference does not fit. specs/Variables.antt says when that is.

// This variable gets this number. Two numbers make an answer six bytes long: in four the compiler keeps the case and the number in one
// word, and takes them apart again for each do (docs/SPEED.md). A pair, and no struct of its own: the definitions take it apart as they
// match.
pub type Assigned = (u16, u16);
