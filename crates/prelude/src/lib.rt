// What the specifications and proofs of the other crates share: no code.
//
// `specs/Choice.antt` has the choice by a test in which every rule is written, `specs/Bits.antt`
// numbers in the bits of a word, `specs/Parts.antt` parts of bytes and of slices, `specs/After.antt` what
// a call leaves, `specs/Unique.antt` that a contract allows one result, and `specs/Ascii.antt` text as bytes.
#![tactic(auto)]
