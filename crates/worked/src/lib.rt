// The worked examples of the manual, proved about the rules of the other crates: no code.
//
// `specs/Cases.antt` says what an example is and when it holds, `specs/Table.antt` has them all in
// one table under a single statement, and `proofs/Table.antt` computes each of them.
#![tactic(auto)]
