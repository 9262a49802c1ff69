// Demand 3, which has definitions and proofs alone: after any calls from a fresh start, account,
// settings, open packet, packets sent and every reply equal what is worked out from the list of
// counted transactions. The statement is `specs/Demand3.antt`; `specs/Example.antt` works one out.
#![tactic(auto)]
