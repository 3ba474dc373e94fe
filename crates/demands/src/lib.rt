// Document 00's demands, as theorems and without functions. Demand 1: proofs/Refusals, for the index
// answers/proofs/IndexRefusals. Demand 2: Acceptance, Registers, RoundTrips. Demand 3: LeastBodies. Document 02, ticket
// 3: Damage. An answer's refusal is its outcome's: Answers.
#![tactic(auto)]
