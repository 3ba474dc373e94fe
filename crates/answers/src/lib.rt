// What each operation answers, as theorems and without functions. Which refusal's number comes first: proofs/Orders.
// The plane row and the good bytes of a refusal (document 02, ticket 3): RefusalRows. Demand 1 for the index:
// IndexRefusals. All three for the record list (document 02, ticket 13): RecordList. Document 01's examples marked P:
// Examples. An answer's refusal is its outcome's: IndexAnswers.
#![tactic(auto)]
