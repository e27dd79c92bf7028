// Several columns gathered by one index column: the definition (specs/), and what holds of it for every input (proofs/): each column's part of the
// outputs is what its own gather writes, a batch of one column is that column's gather, the first refusal of the columns is the batch's, and a batch
// equals that of its blanked columns.
#![tactic(auto)]
