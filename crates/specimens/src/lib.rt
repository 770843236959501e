// The fourteen documents of docs/format/SPECIMENS.md, shown from the definitions: specs/ has the list, proofs/ the
// claim.
#![tactic(auto)]
