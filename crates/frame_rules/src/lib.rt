// The rules of the bench (docs/format/BENCH.md): specs/ says what each line is answered and what the whole output is,
// proofs/ has the page's example.
#![tactic(auto)]
