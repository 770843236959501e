// The theorems about the rules of BinaryJson, in proofs/; proofs/Demands.antt states those that answer the demands. The
// definitions stand in `binary_json_rules`.
#![tactic(auto)]
