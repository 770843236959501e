// The theorems about the rules of Fractured JSON, in proofs/; proofs/Demands.antt states those that answer the demands.
// The definitions stand in `fractured_json_rules`.
#![tactic(auto)]
