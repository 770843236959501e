// The rules of Fractured JSON: definitions in specs/, and rows in proofs/ that are computed from them. The theorems
// about them stand in `fractured_json_theorems`; the reader that is proved against them is `fractured_json`.
#![tactic(auto)]
