// The rules of BinaryJson: definitions in specs/, and rows in proofs/ that are computed from them. The theorems about
// them stand in `binary_json_theorems`; the reader that is proved against them is `binary_json`.
#![tactic(auto)]
