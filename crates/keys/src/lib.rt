// A key's bytes: what documents 01, 02 and 03 say of them stands in specs/, and the laws and promises of the format in
// proofs/: numbers in groups of seven bits, headers, marks, parts, opening, and the held seeds. There is no code here.
// Assumes nothing.
#![tactic(auto)]
