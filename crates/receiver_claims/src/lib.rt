// Theorems only: request 2026-02's claims over every list of calls on a receiver. specs/ states them, proofs/ proves them. Rests on the laws
// of `receiver`, of `little_endian` and of `common`.
#![tactic(auto)]
