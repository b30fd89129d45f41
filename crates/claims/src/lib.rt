// What the customer asks for, as theorems about the definitions that the calls meet. Theory only: specs/ has the definitions, proofs/Claims.antt
// the theorems. It rests on calls, history and record_words, and on what these rest on. No code rests on it.
#![tactic(auto)]
