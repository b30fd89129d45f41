// What histories of calls come to: the last change that a log says of a frame, and the states that calls from fresh tables leave. Theory only:
// specs/ has the definitions, proofs/History.antt the theorems. It rests on calls, and on what that rests on. No code rests on it.
#![tactic(auto)]
