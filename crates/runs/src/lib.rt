// Theory only: a run of single steps, and a range of them that is asked for in calls and pieces, for any step; and tables of worked cases.
// specs/ has the definitions: Run.antt what calls and pieces come to, Made.antt which calls are made, Worked.antt when a table of cases is as
// expected. proofs/Pieces.antt and MadeLaws.antt have the theorems. It rests on no other crate and has no code.
#![tactic(auto)]
