// The forms that a row of a table of trials has, and what a row says where it holds: facts about the definitions, with no code of their own.

#![tactic(auto)]
