// Document 01's starred examples against the definitions, as one table, and a sheet that is louder than the worked one. No code.
#![tactic(auto)]
